//! Words repaired.

ghost use Rattle.std.specs.Prelude.{◌≡◌, ◌<◌, ◌≤◌, ◌↔◌, ℕ, false, List, All, length, replicate, IsTrue, IfOk, OnErr};
ghost use Rattle.reed_solomon.specs.Codeword.{IsCodeword, IsWithinReach};
ghost use Rattle.reed_solomon.specs.Distance.{distance};
ghost use Rattle.reed_solomon.specs.Erasures.{IsWithinReachOutside, count_true, distance_outside};

use crate::code::Code;
use crate::unknown::{blanked, count_true, whole_flags};
use crate::values::{syndromes, value_at};
use crate::words::{WHOLE_LENGTH, Word, sent_word, whole_word};
use crate::wrong_octets::correct;
use arrayvec::ArrayVec;
use thiserror::Error;

/// No codeword differs from the word in at most half as many octets as there are check octets.
#[derive(Clone, Copy, PartialEq, Eq, Debug, Drop, Error)]
#[error("no codeword is within reach")]
pub struct NoCodeword;

/// Is the word a codeword, its last octets being the check octets?
pub fn is_codeword(code: &Code, word: &[u8]) -> bool
    requires least { code.now.check_count ≤ length word.now }
    requires most { length word.now ≤ 255 }
    ensures { IsTrue result ↔ IsCodeword code.now word.now }
{
    vanishes(code, word)
}

/// Makes the word the codeword that differs from it in at most half as many octets as there are check octets, and
/// returns in how many it differs. There is at most one. If there is none, the word stays as it is.
pub fn repair(code: &Code, word: &mut [u8]) -> Result<usize, NoCodeword>
    requires least { code.now.check_count ≤ length word.old }
    requires most { length word.old ≤ 255 }
    ensures repaired { IfOk result (λ _. IsWithinReach code.now word.old word.new) }
    ensures only { IfOk result (λ _. (v : List ℕ) → IsWithinReach code.now word.old v → v ≡ word.new) }
    ensures count { IfOk result (λ count. count ≡ distance word.old word.new) }
    ensures refused { OnErr result ((v : List ℕ) → ¬ IsWithinReach code.now word.old v) }
    ensures unchanged { OnErr result (word.new ≡ word.old) }
{
    let unknown = none_unknown(word.len());
    repair_with_unknown(code, word, unknown.as_slice())
}

/// Makes the word the codeword that differs from it, outside the unknown octets, in at most half as many octets as
/// there are check octets beyond one for each unknown octet. Returns in how many octets it differs, the unknown ones
/// too. There is at most one such codeword, whatever the unknown octets came as. If there is none, the word stays as it
/// is. `unknown` has a flag for each octet of the word.
pub fn repair_with_unknown(
    code: &Code,
    word: &mut [u8],
    unknown: &[bool],
) -> Result<usize, NoCodeword>
    requires least { code.now.check_count ≤ length word.old }
    requires most { length word.old ≤ 255 }
    requires flags { length unknown.now ≡ length word.old }
    ensures repaired { IfOk result (λ _. IsWithinReachOutside code.now unknown.now word.old word.new) }
    ensures only { IfOk result (λ _. (v : List ℕ) → IsWithinReachOutside code.now unknown.now word.old v
        → v ≡ word.new) }
    ensures count { IfOk result (λ count. count ≡ distance word.old word.new) }
    ensures refused { OnErr result ((v : List ℕ) → ¬ IsWithinReachOutside code.now unknown.now word.old v) }
    ensures unchanged { OnErr result (word.new ≡ word.old) }
{
    let spent = count_true(unknown);
    if spent > code.check_count() {
        return Err(NoCodeword);
    }
    if vanishes(code, word) {
        return Ok(0);
    }
    let repaired = corrected(code, word, unknown);
    if !vanishes(code, repaired.as_slice()) {
        return Err(NoCodeword);
    }
    let wrong = distance_outside(unknown, word, repaired.as_slice());
    if spent + 2 * wrong > code.check_count() {
        return Err(NoCodeword);
    }
    let count = distance(word, repaired.as_slice());
    word.copy_from_slice(repaired.as_slice());
    Ok(count)
}

// So many flags, of which none is set.
fn none_unknown(count: usize) -> ArrayVec<bool, WHOLE_LENGTH>
    requires { count ≤ 255 }
    ensures { result.items ≡ replicate count false }
{
    let mut flags = ArrayVec::new();
    for _ in 0..count {
        flags.push(false);
    }
    flags
}

// The codeword within reach, if there is one, and else some word.
fn corrected(code: &Code, word: &[u8], unknown: &[bool]) -> Word
    requires least { code.now.check_count ≤ length word.now }
    requires most { length word.now ≤ 255 }
    requires flags { length unknown.now ≡ length word.now }
    requires few { count_true unknown.now ≤ code.now.check_count }
    ensures size { length result.items ≡ length word.now }
    ensures found { (v : List ℕ) → IsWithinReachOutside code.now unknown.now word.now v → result.items ≡ v }
{
    let mut whole = whole_word(code, word);
    let syndromes = syndromes(code.first_root(), code.check_count(), whole.as_slice());
    let flags = whole_flags(code, unknown);
    correct(
        code.first_root(),
        syndromes.as_slice(),
        &flags,
        whole.as_mut_slice(),
    );
    sent_word(code, whole.as_slice(), word.len())
}

// Is the word 0 at each root? Its octets are octets, which a caller that holds it by a `&mut` is told here.
fn vanishes(code: &Code, word: &[u8]) -> bool
    requires least { code.now.check_count ≤ length word.now }
    requires most { length word.now ≤ 255 }
    ensures value { IsTrue result ↔ IsCodeword code.now word.now }
    ensures octets { All (λ x. x < 256) word.now }
{
    let whole = whole_word(code, word);
    for k in 0..code.check_count() {
        if value_at(code.first_root() as usize + k, whole.as_slice()) != 0 {
            return false;
        }
    }
    true
}

// In how many octets two words of one length differ outside the unknown ones.
fn distance_outside(unknown: &[bool], word: &[u8], other: &[u8]) -> usize
    requires flags { length unknown.now ≡ length word.now }
    requires most { length word.now ≤ 255 }
    requires size { length word.now ≡ length other.now }
    ensures value { result ≡ distance_outside unknown.now word.now other.now }
    ensures most { result ≤ 255 }
{
    let known = blanked(unknown, word);
    let other_known = blanked(unknown, other);
    distance(known.as_slice(), other_known.as_slice())
}

// In how many octets two words of one length differ.
fn distance(word: &[u8], other: &[u8]) -> usize
    requires { length word.now ≡ length other.now }
    ensures value { result ≡ distance word.now other.now }
    ensures most { result ≤ length word.now }
{
    let mut count = 0;
    for i in 0..word.len() {
        if word[i] != other[i] {
            count += 1;
        }
    }
    count
}
