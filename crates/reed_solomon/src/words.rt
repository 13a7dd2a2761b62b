//! Words as they are sent, and as words of 255 octets with the zeros of a shortened code.

ghost use Rattle.std.specs.Prelude.{◌≡◌, ◌+◌, ◌-◌, ◌<◌, ◌≤◌, ◌++◌, ℕ, List, All, length, take, drop, replicate};
ghost use Rattle.arrayvec.specs.ArrayVec.{array_vec_len};
ghost use Rattle.reed_solomon.specs.Codeword.{with_zeros};
ghost use Rattle.reed_solomon.specs.Register.{whole, zeros_after, zeros_before};

use crate::code::{Code, Zeros};
use arrayvec::ArrayVec;

// How many octets a word has with the zeros that a shortened code leaves out.
pub const WHOLE_LENGTH: usize = 255;

// At most so many octets.
pub type Word = ArrayVec<u8, WHOLE_LENGTH>;

// A word with those zeros.
pub fn whole_word(code: &Code, word: &[u8]) -> Word
    requires least { code.now.check_count ≤ length word.now }
    requires most { length word.now ≤ 255 }
    ensures items { let n = length word.now - code.now.check_count in
        result.items ≡ whole code.now (take n word.now) (drop n word.now) }
    ensures octets { All (λ x. x < 256) result.items }
{
    let (octets, check) = word.split_at(word.len() - code.check_count());
    let mut whole = with_zeros(code.zeros(), WHOLE_LENGTH - word.len(), octets);
    push_all(&mut whole, check);
    whole
}

// Data octets with so many zeros that are not sent.
fn with_zeros(zeros: Zeros, count: usize, octets: &[u8]) -> Word
    requires { length octets.now + count ≤ 255 }
    ensures { result.items ≡ with_zeros zeros count octets.now }
{
    let mut word = ArrayVec::new();
    match zeros {
        Zeros::Leading => {
            push_zeros(&mut word, count);
            push_all(&mut word, octets);
            word
        }
        Zeros::Between => {
            push_all(&mut word, octets);
            push_zeros(&mut word, count);
            word
        }
    }
}

// The part of such a word that is sent, `len` octets.
pub fn sent_word(code: &Code, long: &[u8], len: usize) -> Word
    requires size { length long.now ≡ 255 }
    requires least { code.now.check_count ≤ len }
    requires most { len ≤ 255 }
    ensures size { length result.items ≡ len }
    ensures sent { (octets : List ℕ) → (check : List ℕ) → length octets + code.now.check_count ≡ len
        → long.now ≡ whole code.now octets check → result.items ≡ octets ++ check }
{
    let count = code.check_count();
    let start = zeros_before(code, len - count);
    let mut word = ArrayVec::new();
    push_all(&mut word, &long[start..start + len - count]);
    push_all(&mut word, &long[WHOLE_LENGTH - count..]);
    word
}

// How many zeros stand before so many data octets.
fn zeros_before(code: &Code, count: usize) -> usize
    requires { count + code.now.check_count ≤ 255 }
    ensures { result ≡ zeros_before code.now.zeros (255 - code.now.check_count - count) }
{
    match code.zeros() {
        Zeros::Leading => WHOLE_LENGTH - code.check_count() - count,
        Zeros::Between => 0,
    }
}

// How many zeros stand after so many data octets.
pub fn zeros_after(code: &Code, count: usize) -> usize
    requires { count + code.now.check_count ≤ 255 }
    ensures { result ≡ zeros_after code.now.zeros (255 - code.now.check_count - count) }
{
    match code.zeros() {
        Zeros::Leading => 0,
        Zeros::Between => WHOLE_LENGTH - code.check_count() - count,
    }
}

fn push_all(word: &mut Word, octets: &[u8])
    requires { array_vec_len word.old + length octets.now ≤ 255 }
    ensures { word.new.items ≡ word.old.items ++ octets.now }
{
    for octet in octets {
        word.push(*octet);
    }
}

fn push_zeros(word: &mut Word, count: usize)
    requires { array_vec_len word.old + count ≤ 255 }
    ensures { word.new.items ≡ word.old.items ++ replicate count 0 }
{
    for _ in 0..count {
        word.push(0);
    }
}
