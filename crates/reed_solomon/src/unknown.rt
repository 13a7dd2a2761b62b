//! Unknown octets of words.

ghost use Rattle.std.specs.Prelude.{◌≡◌, ◌-◌, ◌<◌, ◌≤◌, ◌==◌, ℕ, false, if◌then◌else◌, length, take, drop, slice_index, slice_index_or};
ghost use Rattle.reed_solomon.specs.Erasures.{blanked, count_true};
ghost use Rattle.reed_solomon.specs.Kernel.{marks};
ghost use Rattle.reed_solomon.specs.Register.{whole};

use crate::code::Code;
use crate::roots::Flags;
use crate::words::{WHOLE_LENGTH, Word, whole_word};
use arrayvec::ArrayVec;

// How many flags are set.
pub fn count_true(flags: &[bool]) -> usize
    ensures value { result ≡ count_true flags.now }
    ensures most { result ≤ length flags.now }
{
    let mut count = 0;
    for flag in flags {
        if *flag {
            count += 1;
        }
    }
    count
}

// A word with 0 in place of each unknown octet.
pub fn blanked(unknown: &[bool], word: &[u8]) -> Word
    requires size { length unknown.now ≡ length word.now }
    requires most { length word.now ≤ 255 }
    ensures { result.items ≡ blanked unknown.now word.now }
{
    let mut blanked = ArrayVec::new();
    for i in 0..word.len() {
        blanked.push(zero_if(unknown[i], word[i]));
    }
    blanked
}

fn zero_if(unknown: bool, octet: u8) -> u8
    ensures { result ≡ (if unknown then 0 else octet) }
{
    if unknown { 0 } else { octet }
}

// The unknown octets of a word, by how many octets follow them in the whole word of 255.
pub fn whole_flags(code: &Code, unknown: &[bool]) -> Flags
    requires least { code.now.check_count ≤ length unknown.now }
    requires most { length unknown.now ≤ 255 }
    ensures flags { let all = marks unknown.now in
        let n = length all - code.now.check_count in
        (p : ℕ) → p < 255 → slice_index_or result p false
        ≡ (slice_index (whole code.now (take n all) (drop n all)) (254 - p) == 1) }
    ensures size { length result ≡ 255 }
{
    let whole = whole_word(code, marks(unknown).as_slice());
    flags_of(whole.as_slice())
}

// 1 for each unknown octet of a word, and 0 for each known one.
fn marks(unknown: &[bool]) -> Word
    requires { length unknown.now ≤ 255 }
    ensures items { result.items ≡ marks unknown.now }
    ensures size { length result.items ≡ length unknown.now }
{
    let mut marks = ArrayVec::new();
    for flag in unknown {
        marks.push(if *flag { 1 } else { 0 });
    }
    marks
}

// Where the marks of a whole word stand, by how many octets follow them.
fn flags_of(marks: &[u8]) -> Flags
    requires { length marks.now ≡ 255 }
    ensures flags { (p : ℕ) → p < 255 → slice_index_or result p false ≡ (slice_index marks.now (254 - p) == 1) }
    ensures size { length result ≡ 255 }
{
    let mut flags = [false; WHOLE_LENGTH];
    for p in 0..WHOLE_LENGTH {
        flags[p] = marks[WHOLE_LENGTH - 1 - p] == 1;
    }
    flags
}
