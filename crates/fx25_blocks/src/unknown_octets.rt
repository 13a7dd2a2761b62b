//! The frame that a block carries if its octets are not all as sure.

ghost use Rattle.std.specs.Prelude.{◌≡◌, ℕ, ◌*◌, ◌/◌, ◌≤◌, Bool, List, length, IfSome};
ghost use Rattle.std.specs.Option.{IfNone};
ghost use Rattle.fx25_blocks.specs.Tags.{IsTag, block_length, check_count};
ghost use Rattle.fx25_blocks.specs.UnknownOctets.{CarriesWithUnknown, IsRepairOutside, ReadsFrame};

use crate::block_code::block_code;
use crate::least_sure::least_sure;
use crate::opening::{BlockFrame, opening_frame};
use crate::packing::{Word, word_of};
use crate::tags::{check_count, data_count};
use reed_solomon::repair_with_unknown;

/// The frame that the octets of a block carry, each of them with a number, the higher the surer it is. If the block is
/// too far from a codeword as it came, its least sure octets are taken as unknown, as many as an eighth of its check
/// octets, then two, three and four eighths: the first frame counts.
#[cold]
pub fn block_with_unknown(tag: u8, octets: &[u8], certainty: &[u32]) -> Option<BlockFrame>
    requires tag { IsTag tag }
    requires size { length octets.now ≡ block_length tag }
    requires numbers { length certainty.now ≡ length octets.now }
    ensures frame { IfSome result (λ found. ReadsFrame tag octets.now certainty.now found.octets.items found.over) }
    ensures none { IfNone result ((frame : List ℕ) → (over : ℕ)
        → ¬ ReadsFrame tag octets.now certainty.now frame over) }
{
    for eighths in 0..5 {
        let count = eighths * (check_count(tag) / 8);
        if let Some(found) = frame_with(tag, octets, certainty, count) {
            return Some(found);
        }
    }
    None
}

// The frame of a block whose least sure octets, so many, are taken as unknown.
fn frame_with(tag: u8, octets: &[u8], certainty: &[u32], count: usize) -> Option<BlockFrame>
    requires tag { IsTag tag }
    requires size { length octets.now ≡ block_length tag }
    requires numbers { length certainty.now ≡ length octets.now }
    ensures frame { IfSome result
        (λ found. CarriesWithUnknown tag count octets.now certainty.now found.octets.items found.over) }
    ensures none { IfNone result ((frame : List ℕ) → (over : ℕ)
        → ¬ CarriesWithUnknown tag count octets.now certainty.now frame over) }
{
    let unknown = least_sure(certainty, count);
    match repaired(tag, word_of(octets), unknown.as_slice()) {
        None => None,
        Some(codeword) => opening_frame(&codeword.as_slice()[..data_count(tag)]),
    }
}

// The codeword within reach of a word with unknown octets.
fn repaired(tag: u8, mut word: Word, unknown: &[bool]) -> Option<Word>
    requires tag { IsTag tag }
    requires size { length word.items ≡ block_length tag }
    requires flags { length unknown.now ≡ length word.items }
    ensures repair { IfSome result (λ codeword. IsRepairOutside tag unknown.now word.items codeword.items) }
    ensures only { IfSome result (λ codeword. (other : List ℕ) → IsRepairOutside tag unknown.now word.items other
        → other ≡ codeword.items) }
    ensures none { IfNone result ((other : List ℕ) → ¬ IsRepairOutside tag unknown.now word.items other) }
{
    let repaired = repair_with_unknown(&block_code(tag), word.as_mut_slice(), unknown);
    match repaired {
        Ok(_) => Some(word),
        Err(_) => None,
    }
}
