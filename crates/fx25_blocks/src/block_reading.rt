//! The frame that a block carries.

ghost use Rattle.std.specs.Prelude.{◌≡◌, ℕ, ◌*◌, List, length, IfSome};
ghost use Rattle.std.specs.Option.{IfNone};
ghost use Rattle.fx25_blocks.specs.BlockEnds.{CarriesFrame, IsRepairOf};
ghost use Rattle.fx25_blocks.specs.Tags.{IsTag, block_length};

use crate::block_code::block_code;
use crate::opening::{BlockFrame, opening_frame};
use crate::packing::{Word, are_octets, pack};
use crate::tags::{block_length, data_count};
use reed_solomon::repair;

// The frame that the bits of a block carry.
pub fn read_block(tag: u8, bits: &[bool]) -> Option<BlockFrame>
    requires tag { IsTag tag }
    requires size { length bits.now ≡ 8 * block_length tag }
    ensures frame { IfSome result (λ found. CarriesFrame tag bits.now found.octets.items found.over) }
    ensures none { IfNone result ((frame : List ℕ) → (over : ℕ) → ¬ CarriesFrame tag bits.now frame over) }
{
    let word = pack(bits, block_length(tag));
    are_octets(word.as_slice());
    match repaired(tag, word) {
        None => None,
        Some(codeword) => opening_frame(&codeword.as_slice()[..data_count(tag)]),
    }
}

// The codeword within reach of a word.
fn repaired(tag: u8, mut word: Word) -> Option<Word>
    requires tag { IsTag tag }
    requires size { length word.items ≡ block_length tag }
    ensures repair { IfSome result (λ codeword. IsRepairOf tag word.items codeword.items) }
    ensures only { IfSome result (λ codeword. (other : List ℕ) → IsRepairOf tag word.items other
        → other ≡ codeword.items) }
    ensures none { IfNone result ((other : List ℕ) → ¬ IsRepairOf tag word.items other) }
{
    let repaired = repair(&block_code(tag), word.as_mut_slice());
    match repaired {
        Ok(_) => Some(word),
        Err(_) => None,
    }
}
