//! How long a block keeps coming in.

ghost use Rattle.std.specs.Prelude.{◌≡◌, ℕ, ◌<◌, ◌≤◌, ◌↔◌};
ghost use Rattle.fx25_blocks.specs.Tags.{IsTag, bits_of_64, differing, tag_bits};
ghost use Rattle.fx25_blocks.specs.Began.{BeginsToCome};

use crate::tag_search::wrong_bits;
use crate::tags::{block_length, tag_value};

// In so many bits a tag may be wrong that tells that a block is coming in.
const MOST_WRONG_BITS: u32 = 8;

// The bits of a tag.
const TAG_BITS: usize = 64;

// How many bits past its end a block still counts.
const HOLD: u16 = 64;

// For how many bits, the last one among them, a block is coming in whose tag ends with the last of so many bits taken:
// the register has the last 64, and `tag` is the tag that they are near to. 0 if they are not near enough.
pub fn coming_from(register: u64, tag: u8, taken: usize) -> u16
    requires near { (n : ℕ) → IsTag n → ((tag ≡ n) ↔ (differing (bits_of_64 register) (tag_bits n) ≤ 12)) }
    requires number { tag ≤ 11 }
    ensures count { (more : ℕ) → (more < result) ↔ BeginsToCome register taken more }
    ensures most { result ≤ 2105 }
{
    if taken < TAG_BITS {
        return 0;
    }
    if tag == 0 {
        return 0;
    }
    if wrong_bits(register, tag_value(tag)) > MOST_WRONG_BITS {
        return 0;
    }
    8 * block_length(tag) as u16 + HOLD + 1
}
