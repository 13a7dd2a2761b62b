//! The tag that 64 bits are near to.

ghost use Rattle.std.specs.Prelude.{◌≡◌, ℕ, ◌≤◌, ◌↔◌, ◌∷◌, [], ◌++◌, drop};
ghost use Rattle.fx25_blocks.specs.Tags.{IsTag, bits_of_64, differing, tag_bits};

use crate::coarse_counts::is_far;
use crate::tags::{TAGS, tag_value};

// In so many bits a tag may be wrong. Any two tags differ in 32.
const MOST_WRONG_BITS: u32 = 12;

// The place of the last bit that came.
const LAST_BIT: u64 = 0x8000_0000_0000_0000;

/// The number of the tag from which 64 bits differ in at most 12, or 0 if there is none. The least significant bit came
/// first.
pub fn near_tag(register: u64) -> u8
    ensures near { (tag : ℕ) → IsTag tag → ((result ≡ tag) ↔ (differing (bits_of_64 register) (tag_bits tag) ≤ 12)) }
    ensures number { result ≤ 11 }
{
    if is_far(register) {
        return 0;
    }
    for place in 0..TAGS {
        let tag = place + 1;
        if wrong_bits(register, tag_value(tag)) <= MOST_WRONG_BITS {
            return tag;
        }
    }
    0
}

// In how many bits two numbers differ.
pub fn wrong_bits(register: u64, value: u64) -> u32
    ensures { result ≡ differing (bits_of_64 register) (bits_of_64 value) }
{
    (register ^ value).count_ones()
}

/// The last 64 bits after one bit more.
pub fn shifted(register: u64, bit: bool) -> u64
    ensures { bits_of_64 result ≡ drop 1 (bits_of_64 register) ++ bit ∷ [] }
{
    let rest = register >> 1;
    if bit { rest + LAST_BIT } else { rest }
}
