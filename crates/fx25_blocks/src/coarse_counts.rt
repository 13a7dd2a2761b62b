//! A coarse count of wrong bits, of all tags at once.
//!
//! Noise comes near a tag once in hours, so nearly all bits need no exact count. A number holds a field of five bits for
//! each tag. Of the 48 bits that came first, eight at a time, a field counts those that differ from its tag, but at most
//! four of each eight. It begins at 3, so its highest bit is a 1 once 13 are counted, and it never passes 27.

ghost use Rattle.std.specs.Prelude.{◌≡◌, ℕ, ◌<◌, ◌≤◌, ◌^◌, true};
ghost use Rattle.fx25_blocks.specs.CoarseCounts.{row_at};
ghost use Rattle.fx25_blocks.specs.Tags.{IsTag, bits_of_64, differing, tag_bits};

use crate::coarse_rows::ROWS;

// So many times eight bits are looked at.
const PIECES: u8 = 6;

// Each field at 3.
const BEGINNING: u64 = 0x000C_6318_C631_8C63;

// The highest bit of each field.
const HIGHEST: u64 = 0x0042_1084_2108_4210;

// True only if 64 bits differ from every tag in more than 12.
pub fn is_far(register: u64) -> bool
    ensures { result ≡ true → (tag : ℕ) → IsTag tag → 12 < differing (bits_of_64 register) (tag_bits tag) }
{
    let mut rest = register;
    let mut counts = BEGINNING;
    for piece in 0..PIECES {
        counts += row(piece, rest % 256);
        rest /= 256;
    }
    counts & HIGHEST == HIGHEST
}

// The counts of a piece of eight bits.
fn row(piece: u8, bits: u64) -> u64
    requires piece { piece < 6 }
    requires bits { bits < 256 }
    ensures { result ≡ row_at piece bits }
{
    ROWS[256 * piece as usize + bits as usize]
}
