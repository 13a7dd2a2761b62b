//! The last bits of a ring.

ghost use Rattle.std.specs.Prelude.{◌≡◌, ℕ, ◌+◌, ◌-◌, ◌%◌, ◌<◌, ◌≤◌, false, length, slice_index_or};

use crate::packing::WordBits;
use arrayvec::ArrayVec;

// For so many bits a ring has room.
pub const RING: usize = 2048;

// The last bits, so many, if the next one will stand at a place.
pub fn recent(ring: &[bool; 2048], next: usize, count: usize) -> WordBits
    requires next { next < 2048 }
    requires count { count ≤ 2040 }
    ensures size { length result.items ≡ count }
    ensures each { (i : ℕ) → i < count → slice_index_or result.items i false
        ≡ slice_index_or ring.now ((next + 2048 - count + i) % 2048) false }
{
    let mut bits = ArrayVec::new();
    for i in 0..count {
        bits.push(ring[(next + RING - count + i) % RING]);
    }
    bits
}
