//! Values of words at powers.

ghost use Rattle.std.specs.Prelude.{◌≡◌, ◌+◌, ◌≤◌};
ghost use Rattle.reed_solomon.specs.Kernel.{values_down};
ghost use Rattle.reed_solomon.specs.Values.{value_at};

use crate::code::MOST_CHECK_OCTETS;
use crate::field::times_power;
use arrayvec::ArrayVec;

// The value at power(j), as Horner computes it.
pub fn value_at(j: usize, octets: &[u8]) -> u8
    ensures { result ≡ value_at j octets.now }
{
    let mut value = 0;
    for octet in octets {
        value = times_power(j, value) ^ *octet;
    }
    value
}

// The values at each root of a code, that of the last root first.
pub fn syndromes(first_root: u8, count: usize, word: &[u8]) -> ArrayVec<u8, MOST_CHECK_OCTETS>
    requires { count ≤ 64 }
    ensures { result.items ≡ values_down word.now first_root count }
{
    let mut syndromes = ArrayVec::new();
    for k in 0..count {
        syndromes.push(value_at(first_root as usize + (count - 1 - k), word));
    }
    syndromes
}
