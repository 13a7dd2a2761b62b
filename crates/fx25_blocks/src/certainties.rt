//! How sure the bits of a line are.

ghost use Rattle.std.specs.Prelude.{◌≡◌, ◌+◌, ◌*◌, ◌-◌, ◌%◌, ◌<◌, ◌≤◌, ℕ, List, [], ◌∷◌, ◌++◌, length, drop, slice_index};
ghost use Rattle.fx25_blocks.specs.UnsureBlocks.{AreOctetCertainties, least_of};

use crate::packing::{MOST_BITS, MOST_OCTETS};
use crate::recent::RING;
use arrayvec::ArrayVec;

/// A number for each octet of a block.
pub type OctetCertainties = ArrayVec<u32, MOST_OCTETS>;

/// How sure the last 2048 bits of a line are: a number for each, the higher the surer.
#[derive(Drop)]
pub struct Certainties {
    numbers: [u32; 2048],
    next: usize,
    ghost place: { next < 2048 },
}

impl Certainties {
    ghost use Rattle.fx25_blocks.specs.HeldCertainties.{StandsFor};

    /// Those of no bit.
    pub fn new() -> Certainties
        ensures { StandsFor result [] }
    {
        Certainties {
            numbers: [0; RING],
            next: 0,
        }
    }

    /// Takes the number of the next bit.
    pub fn push(&mut self, number: u32)
        ensures { (numbers : List ℕ) → StandsFor self.old numbers → StandsFor self.new (numbers ++ number ∷ []) }
    {
        self.numbers[self.next] = number;
        self.next = (self.next + 1) % RING;
    }

    /// How sure the last octets are, so many: each is as sure as its least sure bit.
    pub(crate) fn of_octets(&self, count: usize) -> OctetCertainties
        requires { count ≤ 255 }
        ensures size { length result.items ≡ count }
        ensures certainties { (numbers : List ℕ) → StandsFor self.now numbers → 8 * count ≤ length numbers
            → AreOctetCertainties (drop (length numbers - 8 * count) numbers) result.items }
    {
        let numbers = last_numbers(&self.numbers, self.next, 8 * count);
        least_of_octets(numbers.as_slice(), count)
    }
}

/// The last numbers of a ring, so many, if the next one will stand at a place.
fn last_numbers(ring: &[u32; 2048], next: usize, count: usize) -> ArrayVec<u32, MOST_BITS>
    requires next { next < 2048 }
    requires count { count ≤ 2040 }
    ensures size { length result.items ≡ count }
    ensures each { (i : ℕ) → i < count → slice_index result.items i
        ≡ slice_index ring.now ((next + 2048 - count + i) % 2048) }
{
    let mut numbers = ArrayVec::new();
    for i in 0..count {
        numbers.push(ring[(next + RING - count + i) % RING]);
    }
    numbers
}

/// The least number of each eight in turn.
fn least_of_octets(numbers: &[u32], count: usize) -> OctetCertainties
    requires size { length numbers.now ≡ 8 * count }
    requires most { count ≤ 255 }
    ensures size { length result.items ≡ count }
    ensures certainties { AreOctetCertainties numbers.now result.items }
{
    let mut octets = ArrayVec::new();
    for place in 0..count {
        octets.push(least_of(&numbers[8 * place..8 * place + 8]));
    }
    octets
}

fn least_of(numbers: &[u32]) -> u32
    ensures { result ≡ least_of numbers.now }
{
    let mut least = u32::MAX;
    for number in numbers {
        least = least.min(*number);
    }
    least
}
