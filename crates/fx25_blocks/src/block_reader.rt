//! Blocks in a line of bits.

ghost use Rattle.std.specs.Prelude.{◌≡◌, ◌≢◌, ℕ, ◌+◌, ◌*◌, ◌%◌, ◌<◌, ◌≤◌, min, set, Bool, true, List, [], ◌∷◌, ◌++◌, IfSome, length};
ghost use Rattle.std.specs.Prelude.{◌-◌, ◌↔◌, IsTrue, max};
ghost use Rattle.std.specs.Option.{IfNone};
ghost use Rattle.fx25_blocks.specs.BlockEnds.{EndsBlock};
ghost use Rattle.fx25_blocks.specs.Tags.{IsTag, block_length};

use crate::block_coming::coming_from;
use crate::block_reading::read_block;
use crate::certainties::Certainties;
use crate::opening::BlockFrame;
use crate::packing::{are_octets, pack};
use crate::recent::{RING, recent};
use crate::tag_search::{near_tag, shifted};
use crate::tags::block_length;
use crate::unknown_octets::block_with_unknown;

// A block of 255 octets and its tag are so many bits.
const MOST_TAKEN: usize = 2104;

/// Finds the blocks in a line of bits. Every tag is followed, also one that comes while a block comes in: the reader
/// keeps the last bits, and which tag ended with each. It also keeps with which bits to come a block may end, so that any
/// other bit is told in one step to end none. It takes no memory beyond its own size.
#[derive(Drop)]
pub struct BlockReader {
    bits: [bool; 2048],
    tags: [u8; 2048],
    due: [bool; 2048],
    register: u64,
    next: usize,
    taken: usize,
    coming: u16,
    ghost place: { next < 2048 },
    ghost most: { taken ≤ 2104 },
    ghost coming_most: { coming ≤ 2105 },
}

impl BlockReader {
    ghost use Rattle.fx25_blocks.specs.Coming.{IsBlockComing};
    ghost use Rattle.fx25_blocks.specs.Held.{HasTag, StandsFor};
    ghost use Rattle.fx25_blocks.specs.HeldCertainties.{StandsFor as AreKept};
    ghost use Rattle.fx25_blocks.specs.UnsureBlocks.{EndsUnsureBlock};

    /// A reader that has taken no bit.
    pub fn new() -> BlockReader
        ensures stands_for { StandsFor result [] }
        ensures taken { result.taken ≡ 0 }
    {
        BlockReader {
            bits: [false; RING],
            tags: [0; RING],
            due: [false; RING],
            register: 0,
            next: 0,
            taken: 0,
            coming: 0,
        }
    }

    /// Takes the next bit, `true` for a 1.
    pub fn push(&mut self, bit: bool)
        ensures stands_for { (b : List Bool) → StandsFor self.old b → StandsFor self.new (b ++ bit ∷ []) }
        ensures taken { self.new.taken ≡ min 2104 (self.old.taken + 1) }
    {
        self.register = shifted(self.register, bit);
        self.bits[self.next] = bit;
        self.due[self.next] = false;
        self.next = (self.next + 1) % RING;
        let tag = near_tag(self.register);
        self.tags[self.next] = tag;
        expect(&mut self.due, self.next, tag);
        self.taken = one_more(self.taken);
        let begun = coming_from(self.register, tag, self.taken);
        self.coming = longest(begun, self.coming);
    }

    /// True if a block is coming in with the last bit, or was over at most 64 bits ago: a tag of which at most 8 bits are
    /// wrong has told so.
    pub fn is_block_coming(&self) -> bool
        ensures { (b : List Bool) → StandsFor self.now b → (IsTrue result ↔ IsBlockComing b) }
    {
        self.coming > 0
    }

    /// True if no tag stands where a block that ends with the last bit has one. Then no block ends with it.
    pub fn is_idle(&self) -> bool
        ensures block { (b : List Bool) → StandsFor self.now b → result ≡ true
            → (tag : ℕ) → (frame : List ℕ) → (over : ℕ) → ¬ EndsBlock b tag frame over }
        ensures unsure { (b : List Bool) → (numbers : List ℕ) → StandsFor self.now b → result ≡ true
            → (tag : ℕ) → (frame : List ℕ) → (over : ℕ) → ¬ EndsUnsureBlock b numbers tag frame over }
    {
        !self.due[self.next]
    }

    /// The frame of the block that the last bit ends, if it is a block of this tag, which has a number from 1 to 11.
    pub fn frame(&self, tag: u8) -> Option<BlockFrame>
        requires { IsTag tag }
        ensures frame { (b : List Bool) → StandsFor self.now b
            → IfSome result (λ found. EndsBlock b tag found.octets.items found.over) }
        ensures none { (b : List Bool) → StandsFor self.now b
            → IfNone result ((frame : List ℕ) → (over : ℕ) → ¬ EndsBlock b tag frame over) }
    {
        if !self.has_tag(tag) {
            return None;
        }
        let bits = recent(&self.bits, self.next, 8 * block_length(tag));
        read_block(tag, bits.as_slice())
    }

    /// The same, if it is told how sure the bits are, those of the block at least: a block that is too far from a codeword
    /// as it came is read with its least sure octets unknown.
    #[cold]
    pub fn unsure_frame(&self, tag: u8, certainties: &Certainties) -> Option<BlockFrame>
        requires { IsTag tag }
        ensures frame { (b : List Bool) → (numbers : List ℕ) → StandsFor self.now b
            → AreKept certainties.now numbers
            → (64 + 8 * block_length tag ≤ length b → 8 * block_length tag ≤ length numbers)
            → IfSome result (λ found. EndsUnsureBlock b numbers tag found.octets.items found.over) }
        ensures none { (b : List Bool) → (numbers : List ℕ) → StandsFor self.now b
            → AreKept certainties.now numbers
            → (64 + 8 * block_length tag ≤ length b → 8 * block_length tag ≤ length numbers)
            → IfNone result ((frame : List ℕ) → (over : ℕ) → ¬ EndsUnsureBlock b numbers tag frame over) }
    {
        if !self.has_tag(tag) {
            return None;
        }
        let count = block_length(tag);
        let bits = recent(&self.bits, self.next, 8 * count);
        let octets = pack(bits.as_slice(), count);
        are_octets(octets.as_slice());
        let certainty = certainties.of_octets(count);
        block_with_unknown(tag, octets.as_slice(), certainty.as_slice())
    }

    /// Does the tag end where a block has it that ends with the last bit?
    fn has_tag(&self, tag: u8) -> bool
        requires { IsTag tag }
        ensures { (b : List Bool) → StandsFor self.now b → (IsTrue result ↔ HasTag tag b) }
    {
        let count = 8 * block_length(tag);
        if self.taken < 64 + count {
            return false;
        }
        self.tags[(self.next + RING - count) % RING] == tag
    }
}

// One bit more, up to as many as a reader looks back.
fn one_more(taken: usize) -> usize
    requires { taken ≤ 2104 }
    ensures value { result ≡ min 2104 (taken + 1) }
    ensures most { result ≤ 2104 }
{
    if taken < MOST_TAKEN { taken + 1 } else { taken }
}

// For how many bits a block is coming in after one bit more, if it was for so many and one begins to come for as many.
fn longest(begun: u16, coming: u16) -> u16
    requires begun { begun ≤ 2105 }
    requires coming { coming ≤ 2105 }
    ensures value { result ≡ max begun (coming - 1) }
    ensures most { result ≤ 2105 }
{
    begun.max(coming.saturating_sub(1))
}

// Keeps with which bit to come the block ends of a tag that ended in front of a place. No tag is 0.
fn expect(due: &mut [bool; 2048], next: usize, tag: u8)
    requires next { next < 2048 }
    requires tag { tag ≤ 11 }
    ensures none { tag ≡ 0 → due.new ≡ due.old }
    ensures some { tag ≢ 0 → due.new ≡ set due.old ((next + 8 * block_length tag) % 2048) true }
{
    if tag != 0 {
        due[(next + 8 * block_length(tag)) % RING] = true;
    }
}
