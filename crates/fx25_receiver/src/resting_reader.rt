//! A reader of blocks that rests while no block comes.
//!
//! In noise a lane comes near a tag about once in five minutes. So it mostly keeps the last 64 bits alone, and asks of each
//! bit whether a tag ends with it. Only then does it wake a whole reader, which takes the bits of the tag and those to
//! come until no block can end and none holds the channel.
ghost use Rattle.std.specs.Prelude.{max, ◌≡◌, ◌↔◌, ◌≤◌, ◌<◌, ◌+◌, ◌/◌, ◌^◌, drop, take, ℕ, Bool, List, [], ◌∷◌, ◌++◌, true, false, IfSome, IsTrue};
ghost use Rattle.std.specs.Option.{IfNone};
ghost use Rattle.fx25_blocks.specs.Coming.{IsBlockComing};
ghost use Rattle.fx25_blocks.specs.Held.{StandsFor as ReaderStandsFor};
ghost use Rattle.fx25_blocks.specs.UnsureBlocks.{EndsUnsureBlock};
ghost use Rattle.fx25_blocks.specs.Tags.{IsTag, bits_of_64};
ghost use Rattle.fx25_blocks.specs.declared.block_reader.BlockReader.{BlockReader};
ghost use Rattle.hdlc_framer.specs.BitOrder.{octet_bits};
ghost use Rattle.hdlc_framer.specs.Frames.{EndsFrame};
ghost use Rattle.fx25_receiver.specs.Ahead.{NoBlockEnds};
ghost use Rattle.fx25_receiver.specs.Known.{KnowsNumbers};
ghost use Rattle.fx25_receiver.specs.Resting.{IsLast64, RestsAt};

use fx25_blocks::{BlockFrame, BlockReader, Certainties, near_tag, shifted};

/// For so many bits after a tag the reader stays awake: the longest block has 2040, and holds a channel for 64 more.
const AWAKE: u16 = 2105;

/// The flag as an octet.
const FLAG: u64 = 0x7E;

/// Two flags in a row.
const TWO_FLAGS: u64 = 0x7E7E;

/// The bits of a tag.
const TAG_BITS: u16 = 64;

/// The reader that rests, the last 64 bits, and for how many more it is awake. It begins awake, until 64 bits have come.
#[derive(Drop)]
pub struct RestingReader {
    reader: BlockReader,
    register: u64,
    awake: u16,
}

impl RestingReader {
    ghost use Rattle.fx25_receiver.specs.Resting.{StandsFor, StandsButForTag};

    /// A reader that has taken no bit.
    pub(crate) fn new() -> RestingReader
        ensures stands_for { StandsFor result [] }
        ensures register { result.register ≡ 0 }
        ensures taken { result.reader.taken ≡ 0 }
    {
        RestingReader {
            reader: BlockReader::new(),
            register: 0,
            awake: TAG_BITS,
        }
    }

    /// Takes the next bit.
    #[inline(always)]
    pub(crate) fn push(&mut self, bit: bool)
        ensures stands_for { (b : List Bool) → StandsFor self.old b → StandsFor self.new (b ++ bit ∷ []) }
        ensures register { bits_of_64 self.new.register ≡ drop 1 (bits_of_64 self.old.register) ++ bit ∷ [] }
        ensures awake { 0 < self.old.awake → self.new.reader.taken ≤ max 64 (self.old.reader.taken + 1) }
        ensures woken { self.old.awake ≡ 0 → 0 < self.new.awake → self.new.reader.taken ≤ 64 }
    {
        self.take(bit);
        if near_tag(self.register) != 0 {
            self.wake();
        }
    }

    /// The last 64 bits after eight more, if it rests and no tag ends with any of these, as is so of most.
    pub(crate) fn quietly_after(&self, octet: u8) -> Option<u64>
        ensures stands_for { (b : List Bool) → StandsFor self.now b → IfSome result (λ last.
            StandsFor (record { reader = self.now.reader; register = last; awake = self.now.awake })
            (b ++ octet_bits octet)) }
        ensures quiet { (b : List Bool) → StandsFor self.now b → IfSome result (λ last. NoBlockEnds 8 b octet) }
    {
        if self.awake > 0 {
            return None;
        }
        far_after(self.register, octet)
    }

    /// Goes on with these last 64 bits.
    pub(crate) fn rest_at(&mut self, register: u64)
        ensures { self.new ≡ record { reader = self.old.reader; register = register; awake = self.old.awake } }
    {
        self.register = register;
    }

    /// The last 64 bits.
    pub(crate) fn register(&self) -> u64
        ensures { result ≡ self.now.register }
    {
        self.register
    }

    /// The last eight bits.
    #[inline(always)]
    pub(crate) fn last_octet(&self) -> u8
        ensures { result ≡ self.now.register / 2 ^ 56 }
    {
        (self.register >> 56) as u8
    }

    /// True if it is awake.
    pub(crate) fn is_awake(&self) -> bool
        ensures { IsTrue result ↔ (0 < self.now.awake) }
    {
        self.awake > 0
    }

    /// Takes the next bit, and does not look for a tag that ends with it.
    fn take(&mut self, bit: bool)
        ensures stands_for { (b : List Bool) → StandsFor self.old b → StandsButForTag self.new (b ++ bit ∷ []) }
        ensures register { bits_of_64 self.new.register ≡ drop 1 (bits_of_64 self.old.register) ++ bit ∷ [] }
        ensures awake { 0 < self.old.awake → self.new.reader.taken ≤ self.old.reader.taken + 1 }
        ensures rests { self.old.awake ≡ 0 → self.new.awake ≡ 0 }
        ensures less { self.old.awake ≤ self.new.awake + 1 }
    {
        self.register = shifted(self.register, bit);
        if self.awake > 0 {
            self.awake -= 1;
            self.reader.push(bit);
        }
    }

    /// Stays awake for the block of a tag that ends with the last bit. This is seldom, so it stays apart from what each
    /// bit costs.
    #[cold]
    fn wake(&mut self)
        ensures stands_for { (b : List Bool) → StandsButForTag self.old b → StandsFor self.new b }
        ensures register { self.new.register ≡ self.old.register }
        ensures awake { 0 < self.old.awake → self.new.reader.taken ≡ self.old.reader.taken }
        ensures woken { self.old.awake ≡ 0 → self.new.reader.taken ≤ 64 }
    {
        if self.awake == 0 {
            self.reader = reader_of(self.register);
        }
        self.awake = AWAKE;
    }

    /// True if a block is coming in with the last bit, or was over at most 64 bits ago.
    pub(crate) fn is_block_coming(&self) -> bool
        ensures { (b : List Bool) → StandsFor self.now b → (IsTrue result ↔ IsBlockComing b) }
    {
        self.awake > 0 && self.reader.is_block_coming()
    }

    /// True only if the last bit ends no block.
    pub(crate) fn is_idle(&self) -> bool
        ensures { (b : List Bool) → (numbers : List ℕ) → StandsFor self.now b → result ≡ true
            → (tag : ℕ) → (frame : List ℕ) → (over : ℕ) → ¬ EndsUnsureBlock b numbers tag frame over }
    {
        self.awake == 0 || self.reader.is_idle()
    }

    /// The frame of the block of a tag that the last bit ends, if it is told how sure the bits are that it took while it was
    /// awake.
    #[cold]
    pub(crate) fn frame(&self, tag: u8, certainties: &Certainties) -> Option<BlockFrame>
        requires { IsTag tag }
        ensures frame { (b : List Bool) → (numbers : List ℕ) → StandsFor self.now b
            → KnowsNumbers self.now certainties.now numbers
            → IfSome result (λ found. EndsUnsureBlock b numbers tag found.octets.items found.over) }
        ensures none { (b : List Bool) → (numbers : List ℕ) → StandsFor self.now b
            → KnowsNumbers self.now certainties.now numbers
            → IfNone result ((frame : List ℕ) → (over : ℕ) → ¬ EndsUnsureBlock b numbers tag frame over) }
    {
        if self.awake == 0 {
            return None;
        }
        self.reader.unsure_frame(tag, certainties)
    }
}

/// The last 64 bits after eight more, or nothing if a tag ends with one of these.
fn far_after(register: u64, octet: u8) -> Option<u64>
    ensures { IfSome result (λ last. (reader : BlockReader) (b : List Bool) → RestsAt register reader b
        → RestsAt last reader (b ++ octet_bits octet) × NoBlockEnds 8 b octet) }
{
    let mut last = register;
    for place in 0..8_u8 {
        last = shifted(last, (octet >> place) & 1 == 1);
        if near_tag(last) != 0 {
            return None;
        }
    }
    Some(last)
}

/// True if a frame can end with one of the eight bits that follow 64.
pub(crate) fn may_end_frame_in(register: u64, octet: u8) -> bool
    ensures { result ≡ false → (b : List Bool) (k : ℕ) (octets : List ℕ) → IsLast64 register b → k < 8
        → ¬ EndsFrame (b ++ take (k + 1) (octet_bits octet)) octets }
{
    let mut last = register;
    for place in 0..8_u8 {
        last = shifted(last, (octet >> place) & 1 == 1);
        if may_end_frame(last) {
            return true;
        }
    }
    false
}

/// True if the last of 64 bits can end a frame: they end with a flag, and no other flag comes right before it. Flags in a
/// row are what a station sends before its frames.
fn may_end_frame(register: u64) -> bool
    ensures { result ≡ false → register / 2 ^ 56 ≡ 126 → register / 2 ^ 48 ≡ 32382 }
{
    register >> 56 == FLAG && register >> 48 != TWO_FLAGS
}

/// A reader that has taken 64 bits.
fn reader_of(register: u64) -> BlockReader
    ensures stands_for { ReaderStandsFor result (bits_of_64 register) }
    ensures taken { result.taken ≤ 64 }
{
    let mut reader = BlockReader::new();
    for place in 0..64_u8 {
        reader.push((register >> place) & 1 == 1);
    }
    reader
}
