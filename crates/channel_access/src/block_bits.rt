//! A tag and a block bit by bit, as they are sent (FX.25).
ghost use Rattle.std.specs.Prelude.{◌≡◌, ℕ, ◌+◌, ◌<◌, ◌≤◌, ◌%◌, ◌-◌, ◌++◌, Bool, List, false, length, set, option_map, replicate, slice_index_or, take, drop};
ghost use Rattle.hdlc_framer.specs.Stuffing.{flag};
ghost use Rattle.hdlc_framer.specs.FrameLength.{most_frame_length};
ghost use Rattle.fx25_blocks.specs.Blocks.{bits_needed, padded};
ghost use Rattle.fx25_blocks.specs.Tags.{IsTag};
ghost use Rattle.fx25_blocks.specs.Units.{IsTagFor};
ghost use Rattle.fx25_sender.specs.Units.{last_tag};
ghost use Rattle.channel_access.specs.DataLine.{HasPut};
ghost use Rattle.channel_access.specs.Modem.{count_of};
ghost use Rattle.channel_access.specs.Held.{block_over, block_start, next_in_block, tag_octets};

use crate::modem::CheckOctets;
use crate::stuffed_bits::StuffedBits;
use fx25_blocks::{block_of, data_count, tag_for, tag_value};

/// The octets of a tag.
const TAG_OCTETS: u16 = 8;

/// The octets of the longest block and its tag.
const MOST_OCTETS: usize = 263;

/// The data bits of the longest block.
const MOST_DATA_BITS: usize = 1912;

/// The bits of a flag.
const FLAG_BITS: usize = 8;

/// More bits than any frame has: twice those of the longest one with its check sequence.
const MOST_FRAME_BITS: usize = 16_416;

/// Where a sender stands in a tag and a block.
#[derive(Clone, Copy, Debug)]
pub(crate) struct BlockBits {
    /// The octets of the tag and of the block, and zeros.
    octets: [u8; MOST_OCTETS],
    /// How many octets the block has. Those of the tag are eight.
    length: u8,
    /// The place of the next bit.
    place: u16,
}

impl BlockBits {
    /// At the first bit of the tag that a frame has with so many check octets. None if it fits into no block with as many.
    pub(crate) fn new(checks: CheckOctets, octets: &[u8]) -> Option<BlockBits>
        requires { length octets.now ≤ most_frame_length }
        ensures { result ≡ option_map (λ tag. block_start tag octets.now)
            (last_tag (count_of checks) (bits_needed octets.now) 11) }
    {
        let tag = tag_for(checks.count(), bits_needed(octets))?;
        Some(BlockBits::of(tag, octets))
    }

    /// At the first bit of a tag, before the block of a frame that fits into it.
    fn of(tag: u8, octets: &[u8]) -> BlockBits
        requires tag { (checks : ℕ) × IsTagFor checks (bits_needed octets.now) tag }
        requires length { length octets.now ≤ most_frame_length }
        ensures { result ≡ block_start tag octets.now }
    {
        let line = data_line(octets);
        let block = block_of(tag, &line[..8 * data_count(tag)]);
        BlockBits {
            octets: tagged_octets(tag, block.as_slice()),
            length: block.len() as u8,
            place: 0,
        }
    }

    /// The next bit and where the sender stands after it. None if no bit is left.
    pub(crate) fn next(self) -> Option<(bool, BlockBits)>
        ensures { result ≡ next_in_block self }
    {
        if self.is_over() {
            return None;
        }
        let octet = self.octets[usize::from(self.place / 8)];
        let bit = (octet >> (self.place % 8)) & 1 == 1;
        Some((
            bit,
            BlockBits {
                place: self.place + 1,
                ..self
            },
        ))
    }

    /// Whether no bit is left.
    pub(crate) fn is_over(self) -> bool
        ensures { result ≡ block_over self }
    {
        self.place >= 8 * (TAG_OCTETS + u16::from(self.length))
    }
}

/// The octets of a tag and of a block, and zeros.
fn tagged_octets(tag: u8, block: &[u8]) -> [u8; MOST_OCTETS]
    requires tag { IsTag tag }
    requires length { length block.now ≤ 255 }
    ensures { result ≡ (tag_octets tag ++ block.now) ++ replicate (263 - length (tag_octets tag ++ block.now)) 0 }
{
    let mut octets = [0; MOST_OCTETS];
    put(&mut octets, 0, tag_value(tag).to_le_bytes().as_slice());
    put(&mut octets, 8, block);
    octets
}

/// Puts octets from a place on.
fn put(octets: &mut [u8; MOST_OCTETS], start: usize, part: &[u8])
    requires { start + length part.now ≤ 263 }
    ensures { octets.new ≡ take start octets.old ++ (part.now ++ drop (start + length part.now) octets.old) }
{
    octets[start..start + part.len()].copy_from_slice(part);
}

/// How many bits a frame and a flag on each side of it are.
fn bits_needed(octets: &[u8]) -> usize
    requires { length octets.now ≤ most_frame_length }
    ensures { result ≡ bits_needed octets.now }
{
    let mut at = StuffedBits::new(octets);
    for count in 0..MOST_FRAME_BITS {
        let Some((_, after)) = at.next(octets) else {
            return count + 2 * FLAG_BITS;
        };
        at = after;
    }
    MOST_FRAME_BITS + 2 * FLAG_BITS
}

/// The first bits of a flag, a frame and flags: as many as the data of the longest block.
fn data_line(octets: &[u8]) -> [bool; MOST_DATA_BITS]
    requires { length octets.now ≤ most_frame_length }
    ensures { result ≡ take 1912 (padded octets.now 239) }
{
    let mut line = [false; MOST_DATA_BITS];
    let mut bits = LineBits {
        frame: StuffedBits::new(octets),
        flags: 0,
    };
    for place in 0..MOST_DATA_BITS {
        line[place] = bits.next(place, octets);
    }
    line
}

/// Where a writer stands in the data of a block.
#[derive(Drop)]
struct LineBits {
    /// In the frame.
    frame: StuffedBits,
    /// How many bits of the flags after it were put.
    flags: usize,
}

impl LineBits {
    /// The bit at a place, after all before it.
    fn next(&mut self, place: usize, octets: &[u8]) -> bool
        requires length { length octets.now ≤ most_frame_length }
        requires place { place < 1912 }
        requires flags { self.old.flags ≤ place }
        ensures put { (line : List Bool) → place < length line
            → HasPut octets.now line place self.old.frame self.old.flags
            → HasPut octets.now (set line place result) (place + 1) self.new.frame self.new.flags }
        ensures flags { self.new.flags ≤ place + 1 }
    {
        if place < FLAG_BITS {
            return is_one_in_flag(place);
        }
        if let Some((bit, after)) = self.frame.next(octets) {
            self.frame = after;
            return bit;
        }
        let bit = is_one_in_flag(self.flags);
        self.flags += 1;
        bit
    }
}

/// Whether the bit at a place of flags is a 1: the first and the last of each eight are 0.
fn is_one_in_flag(place: usize) -> bool
    ensures { result ≡ slice_index_or flag (place % 8) false }
{
    let place = place % FLAG_BITS;
    0 < place && place < FLAG_BITS - 1
}
