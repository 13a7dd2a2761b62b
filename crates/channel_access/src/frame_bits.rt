//! The bits that stand for a frame between two flags, one by one: the frame itself, or a tag and a block that carry it.
ghost use Rattle.std.specs.Prelude.{◌≡◌, ◌≤◌, nat_le, length};
ghost use Rattle.hdlc_framer.specs.FrameLength.{most_frame_length};
ghost use Rattle.channel_access.specs.Held.{frame_start, next_in_frame, frame_over};
ghost use Rattle.channel_access.specs.StandsFor.{frame_rest};

use crate::block_bits::BlockBits;
use crate::modem::Modem;
use crate::stuffed_bits::StuffedBits;

/// Where a sender stands in a frame.
#[derive(Clone, Copy, Debug)]
pub(crate) enum FrameBits {
    /// The frame comes plainly.
    Stuffed(StuffedBits),
    /// It comes in a block.
    Block(BlockBits),
}

impl FrameBits {
    /// At the first bit of what a modem sends for a frame.
    pub(crate) fn new(modem: Modem, octets: &[u8]) -> FrameBits
        requires { length octets.now ≤ most_frame_length }
        ensures { result ≡ frame_start modem octets.now }
    {
        let block = match modem {
            Modem::Bell202 | Modem::ShortWave => None,
            Modem::Fx25(checks) => BlockBits::new(checks, octets),
        };
        match block {
            Some(block) => FrameBits::Block(block),
            None => FrameBits::Stuffed(StuffedBits::new(octets)),
        }
    }

    /// The next bit and where the sender stands after it. None if no bit is left.
    pub(crate) fn next(self, octets: &[u8]) -> Option<(bool, FrameBits)>
        requires { length octets.now ≤ most_frame_length }
        ensures { result ≡ next_in_frame self octets.now }
    {
        match self {
            FrameBits::Stuffed(bits) => {
                let (bit, after) = bits.next(octets)?;
                Some((bit, FrameBits::Stuffed(after)))
            }
            FrameBits::Block(bits) => {
                let (bit, after) = bits.next()?;
                Some((bit, FrameBits::Block(after)))
            }
        }
    }

    /// Whether at most so many bits are left.
    pub(crate) fn end_within(self, bits: u8, octets: &[u8]) -> bool
        requires { length octets.now ≤ most_frame_length }
        ensures { result ≡ nat_le (length (frame_rest self octets.now)) bits }
    {
        let mut at = self;
        for _ in 0..bits {
            let Some((_, after)) = at.next(octets) else {
                return true;
            };
            at = after;
        }
        at.is_over(octets)
    }

    /// Whether no bit is left.
    pub(crate) fn is_over(self, octets: &[u8]) -> bool
        requires { length octets.now ≤ most_frame_length }
        ensures { result ≡ frame_over self octets.now }
    {
        match self {
            FrameBits::Stuffed(bits) => bits.is_over(octets),
            FrameBits::Block(bits) => bits.is_over(),
        }
    }
}
