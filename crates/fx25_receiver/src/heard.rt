//! What a lane heard.
ghost use Rattle.std.specs.Prelude.{◌≡◌, IfOk};

use std::alloc::Global;
use tnc_base::{Octets, OutOfMemory};

/// How many samples apart two lanes can hear the end of one frame.
const CLOSE: u64 = 15;

/// How many samples a frame is kept to be compared with those to come.
pub(crate) const REACH: u64 = 20_000;

/// A frame that a lane heard, plainly or in a block.
#[derive(Drop)]
pub struct Heard {
    /// The first sample after the bit with which the frame or its block ended.
    pub end: u64,
    /// The lane, which is the offset of its windows.
    pub lane: u8,
    /// The number of the block's tag, from 1 to 11, or 0 if the frame came plainly.
    pub tag: u8,
    /// The octets of the frame, without its check sequence.
    pub octets: Octets,
    /// The end of the frame if it came plainly, and where it would have ended if it came in a block.
    pub at: u64,
}

impl Heard {
    ghost use Rattle.fx25_receiver.specs.Merged.{repeats};

    /// True if `earlier` is the same frame: it has the same octets, would have ended at most 15 samples away, and ended
    /// at most 20,000 lower.
    pub(crate) fn repeats(&self, earlier: &Heard) -> bool
        ensures { result ≡ repeats self.now earlier.now }
    {
        earlier.octets.as_slice() == self.octets.as_slice()
            && self.at.saturating_sub(CLOSE) <= earlier.at
            && earlier.at.saturating_sub(CLOSE) <= self.at
            && self.end.saturating_sub(REACH) <= earlier.end
    }

    /// The same, with octets of its own.
    pub(crate) fn copy(&self, alloc: Global) -> Result<Heard, OutOfMemory>
        ensures { IfOk result (λ copy. copy ≡ self.now) }
    {
        Ok(Heard {
            end: self.end,
            lane: self.lane,
            tag: self.tag,
            octets: Octets::from_slice(alloc, self.octets.as_slice())?,
            at: self.at,
        })
    }
}
