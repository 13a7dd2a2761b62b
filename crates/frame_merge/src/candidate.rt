//! A frame as one slicer heard it.

ghost use Rattle.std.specs.Prelude.{◌≡◌, IfOk, nat_le};

use std::alloc::Global;
use tnc_base::{Octets, OutOfMemory};

/// A frame that one slicer heard, and where.
#[derive(Drop)]
pub struct Candidate {
    /// The first sample after the last window of the closing flag, counted from 0.
    pub end: u64,
    /// The offset of the slicer, in samples; the lane of a [`Merger`](crate::Merger) that it is put into.
    pub offset: u8,
    /// The octets of the frame, without its frame check sequence.
    pub octets: Octets,
}

impl Candidate {
    ghost use Rattle.frame_merge.specs.Order.{standing};
    ghost use Rattle.frame_merge.specs.Merged.{repeats};

    /// True if this candidate does not stand after `other`: it ends earlier, or at the same sample and at no higher
    /// offset.
    pub(crate) fn is_not_after(&self, other: &Candidate) -> bool
        ensures { result ≡ nat_le (standing self.now) (standing other.now) }
    {
        let (offset, other_offset) = (self.offset, other.offset);
        if self.end == other.end {
            offset <= other_offset
        } else {
            self.end < other.end
        }
    }

    /// True if `earlier` is the same frame heard at most 15 samples before.
    pub(crate) fn repeats(&self, earlier: &Candidate) -> bool
        ensures { result ≡ repeats self.now earlier.now }
    {
        earlier.octets.as_slice() == self.octets.as_slice()
            && self.end.saturating_sub(15) <= earlier.end
    }

    /// The same candidate, with octets of its own.
    pub(crate) fn copy(&self, alloc: Global) -> Result<Candidate, OutOfMemory>
        ensures { IfOk result (λ copy. copy ≡ self.now) }
    {
        Ok(Candidate {
            end: self.end,
            offset: self.offset,
            octets: Octets::from_slice(alloc, self.octets.as_slice())?,
        })
    }
}
