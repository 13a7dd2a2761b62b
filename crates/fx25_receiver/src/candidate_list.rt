//! What was heard, without tags and without where blocks' frames would have ended plainly.
ghost use Rattle.std.specs.Prelude.{◌≡◌, map, IfOk};
ghost use Rattle.fx25_receiver.specs.WithoutBlocks.{candidate_of};

use crate::heard::Heard;
use frame_merge::Candidate;
use std::alloc::Global;
use tnc_base::{Octets, OutOfMemory};

/// The items as candidates, in their order: a candidate has the end, the lane and the octets of its item.
pub fn candidates(alloc: Global, heard: &[Heard]) -> Result<Vec<Candidate>, OutOfMemory>
    ensures { IfOk result (λ items. items.items ≡ map candidate_of heard.now) }
{
    let mut items = Vec::new(alloc);
    for item in heard {
        items.push(candidate(alloc, item)?)?;
    }
    Ok(items)
}

/// An item as a candidate.
fn candidate(alloc: Global, item: &Heard) -> Result<Candidate, OutOfMemory>
    ensures { IfOk result (λ candidate. candidate ≡ candidate_of item.now) }
{
    Ok(Candidate {
        end: item.end,
        offset: item.lane,
        octets: Octets::from_slice(alloc, item.octets.as_slice())?,
    })
}
