//! What a lane hears with one sample of a stretch.

ghost use Rattle.std.specs.Prelude.{◌≡◌, ◌+◌, ◌-◌, ◌<◌, ◌^◌, is_some, OnOk};
ghost use Rattle.hdlc_framer.specs.Held.{flags_asked};
ghost use Rattle.slicer_bank.specs.Stretches.{Stretch, with_sample};
ghost use Rattle.slicer_bank.specs.StretchLanes.{StretchStandsFor, HearsSample};

use crate::stretch_lane::StretchLane;
use frame_merge::Candidate;
use std::alloc::Global;
use tnc_base::{Octets, OutOfMemory};

/// Gives a lane the sample before position `end`, and adds to `found` the frame that ends with it.
pub(crate) fn hear(
    alloc: Global,
    lane: &mut StretchLane,
    end: u64,
    sample: i16,
    found: &mut Vec<Candidate>,
) -> Result<(), OutOfMemory>
    requires { lane.old.slicer.position < 2 ^ 48 }
    ensures stands_for { (s : Stretch) → StretchStandsFor lane.old s
        → StretchStandsFor lane.new (with_sample s sample) }
    ensures found { OnOk result (HearsSample lane.old sample end found.old.items found.new.items) }
    ensures offset { lane.new.offset ≡ lane.old.offset }
    ensures flags { flags_asked lane.new.deframer ≡ flags_asked lane.old.deframer }
    ensures tones { is_some lane.new.tones ≡ is_some lane.old.tones }
    ensures position { lane.new.slicer.position ≡ lane.old.slicer.position + 1 }
{
    if !lane.push(sample) {
        return Ok(());
    }
    let octets = Octets::from_slice(alloc, lane.octets())?;
    found.push(Candidate {
        end,
        offset: lane.offset,
        octets,
    })?;
    Ok(())
}
