//! The added lanes at fixed offsets.

ghost use Rattle.std.specs.Prelude.{◌≡◌, ◌+◌, ◌<◌, ◌^◌, ℤ, List, [], length, IfOk};
ghost use Rattle.std.specs.List.{All};
ghost use Rattle.slicer_bank.specs.ToneLanes.{ToneLaneStandsFor};
ghost use Rattle.sensitive_receiver.specs.FixedLanes.{FixedHasRead, FixedReadsLine};

use crate::fixed_hearing::hear_lanes;
use frame_merge::Candidate;
use slicer_bank::ToneLane;
use std::alloc::Global;
use std::marker::Model;
use tnc_base::OutOfMemory;
use tone_tracking::PlaceTones;

/// How many lanes there are: one for each offset of a bit.
const LANES: usize = 8;

/// Lanes 8 to 15, each of which reads the far list at the places of one remainder by eight: `new`, then `feed` for each line
/// of tones. They follow no clock, so most of their tones are taken eight at once. After want of memory no clause says what
/// it gives.
#[derive(Drop)]
pub struct FixedBank {
    alloc: Global,
    place: u64,
    lanes: Vec<ToneLane>,
}

impl Model for FixedBank {
    ghost use Rattle.std.specs.Prelude.{◌≡◌, length};
    ghost use Rattle.sensitive_receiver.specs.FixedLanes.{HeldFixed};

    ghost Value = { HeldFixed };

    ghost view = { λ s. record { place = s.place; lanes = s.lanes.items } };

    ghost invariant = { λ s. length s.lanes.items ≡ 8 };
}

impl FixedBank {
    /// Lanes that have read nothing.
    pub(crate) fn new(alloc: Global) -> Result<FixedBank, OutOfMemory>
        ensures read { IfOk result (λ bank. (x : List ℤ) → FixedHasRead bank x) }
        ensures place { IfOk result (λ bank. bank.place ≡ 0) }
    {
        Ok(FixedBank {
            alloc,
            place: 0,
            lanes: new_lanes(alloc)?,
        })
    }

    /// Reads a line of tones, which begins at the next place, and gives what the lanes hear there, lane by lane.
    pub(crate) fn feed(&mut self, line: &[PlaceTones]) -> Result<Vec<Candidate>, OutOfMemory>
        requires room { self.old.place + length line.now < 2 ^ 48 }
        ensures reads { IfOk result (λ found. FixedReadsLine self.old self.new line.now found.items) }
    {
        let mut found = Vec::new(self.alloc);
        hear_lanes(self.alloc, self.place, &mut self.lanes, line, &mut found)?;
        self.place += line.len() as u64;
        Ok(found)
    }
}

/// The lanes, which have taken nothing.
fn new_lanes(alloc: Global) -> Result<Vec<ToneLane>, OutOfMemory>
    ensures count { IfOk result (λ lanes. length lanes.items ≡ 8) }
    ensures fresh { IfOk result (λ lanes. All (λ lane. ToneLaneStandsFor lane []) lanes.items) }
{
    let mut lanes = Vec::new(alloc);
    for _ in 0..LANES {
        lanes.push(ToneLane::new())?;
    }
    Ok(lanes)
}
