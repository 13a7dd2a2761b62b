//! The added lane that follows the fast clock.

ghost use Rattle.std.specs.Prelude.{◌≡◌, ◌+◌, ◌<◌, ◌≤◌, ◌^◌, ℕ, ℤ, List, length, IfOk, OnOk};
ghost use Rattle.std.specs.List.{All};
ghost use Rattle.tone_table.specs.declared.tone.Tone.{Tone};
ghost use Rattle.tone_tracking.specs.declared.reach.Reach.TheVariants.{Near};
ghost use Rattle.sensitive_receiver.specs.FastLane.{FastAdds, FastHasRead, FastReadsLine};
ghost use Rattle.sensitive_receiver.specs.Found.{HasRoomFrom};
ghost use Rattle.sensitive_receiver.specs.Lanes.{tones};

use crate::hearing::hear;
use crate::late_lane::LateLane;
use frame_merge::Candidate;
use std::alloc::Global;
use std::marker::Model;
use tnc_base::OutOfMemory;
use tone_table::Tone;
use tone_tracking::{BitClock, PlaceTones, Pull, Reach, ToneRing};

/// The number of the lane.
const LANE: u8 = 22;

/// How many places before the last one it reads.
const DELAY: u8 = 1;

/// The last tones of the near list, the fast clock that follows them, and lane 22, which reads them: `new`, then `feed` for
/// each line of tones. After want of memory no clause says what it gives.
#[derive(Drop)]
pub struct FastBank {
    alloc: Global,
    place: u64,
    ring: ToneRing,
    clock: BitClock,
    lane: LateLane,
}

impl Model for FastBank {
    ghost use Rattle.std.specs.Prelude.{◌≡◌};
    ghost use Rattle.tone_tracking.specs.declared.bit_clock.Pull.TheVariants.{Fast};
    ghost use Rattle.tone_tracking.specs.declared.reach.Reach.TheVariants.{Near};
    ghost use Rattle.sensitive_receiver.specs.FastLane.{HeldFast};

    ghost Value = { HeldFast };

    ghost view = { λ s. record { ring = s.ring; clock = s.clock; lane = s.lane } };

    ghost invariant = { λ s. (s.ring.reach ≡ Near) × (s.ring.place ≡ s.place) × (s.clock.0 ≡ Fast) };
}

impl FastBank {
    /// A lane that has read nothing.
    pub(crate) fn new(alloc: Global) -> FastBank
        ensures read { (x : List ℤ) → FastHasRead result x }
        ensures place { result.ring.place ≡ 0 }
    {
        FastBank {
            alloc,
            place: 0,
            ring: ToneRing::new(Reach::Near),
            clock: BitClock::new(Pull::Fast),
            lane: LateLane::new(),
        }
    }

    /// Reads a line of tones, which begins at the next place, and gives what the lane hears there.
    pub(crate) fn feed(&mut self, line: &[PlaceTones]) -> Result<Vec<Candidate>, OutOfMemory>
        requires room { self.old.ring.place + length line.now < 2 ^ 48 }
        ensures reads { IfOk result (λ found. FastReadsLine self.old self.new line.now found.items) }
    {
        let mut found = Vec::new(self.alloc);
        for index in 0..line.len() {
            self.take(line[index].of(Reach::Near), &mut found)?;
        }
        Ok(found)
    }

    /// Takes the tone of the next place, and has the lane read it if the clock says so.
    #[inline(always)]
    fn take(&mut self, tone: Tone, found: &mut Vec<Candidate>) -> Result<(), OutOfMemory>
        requires room { self.old.ring.place < 2 ^ 48 }
        ensures read { OnOk result ((x : List ℤ) → tone ≡ tones Near x self.old.ring.place
            → FastHasRead self.old x → FastHasRead self.new x) }
        ensures found { OnOk result ((x : List ℤ) → tone ≡ tones Near x self.old.ring.place → FastHasRead self.old x
            → FastAdds self.old.ring.place (self.old.ring.place + 1) x found.old.items found.new.items) }
        ensures bounds { (low : ℕ) → low ≤ self.old.ring.place + 6
            → OnOk result (All (HasRoomFrom low) found.old.items → All (HasRoomFrom low) found.new.items) }
        ensures place { self.new.ring.place ≡ self.old.ring.place + 1 }
    {
        self.ring.push(tone);
        let reads = self.clock.step(tone);
        let place = self.place;
        self.place += 1;
        if !reads {
            return Ok(());
        }
        hear(
            self.alloc,
            &self.ring,
            &mut self.lane,
            LANE,
            DELAY,
            place,
            found,
        )
    }
}
