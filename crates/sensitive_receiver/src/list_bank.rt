//! The added lanes that follow the slow clock on one list of tones.

ghost use Rattle.std.specs.Prelude.{◌≡◌, ◌+◌, ◌<◌, ◌≤◌, ◌^◌, ℕ, ℤ, List, length, IfOk, OnOk};
ghost use Rattle.std.specs.List.{All};
ghost use Rattle.tone_table.specs.declared.tone.Tone.{Tone};
ghost use Rattle.sensitive_receiver.specs.Found.{AddsIn, HasRoomFrom};
ghost use Rattle.sensitive_receiver.specs.Hearing.{ReadsLine};
ghost use Rattle.sensitive_receiver.specs.HeldList.{HasRead};
ghost use Rattle.sensitive_receiver.specs.Lanes.{tones};

use crate::decided_place::DecidedPlace;
use crate::hearing::hear_slow;
use crate::lanes::first_slow;
use crate::late_lane::{LateLane, new_lanes};
use frame_merge::Candidate;
use std::alloc::Global;
use std::marker::Model;
use tnc_base::OutOfMemory;
use tone_table::Tone;
use tone_tracking::{BitClock, PlaceTones, Pull, Reach, ToneRing};

/// The last tones of a list, the slow clock that follows them, and the three lanes that read them: `new`, then `feed` for
/// each line of tones. After want of memory no clause says what it gives.
#[derive(Drop)]
pub struct ListBank {
    alloc: Global,
    reach: Reach,
    place: u64,
    ring: ToneRing,
    clock: BitClock,
    lanes: Vec<LateLane>,
}

impl Model for ListBank {
    ghost use Rattle.std.specs.Prelude.{◌≡◌, length};
    ghost use Rattle.tone_tracking.specs.declared.bit_clock.Pull.TheVariants.{Slow};
    ghost use Rattle.sensitive_receiver.specs.HeldList.{HeldList};

    ghost Value = { HeldList };

    ghost view = { λ s. record {
      ring = s.ring;
      clock = s.clock;
      lanes = s.lanes.items;
    } };

    ghost invariant = { λ s. (s.ring.reach ≡ s.reach) × (s.ring.place ≡ s.place)
        × (length s.lanes.items ≡ 3) × (s.clock.0 ≡ Slow) };
}

impl ListBank {
    /// The lanes of a list, which have read nothing.
    pub(crate) fn new(alloc: Global, reach: Reach) -> Result<ListBank, OutOfMemory>
        ensures read { IfOk result (λ bank. (x : List ℤ) → HasRead bank x) }
        ensures reach { IfOk result (λ bank. bank.ring.reach ≡ reach) }
        ensures place { IfOk result (λ bank. bank.ring.place ≡ 0) }
    {
        Ok(ListBank {
            alloc,
            reach,
            place: 0,
            ring: ToneRing::new(reach),
            clock: BitClock::new(Pull::Slow),
            lanes: new_lanes(alloc, 3)?,
        })
    }

    /// Reads a line of tones, which begins at the next place, and gives what the lanes hear there, place by place.
    pub(crate) fn feed(&mut self, line: &[PlaceTones]) -> Result<Vec<Candidate>, OutOfMemory>
        requires room { self.old.ring.place + length line.now < 2 ^ 48 }
        ensures reads { IfOk result (λ found. ReadsLine self.old self.new line.now found.items) }
    {
        // Each list has a loop of its own, since a reach that is known when the program is built makes its loop faster.
        match self.reach {
            Reach::Alone => self.feed_reach(Reach::Alone, line),
            Reach::Near => self.feed_reach(Reach::Near, line),
            Reach::Far => self.feed_reach(Reach::Far, line),
        }
    }

    /// Does what [`ListBank::feed`] does, with the reach handed in.
    #[inline(always)]
    fn feed_reach(
        &mut self,
        reach: Reach,
        line: &[PlaceTones],
    ) -> Result<Vec<Candidate>, OutOfMemory>
        requires reach { reach ≡ self.old.ring.reach }
        requires room { self.old.ring.place + length line.now < 2 ^ 48 }
        ensures reads { IfOk result (λ found. ReadsLine self.old self.new line.now found.items) }
    {
        let mut found = Vec::new(self.alloc);
        for index in 0..line.len() {
            self.take(reach, line[index].of(reach), &mut found)?;
        }
        Ok(found)
    }

    /// Takes the tone of the next place, and has the lanes read it.
    #[inline(always)]
    fn take(
        &mut self,
        reach: Reach,
        tone: Tone,
        found: &mut Vec<Candidate>,
    ) -> Result<(), OutOfMemory>
        requires reach { reach ≡ self.old.ring.reach }
        requires room { self.old.ring.place < 2 ^ 48 }
        ensures read { OnOk result ((x : List ℤ) → tone ≡ tones self.old.ring.reach x self.old.ring.place
            → HasRead self.old x → HasRead self.new x) }
        ensures found { OnOk result ((x : List ℤ) → tone ≡ tones self.old.ring.reach x self.old.ring.place
            → HasRead self.old x
            → AddsIn self.old.ring.reach self.old.ring.place (self.old.ring.place + 1) x
            found.old.items found.new.items) }
        ensures bounds { (low : ℕ) → low ≤ self.old.ring.place + 6
            → OnOk result (All (HasRoomFrom low) found.old.items → All (HasRoomFrom low) found.new.items) }
        ensures place { self.new.ring.place ≡ self.old.ring.place + 1 }
        ensures reach { self.new.ring.reach ≡ self.old.ring.reach }
    {
        self.ring.push(tone);
        let at = DecidedPlace {
            place: self.place,
            reads: self.clock.step(tone),
        };
        self.place += 1;
        hear_slow(
            self.alloc,
            &self.ring,
            &mut self.lanes,
            first_slow(reach),
            &at,
            found,
        )
    }
}
