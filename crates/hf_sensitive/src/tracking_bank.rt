//! One bank: its tones, the clocks that follow them, and the three lanes that read them.

ghost use Rattle.std.specs.Prelude.{◌≡◌, ◌+◌, ◌<◌, ◌≤◌, ◌^◌, ℕ, ℤ, pos, List, [], ◌++◌, length, OnOk, slice_index_or};
ghost use Rattle.std.specs.List.{All};
ghost use Rattle.hf_tracking.specs.Heard.{places_in};
ghost use Rattle.hf_sensitive.specs.Found.{AddsAmong, CanBePutFrom, least_end};
ghost use Rattle.hf_sensitive.specs.HeldBanks.{HasTaken, StandsFor};
ghost use Rattle.hf_sensitive.specs.Lanes.{first_lane};

use crate::added_frame::{FIRST, Reading, hear};
use frame_merge::Candidate;
use hf_tracking::HfTones;
use slicer_bank::ToneLane;
use std::alloc::Global;
use std::marker::Model;
use tnc_base::OutOfMemory;
use tone_tracking::{BitClock, Pull};

/// Takes samples, and gives what the lanes of one bank hear. After want of memory no clause says what it gives.
#[derive(Drop)]
pub struct TrackingBank {
    alloc: Global,
    number: u8,
    tones: HfTones,
    slow_clock: BitClock,
    fast_clock: BitClock,
    fixed: ToneLane,
    slow: ToneLane,
    fast: ToneLane,
}

impl Model for TrackingBank {
    ghost use Rattle.std.specs.Prelude.{◌≡◌, ◌<◌};
    ghost use Rattle.tone_tracking.specs.declared.bit_clock.Pull.TheVariants.{Slow, Fast};
    ghost use Rattle.hf_sensitive.specs.HeldBanks.{HeldBank};

    ghost Value = { HeldBank };

    ghost view = { λ s. record {
      tones = s.tones;
      slow_clock = s.slow_clock;
      fast_clock = s.fast_clock;
      fixed = s.fixed;
      slow = s.slow;
      fast = s.fast;
    } };

    ghost invariant = { λ s. (s.number < 9) × (s.tones.bank ≡ s.number) × (s.slow_clock.0 ≡ Slow)
        × (s.fast_clock.0 ≡ Fast) };
}

impl TrackingBank {
    /// The bank of a number, which has taken nothing.
    pub(crate) fn new(alloc: Global, number: u8) -> TrackingBank
        requires { number < 9 }
        ensures stands_for { StandsFor result [] }
        ensures number { result.tones.bank ≡ number }
        ensures count { result.tones.count ≡ 0 }
    {
        TrackingBank {
            alloc,
            number,
            tones: HfTones::new(number),
            slow_clock: BitClock::new(Pull::Slow),
            fast_clock: BitClock::new(Pull::Fast),
            fixed: ToneLane::new(),
            slow: ToneLane::new(),
            fast: ToneLane::new(),
        }
    }

    /// Takes a block of samples, and adds to `found` the candidates of the places that it decides.
    pub(crate) fn feed(
        &mut self,
        block: &[i16],
        found: &mut Vec<Candidate>,
    ) -> Result<(), OutOfMemory>
        requires room { self.old.tones.count + length block.now < 2 ^ 48 }
        ensures stands_for { OnOk result ((x : List ℤ) → StandsFor self.old x → StandsFor self.new (x ++ block.now)) }
        ensures found { OnOk result ((x : List ℤ) → StandsFor self.old x
            → AddsAmong (places_in (length x)) (places_in (length (x ++ block.now)))
            (first_lane self.old.tones.bank) (first_lane self.old.tones.bank + 3) (x ++ block.now)
            found.old.items found.new.items) }
        ensures bounds { OnOk result (All (CanBePutFrom (least_end self.old.tones.count)) found.old.items
            → All (CanBePutFrom (least_end self.old.tones.count)) found.new.items) }
        ensures count { OnOk result (self.new.tones.count ≡ self.old.tones.count + length block.now) }
        ensures number { self.new.tones.bank ≡ self.old.tones.bank }
    {
        for sample in block {
            self.take(*sample, found)?;
        }
        Ok(())
    }

    /// Takes a sample, and adds to `found` the candidates of the place that it decides.
    fn take(&mut self, sample: i16, found: &mut Vec<Candidate>) -> Result<(), OutOfMemory>
        requires { self.old.tones.count < 2 ^ 48 }
        ensures has_taken { OnOk result ((x : List ℤ) → HasTaken self.old x → self.old.tones.count < length x
            → sample ≡ slice_index_or x self.old.tones.count (pos 0) → HasTaken self.new x) }
        ensures found { OnOk result ((x : List ℤ) → HasTaken self.old x → self.old.tones.count < length x
            → sample ≡ slice_index_or x self.old.tones.count (pos 0)
            → AddsAmong (places_in self.old.tones.count) (places_in (self.old.tones.count + 1))
            (first_lane self.old.tones.bank) (first_lane self.old.tones.bank + 3) x
            found.old.items found.new.items) }
        ensures bounds { (low : ℕ) → low ≤ least_end self.old.tones.count
            → OnOk result (All (CanBePutFrom low) found.old.items → All (CanBePutFrom low) found.new.items) }
        ensures count { self.new.tones.count ≡ self.old.tones.count + 1 }
        ensures number { self.new.tones.bank ≡ self.old.tones.bank }
    {
        let decided = self.tones.push(sample);
        let Some(place) = decided else {
            return Ok(());
        };
        let tone = self.tones.tone_before(0);
        let fixed = Reading {
            lane: FIRST + 3 * self.number,
            place,
            reads: place % 8 == 4,
        };
        let slow = Reading {
            lane: FIRST + 3 * self.number + 1,
            place,
            reads: self.slow_clock.step(tone),
        };
        let fast = Reading {
            lane: FIRST + 3 * self.number + 2,
            place,
            reads: self.fast_clock.step(tone),
        };
        hear(self.alloc, &self.tones, &mut self.fixed, fixed, found)?;
        hear(self.alloc, &self.tones, &mut self.slow, slow, found)?;
        hear(self.alloc, &self.tones, &mut self.fast, fast, found)
    }
}
