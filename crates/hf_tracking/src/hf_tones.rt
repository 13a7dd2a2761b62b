//! The tones that a bank decides of samples.

ghost use Rattle.std.specs.Prelude.{◌≡◌, ℕ, ℤ, pos, ◌+◌, ◌<◌, ◌^◌, ◌++◌, ◌∷◌, [], List, IfSome, IsNone, drop, length};
ghost use Rattle.std.specs.Prelude.{slice_index_or};
ghost use Rattle.tone_tracking.specs.HeldTracker.{tone_before};
ghost use Rattle.hf_tracking.specs.Heard.{heard, places_in};
ghost use Rattle.hf_tracking.specs.Held.{HasTaken};

use crate::correlation::correlate;
use crate::hf_tracker::HfTracker;
use std::marker::Model;
use tone_table::Tone;
use tone_tracking::{Correlations, Phasor};

/// The samples of a bit.
const WINDOW: u64 = 32;

/// A window begins at each fourth sample.
const STEP: u64 = 4;

/// Takes samples one by one, and decides the tone at each place as soon as the 96 samples from there on have come. It
/// keeps the last 32 samples, the correlations at the last places, and a tracker.
#[derive(Drop)]
pub struct HfTones {
    bank: u8,
    count: u64,
    samples: [i16; 32],
    recent: [Correlations; 32],
    tracker: HfTracker,
}

impl Model for HfTones {
    ghost use Rattle.std.specs.Prelude.{◌≡◌, ◌<◌};
    ghost use Rattle.std.specs.List.{All};
    ghost use Rattle.hf_tracking.specs.Correlation.{AreSmall};
    ghost use Rattle.hf_tracking.specs.Heard.{places_in};
    ghost use Rattle.hf_tracking.specs.Held.{HeldTones};

    ghost Value = { HeldTones };

    ghost view = { λ s. record {
      bank = s.bank;
      count = s.count;
      samples = s.samples;
      recent = s.recent;
      tracker = s.tracker;
    } };

    ghost invariant = { λ s. (s.bank < 9) × All AreSmall s.recent × (s.tracker.place ≡ places_in s.count) };
}

impl HfTones {
    /// A bank that has taken nothing.
    pub fn new(bank: u8) -> HfTones
        requires { bank < 9 }
        ensures has_taken { (x : List ℤ) → HasTaken result x }
        ensures count { result.count ≡ 0 }
        ensures bank { result.bank ≡ bank }
    {
        let silence = Correlations {
            mark: Phasor { a: 0, b: 0 },
            space: Phasor { a: 0, b: 0 },
        };
        HfTones {
            bank,
            count: 0,
            samples: [0; 32],
            recent: [silence; 32],
            tracker: HfTracker::new(),
        }
    }

    /// Takes a sample, and tells the place that it decides, if it decides one.
    pub fn push(&mut self, sample: i16) -> Option<u64>
        requires room { self.old.count < 2 ^ 48 }
        ensures has_taken { (x : List ℤ) → HasTaken self.old x → self.old.count < length x
            → sample ≡ slice_index_or x self.old.count (pos 0) → HasTaken self.new x }
        ensures decided { IfSome result (λ place. (places_in self.old.count ≡ place)
            × (places_in (self.old.count + 1) ≡ place + 1)) }
        ensures waits { IsNone result → places_in (self.old.count + 1) ≡ places_in self.old.count }
        ensures count { self.new.count ≡ self.old.count + 1 }
        ensures bank { self.new.bank ≡ self.old.bank }
    {
        shift_in(&mut self.samples, sample);
        let count = self.count + 1;
        self.count = count;
        if count < WINDOW || count % STEP != 0 {
            return None;
        }
        let place = (count - WINDOW) / STEP;
        let later = correlate(self.bank, place, &self.samples);
        self.recent[(place % 32) as usize] = later;
        if place < 16 {
            return None;
        }
        let now = self.recent[((place - 16) % 32) as usize];
        let next = self.recent[((place - 8) % 32) as usize];
        self.tracker.decide(&now, &next, &later);
        Some(place - 16)
    }

    /// The tone so many places before the last one that was decided.
    pub fn tone_before(&self, back: u8) -> Tone
        requires back { back < 32 }
        requires room { self.now.count < 2 ^ 49 }
        ensures { (x : List ℤ) → HasTaken self.now x → result
            ≡ tone_before (heard self.now.bank x) (places_in self.now.count) back }
    {
        self.tracker.tone_before(back)
    }
}

/// Takes a sample in place of the first of the last 32.
fn shift_in(samples: &mut [i16; 32], sample: i16)
    ensures { samples.new ≡ drop 1 samples.old ++ sample ∷ [] }
{
    samples.copy_within(1..32, 0);
    samples[31] = sample;
}
