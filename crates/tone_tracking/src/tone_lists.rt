//! The lists of tones of samples.

ghost use Rattle.std.specs.Prelude.{◌≡◌, ℕ, ℤ, pos, ◌+◌, ◌<◌, ◌≤◌, ◌^◌, ◌↔◌, List, IsTrue, length, slice_index_or};
ghost use Rattle.std.specs.Prelude.{unsigned_abs};
ghost use Rattle.std.specs.List.{All};
ghost use Rattle.tone_tracking.specs.Heard.{heard, places_in};
ghost use Rattle.tone_tracking.specs.HeldLists.{HasTaken};
ghost use Rattle.tone_tracking.specs.HeldTracker.{tone_before};

use crate::correlation::{Correlations, correlate};
use crate::reach::Reach;
use crate::tone_tracker::ToneTracker;
use std::marker::Model;
use tone_table::Tone;

/// Takes samples one by one, and decides the tone at each place in every list as soon as the 24 samples from there on
/// have come. It keeps the last eight samples, the correlations at the last places, and a tracker for each list. It
/// writes each sample twice, so that the last eight always stand in a row and no sample is moved.
#[derive(Debug, Drop)]
pub struct ToneLists {
    count: u64,
    samples: [i32; 16],
    recent: [Correlations; 32],
    alone: ToneTracker,
    near: ToneTracker,
    far: ToneTracker,
}

impl Model for ToneLists {
    ghost use Rattle.std.specs.Prelude.{◌≡◌, ◌≤◌, unsigned_abs};
    ghost use Rattle.tone_tracking.specs.declared.reach.Reach.TheVariants.{Alone, Near, Far};
    ghost use Rattle.tone_tracking.specs.Heard.{places_in};
    ghost use Rattle.std.specs.List.{All};
    ghost use Rattle.tone_tracking.specs.Correlation.{AreWithin};
    ghost use Rattle.tone_tracking.specs.HeldLists.{HeldLists};

    ghost Value = { HeldLists };

    ghost view = { λ s. record {
      count = s.count;
      samples = s.samples;
      recent = s.recent;
      alone = s.alone;
      near = s.near;
      far = s.far;
    } };

    ghost invariant = { λ s. All (λ sample. unsigned_abs sample ≤ 262144) s.samples × All AreWithin s.recent
        × (s.alone.reach ≡ Alone) × (s.near.reach ≡ Near) × (s.far.reach ≡ Far) × (s.alone.place ≡ places_in s.count)
        × (s.near.place ≡ places_in s.count) × (s.far.place ≡ places_in s.count) };
}

impl ToneLists {
    /// Lists that have taken nothing.
    pub fn new() -> ToneLists
        ensures has_taken { (x : List ℤ) → HasTaken result x }
        ensures count { result.count ≡ 0 }
    {
        ToneLists {
            count: 0,
            samples: [0; 16],
            recent: [Correlations::NONE; 32],
            alone: ToneTracker::new(Reach::Alone),
            near: ToneTracker::new(Reach::Near),
            far: ToneTracker::new(Reach::Far),
        }
    }

    /// Takes a sample, and says whether a place was decided.
    pub fn push(&mut self, sample: i32) -> bool
        requires room { self.old.count < 2 ^ 48 }
        requires sample { unsigned_abs sample ≤ 262144 }
        ensures has_taken { (x : List ℤ) → HasTaken self.old x → self.old.count < length x
            → sample ≡ slice_index_or x self.old.count (pos 0) → HasTaken self.new x }
        ensures decided { IsTrue result ↔ (23 ≤ self.old.count) }
        ensures count { self.new.count ≡ self.old.count + 1 }
    {
        let slot = (self.count % 8) as usize;
        self.samples[slot] = sample;
        self.samples[slot + 8] = sample;
        let count = self.count + 1;
        self.count = count;
        if count < 8 {
            return false;
        }
        let later = correlate(eight_from(&self.samples, slot + 1));
        self.recent[((count - 8) % 32) as usize] = later;
        if count < 24 {
            return false;
        }
        let now = self.recent[((count - 24) % 32) as usize];
        let next = self.recent[((count - 16) % 32) as usize];
        self.alone.decide(Reach::Alone, &now, &next, &later);
        self.near.decide(Reach::Near, &now, &next, &later);
        self.far.decide(Reach::Far, &now, &next, &later);
        true
    }

    /// The tone of a list so many places before the last one that was decided.
    pub fn tone_before(&self, reach: Reach, back: u8) -> Tone
        requires back { back < 32 }
        requires room { self.now.count < 2 ^ 49 }
        ensures { (x : List ℤ) → HasTaken self.now x → result
            ≡ tone_before (heard reach x) (places_in self.now.count) back }
    {
        match reach {
            Reach::Alone => self.alone.tone_before(back),
            Reach::Near => self.near.tone_before(back),
            Reach::Far => self.far.tone_before(back),
        }
    }
}

/// Eight samples in a row, from one of them on.
fn eight_from(samples: &[i32; 16], first: usize) -> &[i32; 8]
    requires first { first ≤ 8 }
    requires small { All (λ sample. unsigned_abs sample ≤ 262144) samples.now }
    ensures small { All (λ sample. unsigned_abs sample ≤ 262144) result.now }
    ensures samples { (i : ℕ) → i < 8 → slice_index_or result.now i (pos 0) ≡ slice_index_or samples.now (first + i) (pos 0) }
{
    samples[first..].first_chunk().unwrap()
}
