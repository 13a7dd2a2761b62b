//! A list of tones decided in phase, place by place.

ghost use Rattle.std.specs.Prelude.{◌≡◌, ℕ, ◌+◌, ◌<◌, ◌^◌};
ghost use Rattle.tone_tracking.specs.declared.correlation.Correlations.{Correlations};
ghost use Rattle.tone_tracking.specs.Correlation.{AreWithin};
ghost use Rattle.tone_tracking.specs.Heard.{tone_at};
ghost use Rattle.tone_tracking.specs.HeldTracker.{StandsFor, tone_before};

use crate::correlation::Correlations;
use crate::decision::{decide, pass};
use crate::phasor::Phasor;
use crate::reach::Reach;
use std::marker::Model;
use tone_table::Tone;

/// Decides the window at one place after the other. It keeps a sum in phase of what was decided for each of the eight
/// places of a bit, and the last 32 tones.
#[derive(Debug, Drop)]
pub struct ToneTracker {
    reach: Reach,
    place: u64,
    pasts: [Phasor; 8],
    recent: [Tone; 32],
}

impl Model for ToneTracker {
    ghost use Rattle.std.specs.List.{All};
    ghost use Rattle.tone_tracking.specs.HeldTracker.{HeldTracker};
    ghost use Rattle.tone_tracking.specs.Phasors.{IsWithin};

    ghost Value = { HeldTracker };

    ghost view = { λ s. record { reach = s.reach; place = s.place; pasts = s.pasts; recent = s.recent } };

    ghost invariant = { λ s. All (IsWithin 1190000000) s.pasts };
}

impl ToneTracker {
    /// A tracker at place 0.
    pub fn new(reach: Reach) -> ToneTracker
        ensures stands_for { (windows : ℕ → Correlations) → StandsFor result windows }
        ensures reach { result.reach ≡ reach }
        ensures place { result.place ≡ 0 }
    {
        ToneTracker {
            reach,
            place: 0,
            pasts: [Phasor::NONE; 8],
            recent: [Tone::Mark; 32],
        }
    }

    /// Decides the window at the next place, by its correlations and those of the windows eight and sixteen samples
    /// later. The reach is the tracker's own: one that is known when the program is built makes the decision about a
    /// quarter faster.
    #[inline(always)]
    pub fn decide(
        &mut self,
        reach: Reach,
        now: &Correlations,
        next: &Correlations,
        later: &Correlations,
    ) -> Tone
        requires reach { reach ≡ self.old.reach }
        requires now { AreWithin now.now }
        requires next { AreWithin next.now }
        requires later { AreWithin later.now }
        requires room { self.old.place < 2 ^ 48 }
        ensures stands_for { (windows : ℕ → Correlations) → StandsFor self.old windows → now.now
            ≡ windows self.old.place
            → next.now ≡ windows (self.old.place + 8) → later.now ≡ windows (self.old.place + 16)
            → StandsFor self.new windows }
        ensures tone { (windows : ℕ → Correlations) → StandsFor self.old windows → now.now ≡ windows self.old.place
            → next.now ≡ windows (self.old.place + 8) → later.now ≡ windows (self.old.place + 16)
            → result ≡ tone_at self.old.reach windows self.old.place }
        ensures reach { self.new.reach ≡ self.old.reach }
        ensures place { self.new.place ≡ self.old.place + 1 }
    {
        let slot = (self.place % 8) as usize;
        let past = self.pasts[slot];
        let tone = decide(reach, past, now, next, later);
        self.pasts[slot] = pass(reach, tone, now, past);
        self.recent[(self.place % 32) as usize] = tone;
        self.place += 1;
        tone
    }

    /// The tone so many places before the last one that was decided. Before the first place the line stands at mark.
    pub fn tone_before(&self, back: u8) -> Tone
        requires back { back < 32 }
        requires room { self.now.place < 2 ^ 49 }
        ensures { (windows : ℕ → Correlations) → StandsFor self.now windows
            → result ≡ tone_before (tone_at self.now.reach windows) self.now.place back }
    {
        self.recent[((self.place + 31 - u64::from(back)) % 32) as usize]
    }
}
