//! The last tones of a list.

ghost use Rattle.std.specs.Prelude.{◌≡◌, ℕ, ◌+◌, ◌<◌, ◌^◌};
ghost use Rattle.tone_tracking.specs.declared.correlation.Correlations.{Correlations};
ghost use Rattle.tone_tracking.specs.Heard.{tone_at};
ghost use Rattle.tone_tracking.specs.HeldRing.{StandsFor};
ghost use Rattle.tone_tracking.specs.HeldTracker.{tone_before};

use crate::reach::Reach;
use std::marker::Model;
use tone_table::Tone;

/// The last 32 tones of a list, each where its place is modulo 32: `new`, then `push` for each place.
#[derive(Debug, Drop)]
pub struct ToneRing {
    reach: Reach,
    place: u64,
    recent: [Tone; 32],
}

impl Model for ToneRing {
    ghost use Rattle.tone_tracking.specs.HeldRing.{HeldRing};

    ghost Value = { HeldRing };

    ghost view = { λ s. record { reach = s.reach; place = s.place; recent = s.recent } };
}

impl ToneRing {
    /// A ring before place 0.
    pub fn new(reach: Reach) -> ToneRing
        ensures stands_for { (windows : ℕ → Correlations) → StandsFor result windows }
        ensures reach { result.reach ≡ reach }
        ensures place { result.place ≡ 0 }
    {
        ToneRing {
            reach,
            place: 0,
            recent: [Tone::Mark; 32],
        }
    }

    /// Takes the tone of the next place.
    #[inline(always)]
    pub fn push(&mut self, tone: Tone)
        requires room { self.old.place < 2 ^ 48 }
        ensures stands_for { (windows : ℕ → Correlations) → StandsFor self.old windows
            → tone ≡ tone_at self.old.reach windows self.old.place → StandsFor self.new windows }
        ensures reach { self.new.reach ≡ self.old.reach }
        ensures place { self.new.place ≡ self.old.place + 1 }
    {
        self.recent[(self.place % 32) as usize] = tone;
        self.place += 1;
    }

    /// The tone so many places before the last one. Before the first place the line stands at mark.
    #[inline(always)]
    pub fn tone_before(&self, back: u8) -> Tone
        requires back { back < 32 }
        requires room { self.now.place < 2 ^ 49 }
        ensures { (windows : ℕ → Correlations) → StandsFor self.now windows
            → result ≡ tone_before (tone_at self.now.reach windows) self.now.place back }
    {
        self.recent[((self.place + 31 - u64::from(back)) % 32) as usize]
    }
}
