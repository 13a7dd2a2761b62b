//! The tones of a bank, place by place.

ghost use Rattle.std.specs.Prelude.{◌≡◌, ℕ, ◌+◌, ◌<◌, ◌^◌};
ghost use Rattle.tone_tracking.specs.declared.correlation.Correlations.{Correlations};
ghost use Rattle.tone_tracking.specs.HeldTracker.{tone_before};
ghost use Rattle.hf_tracking.specs.Correlation.{AreSmall};
ghost use Rattle.hf_tracking.specs.Heard.{tone_at};
ghost use Rattle.hf_tracking.specs.Held.{TrackerStandsFor};

use crate::decision::decide;
use crate::track::Track;
use std::marker::Model;
use tone_table::Tone;
use tone_tracking::Correlations;

/// Decides the window at one place after the other. It keeps a track for each of the eight places of a bit, and the last
/// 32 tones.
#[derive(Drop)]
pub struct HfTracker {
    place: u64,
    tracks: [Track; 8],
    recent: [Tone; 32],
}

impl Model for HfTracker {
    ghost use Rattle.std.specs.List.{All};
    ghost use Rattle.hf_tracking.specs.Held.{HeldTracker};
    ghost use Rattle.hf_tracking.specs.Tracks.{IsBounded};

    ghost Value = { HeldTracker };

    ghost view = { λ s. record { place = s.place; tracks = s.tracks; recent = s.recent } };

    ghost invariant = { λ s. All IsBounded s.tracks };
}

impl HfTracker {
    /// A tracker at place 0.
    pub fn new() -> HfTracker
        ensures stands_for { (windows : ℕ → Correlations) → TrackerStandsFor result windows }
        ensures place { result.place ≡ 0 }
    {
        HfTracker {
            place: 0,
            tracks: [Track::NONE; 8],
            recent: [Tone::Mark; 32],
        }
    }

    /// Decides the window at the next place, by its correlations and those of the windows one and two bits later.
    pub fn decide(&mut self, now: &Correlations, next: &Correlations, later: &Correlations)
        requires now { AreSmall now.now }
        requires next { AreSmall next.now }
        requires later { AreSmall later.now }
        requires room { self.old.place < 2 ^ 48 }
        ensures stands_for { (windows : ℕ → Correlations) → TrackerStandsFor self.old windows → now.now
            ≡ windows self.old.place
            → next.now ≡ windows (self.old.place + 8) → later.now ≡ windows (self.old.place + 16)
            → TrackerStandsFor self.new windows }
        ensures place { self.new.place ≡ self.old.place + 1 }
    {
        let slot = (self.place % 8) as usize;
        let track = self.tracks[slot];
        let tone = decide(&track, now, next, later);
        self.tracks[slot] = track.next(tone, now);
        self.recent[(self.place % 32) as usize] = tone;
        self.place += 1;
    }

    /// The tone so many places before the last one that was decided. Before the first place the line stands at mark.
    pub fn tone_before(&self, back: u8) -> Tone
        requires back { back < 32 }
        requires room { self.now.place < 2 ^ 49 }
        ensures { (windows : ℕ → Correlations) → TrackerStandsFor self.now windows
            → result ≡ tone_before (tone_at windows) self.now.place back }
    {
        self.recent[((self.place + 31 - u64::from(back)) % 32) as usize]
    }
}
