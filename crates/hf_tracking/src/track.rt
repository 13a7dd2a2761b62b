//! What is expected of both tones.

ghost use Rattle.std.specs.Prelude.{◌≡◌, ◌≤◌, unsigned_abs};
ghost use Rattle.tone_tracking.specs.Correlation.{of_tone};
ghost use Rattle.tone_tracking.specs.Phasors.{IsWithin};
ghost use Rattle.hf_tracking.specs.Correlation.{AreSmall, IsSmall};
ghost use Rattle.hf_tracking.specs.Tracks.{IsBounded, drift_after, expected, moved_on, next_drift, next_track};

use crate::phasors::{cross, moved, renewed, turned};
use tone_table::Tone;
use tone_tracking::{Correlations, Phasor};

/// Each tone as it was heard last, and the frequency that is followed.
#[derive(Clone, Copy)]
pub struct Track {
    /// What is expected of mark.
    pub mark: Phasor,
    /// What is expected of space.
    pub space: Phasor,
    /// How far a bit turns both, in 960ths of a turn: from -80 to 80.
    pub drift: i32,
}

impl Track {
    /// Nothing is expected.
    pub(crate) const NONE: Track = Track {
        mark: Phasor { a: 0, b: 0 },
        space: Phasor { a: 0, b: 0 },
        drift: 0,
    };

    /// What is expected of a tone.
    pub(crate) fn expected(&self, tone: Tone) -> Phasor
        requires { IsBounded self.now }
        ensures expected { result ≡ expected tone self.now }
        ensures bound { IsWithin 800000000 result }
    {
        match tone {
            Tone::Mark => self.mark,
            Tone::Space => self.space,
        }
    }

    /// The track one window on, whatever was heard there.
    pub(crate) fn moved_on(&self) -> Track
        requires { IsBounded self.now }
        ensures moved { result ≡ moved_on self.now }
        ensures bound { IsBounded result }
    {
        Track {
            mark: moved(self.drift, self.mark),
            space: moved(self.drift, self.space),
            drift: self.drift,
        }
    }

    /// The track one window on, by the tone that was decided there.
    pub(crate) fn next(&self, tone: Tone, now: &Correlations) -> Track
        requires track { IsBounded self.now }
        requires now { AreSmall now.now }
        ensures next { result ≡ next_track tone now.now self.now }
        ensures bound { IsBounded result }
    {
        let was = self.expected(tone);
        let heard = heard_as(tone, now);
        let drift = drift_after(self.drift, cross(was, heard));
        let again = renewed(heard, was);
        match tone {
            Tone::Mark => Track {
                mark: turned(Tone::Mark, moved(drift, again)),
                space: turned(Tone::Mark, moved(drift, self.space)),
                drift,
            },
            Tone::Space => Track {
                mark: turned(Tone::Space, moved(drift, self.mark)),
                space: turned(Tone::Space, moved(drift, again)),
                drift,
            },
        }
    }
}

/// A window as a tone.
pub(crate) fn heard_as(tone: Tone, window: &Correlations) -> Phasor
    requires { AreSmall window.now }
    ensures heard { result ≡ of_tone tone window.now }
    ensures bound { IsSmall result }
{
    match tone {
        Tone::Mark => window.mark,
        Tone::Space => window.space,
    }
}

/// The drift goes by one to where a tone was heard, and no further than 80.
fn drift_after(drift: i32, ahead: i64) -> i32
    requires { unsigned_abs drift ≤ 80 }
    ensures drift { result ≡ drift_after drift ahead }
    ensures bound { unsigned_abs result ≤ 80 }
{
    let pulled = if ahead >= 1 {
        drift + 1
    } else if ahead <= -1 {
        drift - 1
    } else {
        drift
    };
    pulled.clamp(-80, 80)
}
