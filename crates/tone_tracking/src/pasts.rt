//! What was decided before a window, in each list.

ghost use Rattle.std.specs.Prelude.{◌≡◌, ℕ, ◌+◌};
ghost use Rattle.tone_tracking.specs.declared.correlation.Correlations.{Correlations};
ghost use Rattle.tone_tracking.specs.Correlation.{AreWithin};
ghost use Rattle.tone_tracking.specs.Slots.{ArePastsAt, ArePastsWithin, place_tones};

use crate::correlation::Correlations;
use crate::decision::{decide, pass};
use crate::phasor::Phasor;
use crate::place_tones::PlaceTones;
use crate::reach::Reach;

/// The sums in phase of what was decided before a window, in the lists that reach back.
#[derive(Clone, Copy, PartialEq, Eq, Debug)]
pub struct Pasts {
    pub(crate) near: Phasor,
    pub(crate) far: Phasor,
}

impl Pasts {
    /// Of a first window.
    pub(crate) const NONE: Pasts = Pasts {
        near: Phasor::NONE,
        far: Phasor::NONE,
    };
}

/// Decides a window in all lists, by its correlations and those of the next two, and takes the pasts one window on.
#[inline(always)]
pub(crate) fn decide_place(
    pasts: &mut Pasts,
    now: &Correlations,
    next: &Correlations,
    later: &Correlations,
) -> PlaceTones
    requires pasts { ArePastsWithin pasts.old }
    requires now { AreWithin now.now }
    requires next { AreWithin next.now }
    requires later { AreWithin later.now }
    ensures pasts { (windows : ℕ → Correlations) (place : ℕ) → now.now ≡ windows place → next.now ≡ windows (place + 8)
        → later.now ≡ windows (place + 16) → ArePastsAt pasts.old windows place
        → ArePastsAt pasts.new windows (place + 8) }
    ensures tones { (windows : ℕ → Correlations) (place : ℕ) → now.now ≡ windows place → next.now ≡ windows (place + 8)
        → later.now ≡ windows (place + 16) → ArePastsAt pasts.old windows place → result ≡ place_tones windows place }
    ensures within { ArePastsWithin pasts.new }
{
    let alone = decide(Reach::Alone, Phasor::NONE, now, next, later);
    let near = decide(Reach::Near, pasts.near, now, next, later);
    let far = decide(Reach::Far, pasts.far, now, next, later);
    pasts.near = pass(Reach::Near, near, now, pasts.near);
    pasts.far = pass(Reach::Far, far, now, pasts.far);
    PlaceTones::new(alone, near, far)
}
