//! The decision of one window.
//!
//! A window is as loud as a tone as the largest sum in phase can be that has it as that tone: the past, as it was
//! decided, the window's own correlation, and what the windows ahead add with any tones. It is decided as the tone as
//! which it is louder.

ghost use Rattle.std.specs.Prelude.{◌≡◌, [], ◌∷◌, int_le, if◌then◌else◌};
ghost use Rattle.tone_table.specs.declared.tone.Tone.TheVariants.{Mark, Space};
ghost use Rattle.tone_tracking.specs.Correlation.{AreWithin};
ghost use Rattle.tone_tracking.specs.Heard.{ahead, decided, kept, largest, open_of, passed};
ghost use Rattle.tone_tracking.specs.Phasors.{IsWithin};

use crate::correlation::Correlations;
use crate::phasor::Phasor;
use crate::reach::Reach;
use tone_table::Tone;

/// The tone of a window, by the past there, its correlations, and those of the next two windows.
#[inline(always)]
pub(crate) fn decide(
    reach: Reach,
    past: Phasor,
    now: &Correlations,
    next: &Correlations,
    later: &Correlations,
) -> Tone
    requires past { IsWithin 1190000000 past }
    requires now { AreWithin now.now }
    requires next { AreWithin next.now }
    requires later { AreWithin later.now }
    ensures { result ≡ decided past now.now (open_of reach next.now later.now) }
{
    match reach {
        Reach::Alone => decide_alone(past, now),
        Reach::Near => decide_near(past, now, next),
        Reach::Far => decide_far(past, now, next, later),
    }
}

/// With no window open.
#[inline(always)]
fn decide_alone(past: Phasor, now: &Correlations) -> Tone
    requires past { IsWithin 1190000000 past }
    requires now { AreWithin now.now }
    ensures { result ≡ decided past now.now [] }
{
    let mark = past.plus(now.mark).size();
    let space = past.plus(now.space).size();
    louder(mark, space)
}

/// With one window open.
#[inline(always)]
fn decide_near(past: Phasor, now: &Correlations, next: &Correlations) -> Tone
    requires past { IsWithin 1190000000 past }
    requires now { AreWithin now.now }
    requires next { AreWithin next.now }
    ensures { result ≡ decided past now.now (next.now ∷ []) }
{
    let mark = loudest_near(past.plus(now.mark), next);
    let space = loudest_near(past.plus(now.space).turned_back(Tone::Space), next);
    louder(mark, space)
}

/// With two windows open.
#[inline(always)]
fn decide_far(past: Phasor, now: &Correlations, next: &Correlations, later: &Correlations) -> Tone
    requires past { IsWithin 1190000000 past }
    requires now { AreWithin now.now }
    requires next { AreWithin next.now }
    requires later { AreWithin later.now }
    ensures { result ≡ decided past now.now (next.now ∷ later.now ∷ []) }
{
    let mark = loudest_far(past.plus(now.mark), next, later);
    let space = loudest_far(past.plus(now.space).turned_back(Tone::Space), next, later);
    louder(mark, space)
}

/// The largest size of a phasor, as it stands in phase at the next window, with that window as either tone.
#[inline(always)]
fn loudest_near(from: Phasor, next: &Correlations) -> i64
    requires from { IsWithin 1790000000 from }
    requires next { AreWithin next.now }
    ensures { result ≡ largest from (ahead Mark (next.now ∷ [])) }
{
    let mark = from.plus(next.mark).size();
    let space = from.plus(next.space).size();
    mark.max(space)
}

/// The same with the next two windows. A turn changes no size, so what was summed is turned, and not what is added.
#[inline(always)]
fn loudest_far(from: Phasor, next: &Correlations, later: &Correlations) -> i64
    requires from { IsWithin 1490000000 from }
    requires next { AreWithin next.now }
    requires later { AreWithin later.now }
    ensures { result ≡ largest from (ahead Mark (next.now ∷ later.now ∷ [])) }
{
    let mark = loudest_near(from.plus(next.mark), later);
    let space = loudest_near(from.plus(next.space).turned_back(Tone::Space), later);
    mark.max(space)
}

/// The louder tone, and mark of two that are as loud.
fn louder(mark: i64, space: i64) -> Tone
    ensures { result ≡ (if int_le space mark then Mark else Space) }
{
    if space <= mark {
        Tone::Mark
    } else {
        Tone::Space
    }
}

/// The past one window on: what was decided at a window, and what is kept of the past there, as they stand in phase at
/// the next one.
#[inline(always)]
pub(crate) fn pass(reach: Reach, tone: Tone, now: &Correlations, past: Phasor) -> Phasor
    requires past { IsWithin 1190000000 past }
    requires now { AreWithin now.now }
    ensures past { result ≡ passed reach tone now.now past }
    ensures bound { IsWithin 1190000000 result }
{
    if reach == Reach::Alone {
        return Phasor::NONE;
    }
    // Both sums are made before one is chosen: processors often mispredict a jump to the one that is wanted.
    let remains = remains(reach, past);
    let mark = now.mark.plus(remains);
    let space = now.space.plus(remains).turned_back(Tone::Space);
    match tone {
        Tone::Mark => mark,
        Tone::Space => space,
    }
}

/// What is kept of the past.
fn remains(reach: Reach, past: Phasor) -> Phasor
    requires { IsWithin 1190000000 past }
    ensures kept { result ≡ kept reach past }
    ensures bound { IsWithin 892500002 result }
{
    match reach {
        Reach::Alone | Reach::Near => Phasor::NONE,
        Reach::Far => past.three_quarters(),
    }
}
