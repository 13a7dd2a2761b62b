//! The decision of one window.
//!
//! A window, and the two after it, can have eight rows of tones. Each row has a gain: how well its three windows fit what
//! was expected of their tones, turned as the tones before them turn it. The window is decided as the first tone of the
//! row that fits best.

ghost use Rattle.std.specs.Prelude.{◌≡◌, ◌≤◌, int_le, if◌then◌else◌, unsigned_abs};
ghost use Rattle.tone_table.specs.declared.tone.Tone.TheVariants.{Mark, Space};
ghost use Rattle.hf_tracking.specs.Correlation.{AreSmall};
ghost use Rattle.hf_tracking.specs.Heard.{decided, last_gain, next_gain, total_gain};
ghost use Rattle.hf_tracking.specs.Tracks.{IsBounded, moved_on};

use crate::phasors::{gain, turned};
use crate::track::{Track, heard_as};
use tone_table::Tone;
use tone_tracking::Correlations;

/// The tone of a window, by the track there, its correlations, and those of the next two windows.
pub(crate) fn decide(
    track: &Track,
    now: &Correlations,
    next: &Correlations,
    later: &Correlations,
) -> Tone
    requires track { IsBounded track.now }
    requires now { AreSmall now.now }
    requires next { AreSmall next.now }
    requires later { AreSmall later.now }
    ensures { result ≡ decided track.now now.now next.now later.now }
{
    let mark = total_gain(track, now, next, later, Tone::Mark);
    let space = total_gain(track, now, next, later, Tone::Space);
    better(mark, space)
}

/// The tone with the better gain, and mark of two that are as good.
fn better(mark: i64, space: i64) -> Tone
    ensures { result ≡ (if int_le space mark then Mark else Space) }
{
    if space <= mark {
        Tone::Mark
    } else {
        Tone::Space
    }
}

/// The gain of the best row that begins with a tone.
fn total_gain(
    track: &Track,
    now: &Correlations,
    next: &Correlations,
    later: &Correlations,
    tone: Tone,
) -> i64
    requires track { IsBounded track.now }
    requires now { AreSmall now.now }
    requires next { AreSmall next.now }
    requires later { AreSmall later.now }
    ensures { result ≡ total_gain track.now now.now next.now later.now tone }
{
    let after = track.moved_on();
    let mark = next_gain(tone, &after, next, later, Tone::Mark);
    let space = next_gain(tone, &after, next, later, Tone::Space);
    gain(track.expected(tone), heard_as(tone, now)) + mark.max(space)
}

/// The gain of the best row of the next two windows that begins with a tone, after a window of another.
fn next_gain(
    first: Tone,
    track: &Track,
    next: &Correlations,
    later: &Correlations,
    tone: Tone,
) -> i64
    requires track { IsBounded track.now }
    requires next { AreSmall next.now }
    requires later { AreSmall later.now }
    ensures gain { result ≡ next_gain first track.now next.now later.now tone }
    ensures bound { unsigned_abs result ≤ 5260000000000000000 }
{
    let after = track.moved_on();
    let mark = last_gain(first, tone, &after, later, Tone::Mark);
    let space = last_gain(first, tone, &after, later, Tone::Space);
    gain(turned(first, track.expected(tone)), heard_as(tone, next)) + mark.max(space)
}

/// The gain of a window as a tone after windows of two others.
fn last_gain(first: Tone, second: Tone, track: &Track, later: &Correlations, tone: Tone) -> i64
    requires track { IsBounded track.now }
    requires later { AreSmall later.now }
    ensures gain { result ≡ last_gain first second track.now later.now tone }
    ensures bound { unsigned_abs result ≤ 2630000000000000000 }
{
    gain(
        turned(second, turned(first, track.expected(tone))),
        heard_as(tone, later),
    )
}
