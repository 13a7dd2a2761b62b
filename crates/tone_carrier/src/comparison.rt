//! Whether a window runs on from the one before it.
//!
//! The two sums of a window's tone are the sides of a right triangle: its hypotenuse is the tone's amplitude, and its
//! angle the place in the cycle at which the window begins. Both sides of two windows, multiplied and added, give the
//! product of their amplitudes and the cosine of the angle between them. That angle is known where the phase runs on:
//! after a window of mark it is none, after one of space a sixth of a turn. So the window is turned back by it first. A
//! product that is large beside the power of both windows can only come from tones, and tones that run on.

ghost use Rattle.std.specs.Prelude.{◌≡◌, ◌≤◌, ◌^◌, ◌*ℤ◌, unsigned_abs};
ghost use Rattle.tone_carrier.specs.HeardWindows.{IsWithin};
ghost use Rattle.tone_carrier.specs.RunsOn.{ahead, runs_on};

use crate::heard_window::HeardWindow;
use tone_table::Tone;

/// Whether a window runs on from the one before it.
pub(crate) fn runs_on(before: &HeardWindow, window: &HeardWindow) -> bool
    requires before { IsWithin before.now }
    requires window { IsWithin window.now }
    ensures { result ≡ runs_on before.now window.now }
{
    ahead(before, window) > 170 * (before.power + window.power)
}

/// The product of two windows, the second turned to where it ought to stand after the first one's tone.
fn ahead(before: &HeardWindow, window: &HeardWindow) -> i64
    requires before { IsWithin before.now }
    requires window { IsWithin window.now }
    ensures ahead { result ≡ ahead before.now window.now }
    ensures bound { unsigned_abs result ≤ 2 ^ 52 }
{
    let in_phase = product(before.sine, window.sine) + product(before.cosine, window.cosine);
    match before.tone {
        Tone::Mark => 8 * in_phase,
        Tone::Space => {
            let across = product(before.cosine, window.sine) - product(before.sine, window.cosine);
            4 * in_phase + 7 * across
        }
    }
}

/// The product of two sides.
fn product(side: i64, other: i64) -> i64
    requires side { unsigned_abs side ≤ 10240000 }
    requires other { unsigned_abs other ≤ 10240000 }
    ensures value { result ≡ side *ℤ other }
    ensures bound { unsigned_abs result ≤ 104857600000000 }
{
    side * other
}
