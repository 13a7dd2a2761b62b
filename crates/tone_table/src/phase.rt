//! Phases of a wave, and the sample at each.

ghost use Rattle.std.specs.Prelude.{◌≡◌, ◌<◌, ◌≤◌, unsigned_abs};
ghost use Rattle.tone_table.specs.Tones.{next_phase};
ghost use Rattle.tone_table.specs.Sine.{wave_sample};

use crate::tone::{Tone, step};

/// One cycle of a sine of amplitude 10000 in 48 steps.
static CYCLE: [i16; 48] = [
    0, 1305, 2588, 3827, 5000, 6088, 7071, 7934, 8660, 9239, 9659, 9914, 10000, 9914, 9659, 9239,
    8660, 7934, 7071, 6088, 5000, 3827, 2588, 1305, 0, -1305, -2588, -3827, -5000, -6088, -7071,
    -7934, -8660, -9239, -9659, -9914, -10000, -9914, -9659, -9239, -8660, -7934, -7071, -6088,
    -5000, -3827, -2588, -1305,
];

/// The sample at a phase, counted in forty-eighths of a cycle.
pub fn sine(phase: u8) -> i16
    requires { phase < 48 }
    ensures sample { result ≡ wave_sample phase }
    ensures bound { unsigned_abs result ≤ 10000 }
{
    CYCLE[phase as usize]
}

/// The phase at which the window after a window of eight samples of a tone begins.
pub fn advance(phase: u8, tone: Tone) -> u8
    requires { phase < 48 }
    ensures phase { result ≡ next_phase phase tone }
    ensures bound { result < 48 }
{
    (phase + 8 * step(tone)) % 48
}
