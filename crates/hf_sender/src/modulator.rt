//! Tones as a wave whose phase never breaks.
ghost use Rattle.std.specs.Prelude.{◌≡◌, ◌<◌, ◌≤◌, [], ◌∷◌, ◌++◌, List, unsigned_abs};
ghost use Rattle.tone_table.specs.declared.tone.Tone.{Tone};
ghost use Rattle.afsk_modulator.specs.Level.{sample_at, at_level};
ghost use Rattle.afsk_modulator.specs.Modulation.{Modulation, IsLevel};
ghost use Rattle.hf_sender.specs.Modulation.{hf_start, hf_window, hf_after};
ghost use Rattle.hf_sender.specs.Tones.{phase_step};
ghost use Rattle.hf_sender.specs.Wave.{pure_window};

use std::marker::Model;
use tone_table::{Tone, sine};

/// The amplitude of the tables of the wave.
const FULL_LEVEL: i32 = 10000;

/// The wave of tones, a window of 32 samples for each. It stands for the tones sent so far and is seen as the phase at
/// which the next window begins, in forty-eighths of a cycle, and the level.
#[derive(Debug, Drop)]
pub struct HfModulator {
    phase: u16,
    level: u16,
}

impl Model for HfModulator {
    ghost use Rattle.std.specs.Prelude.{◌<◌, ◌≤◌};
    ghost use Rattle.afsk_modulator.specs.Modulation.{Modulation};

    ghost Value = { Modulation };

    ghost view = { λ m. record { phase = m.phase; level = m.level } };

    ghost invariant = { λ m. (m.phase < 48) × (m.level ≤ 32767) };
}

impl HfModulator {
    /// No tone was sent, and the phase is 0. `level` is the amplitude of the wave.
    pub fn new(level: u16) -> HfModulator
        requires { IsLevel level }
        ensures { result ≡ hf_start level }
    {
        HfModulator { phase: 0, level }
    }

    /// The window of the next tone, which begins at the phase where the window before ended.
    pub fn next(&mut self, tone: Tone) -> [i16; 32]
        ensures window { result ≡ hf_window self.old tone }
        ensures phase { self.new ≡ hf_after self.old (tone ∷ []) }
    {
        let window = window(self.phase, self.level, tone);
        self.phase = (self.phase + 32 * step(tone)) % 48;
        window
    }
}

/// The 32 samples of a tone from a phase on, at a level.
fn window(phase: u16, level: u16, tone: Tone) -> [i16; 32]
    requires phase { phase < 48 }
    requires level { level ≤ 32767 }
    ensures { result ≡ at_level level (pure_window phase tone) }
{
    let step = step(tone);
    let mut window = [0; 32];
    for place in 0..32_u16 {
        window[place as usize] = at_level(level, sine(((phase + place * step) % 48) as u8));
    }
    window
}

/// How far one sample of a tone advances the phase, in forty-eighths of a cycle: 8 for mark and 9 for space.
fn step(tone: Tone) -> u16
    ensures { result ≡ phase_step tone }
{
    match tone {
        Tone::Mark => 8,
        Tone::Space => 9,
    }
}

/// A sample of the tables at a level, rounded towards zero.
fn at_level(level: u16, sample: i16) -> i16
    requires level { level ≤ 32767 }
    requires sample { unsigned_abs sample ≤ 10000 }
    ensures value { result ≡ sample_at level sample }
    ensures bound { unsigned_abs result ≤ level }
{
    let product = i32::from(level) * i32::from(sample);
    (product / FULL_LEVEL) as i16
}
