//! Tones as a wave whose phase never breaks.
ghost use Rattle.std.specs.Prelude.{◌≡◌, ◌<◌, ◌≤◌, List, [], ◌∷◌, ◌++◌, unsigned_abs};
ghost use Rattle.tone_table.specs.declared.tone.Tone.{Tone};
ghost use Rattle.tone_table.specs.Wave.{pure_window};
ghost use Rattle.afsk_modulator.specs.Level.{sample_at, at_level};
ghost use Rattle.afsk_modulator.specs.Modulation.{Modulation, full, tone_window, wave_of, following, IsBitPhase, IsLevel};

use std::marker::Model;
use tone_table::{Tone, advance, sine, step};

/// The amplitude of the tables of the wave.
pub(crate) const FULL_LEVEL: u16 = 10000;

/// The wave of tones, a window of eight samples for each. It stands for the tones sent so far and is
/// seen as the phase at which the next window begins, in forty-eighths of a cycle, and the level.
#[derive(Debug, Drop)]
pub struct Modulator {
    phase: u8,
    level: u16,
}

impl Model for Modulator {
    ghost use Rattle.std.specs.Prelude.{◌<◌, ◌≤◌};
    ghost use Rattle.afsk_modulator.specs.Modulation.{Modulation};

    ghost Value = { Modulation };

    ghost view = { λ m. record { phase = m.phase; level = m.level } };

    ghost invariant = { λ m. (m.phase < 48) × (m.level ≤ 32767) };
}

impl Modulator {
    /// No tone was sent, the phase is 0, and the level that of the tables.
    pub fn new() -> Modulator
        ensures { result ≡ full }
    {
        Modulator::start(0, FULL_LEVEL)
    }

    /// No tone was sent, and the first one begins at `phase`. `level` is the amplitude of the wave.
    pub fn start(phase: u8, level: u16) -> Modulator
        requires phase { IsBitPhase phase }
        requires level { IsLevel level }
        ensures { result ≡ record { phase = phase; level = level } }
    {
        Modulator { phase, level }
    }

    /// The window of the next tone, which begins at the phase where the window before ended.
    pub fn next(&mut self, tone: Tone) -> [i16; 8]
        ensures window { result ≡ tone_window self.old tone }
        ensures phase { self.new ≡ following self.old (tone ∷ []) }
        ensures stands_for { (start : Modulation) (tones : List Tone) → self.old ≡ following start tones
            → self.new ≡ following start (tones ++ tone ∷ []) }
        ensures wave { (start : Modulation) (tones : List Tone) → self.old ≡ following start tones
            → wave_of start (tones ++ tone ∷ []) ≡ wave_of start tones ++ result }
    {
        let window = window(self.phase, self.level, tone);
        self.phase = advance(self.phase, tone);
        window
    }
}

/// The eight samples of a tone from a phase on, at a level.
fn window(phase: u8, level: u16, tone: Tone) -> [i16; 8]
    requires phase { phase < 48 }
    requires level { level ≤ 32767 }
    ensures { result ≡ at_level level (pure_window phase tone) }
{
    let step = step(tone);
    let mut window = [0; 8];
    for place in 0..8_u8 {
        window[place as usize] = at_level(level, sine((phase + place * step) % 48));
    }
    window
}

/// A sample of the tables at a level, rounded towards zero.
fn at_level(level: u16, sample: i16) -> i16
    requires level { level ≤ 32767 }
    requires sample { unsigned_abs sample ≤ 10000 }
    ensures value { result ≡ sample_at level sample }
    ensures bound { unsigned_abs result ≤ level }
{
    let product = i32::from(level) * i32::from(sample);
    (product / i32::from(FULL_LEVEL)) as i16
}
