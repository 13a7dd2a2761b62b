//! The windows of Bell 202 at one level. A bit begins at one of six phases and is sent as one of two tones, so a
//! transmission has twelve windows, which are made once.
ghost use Rattle.std.specs.Prelude.{◌≡◌, ℕ};
ghost use Rattle.tone_table.specs.declared.tone.Tone.{Tone};
ghost use Rattle.afsk_modulator.specs.Modulation.{IsBitPhase, IsLevel, tone_window};
ghost use Rattle.tnc_encode.specs.Windows.{AreWindows, windows_of};

use afsk_modulator::Modulator;
use tone_table::Tone;

/// The windows of each tone, by the sixth of a cycle at which they begin.
#[derive(Drop)]
pub(crate) struct Windows {
    mark: [[i16; 8]; 6],
    space: [[i16; 8]; 6],
}

impl Windows {
    /// The windows of a level.
    pub(crate) fn at_level(level: u16) -> Windows
        requires { IsLevel level }
        ensures { AreWindows level result }
    {
        Windows {
            mark: windows_of(level, Tone::Mark),
            space: windows_of(level, Tone::Space),
        }
    }

    /// The window of a tone that begins at a phase.
    pub(crate) fn of(&self, phase: u8, tone: Tone) -> &[i16; 8]
        requires { IsBitPhase phase }
        ensures { (level : ℕ) → AreWindows level self.now
            → result.now ≡ tone_window (record { phase = phase; level = level }) tone }
    {
        let sixth = (phase / 8) as usize;
        match tone {
            Tone::Mark => &self.mark[sixth],
            Tone::Space => &self.space[sixth],
        }
    }
}

/// The windows of a tone.
fn windows_of(level: u16, tone: Tone) -> [[i16; 8]; 6]
    requires { IsLevel level }
    ensures { result ≡ windows_of level tone }
{
    [
        window(0, level, tone),
        window(8, level, tone),
        window(16, level, tone),
        window(24, level, tone),
        window(32, level, tone),
        window(40, level, tone),
    ]
}

/// The window of a tone that begins at a phase.
fn window(phase: u8, level: u16, tone: Tone) -> [i16; 8]
    requires phase { IsBitPhase phase }
    requires level { IsLevel level }
    ensures { result ≡ tone_window (record { phase = phase; level = level }) tone }
{
    Modulator::start(phase, level).next(tone)
}
