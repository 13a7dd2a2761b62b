//! The two tones, and how far each moves the phase.

ghost use Rattle.std.specs.Prelude.{◌≡◌};
ghost use Rattle.tone_table.specs.Tones.{phase_step};

/// One of the two tones of Bell 202.
#[derive(Clone, Copy, PartialEq, Eq, Debug)]
pub enum Tone {
    /// 1200 Hz.
    Mark,
    /// 2200 Hz.
    Space,
}

/// How far one sample of a tone advances the phase, in forty-eighths of a cycle: 6 for mark and 11
/// for space.
pub fn step(tone: Tone) -> u8
    ensures { result ≡ phase_step tone }
{
    match tone {
        Tone::Mark => 6,
        Tone::Space => 11,
    }
}
