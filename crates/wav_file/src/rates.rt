//! The rates of a file's samples.

ghost use Rattle.std.specs.Prelude.{◌≡◌};

/// The rates, in samples a second, at which a reader takes a file.
#[derive(Clone, Copy, Debug, PartialEq, Eq)]
pub enum Rates {
    /// 9600 alone.
    Narrow,
    /// 9600 or 48,000.
    NarrowOrWide,
}

impl Rates {
    ghost use Rattle.wav_file.specs.Format.{accepts_rate};

    // Is this one of the rates?
    pub fn accept(self, value: u32) -> bool
        ensures { result ≡ accepts_rate self value }
    {
        match self {
            Rates::Narrow => value == 9600,
            Rates::NarrowOrWide => value == 9600 || value == 48_000,
        }
    }
}
