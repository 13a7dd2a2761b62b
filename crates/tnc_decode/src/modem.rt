//! Which decoder hears an input.
ghost use Rattle.std.specs.Prelude.{◌≡◌};
ghost use Rattle.tnc_decode.specs.Modem.{plain_at, sensitive_at};

use tnc_words::SampleRate;

/// How samples are heard.
#[derive(Clone, Copy, Debug, PartialEq, Eq)]
pub enum Modem {
    /// 1200 bits a second, at 9600 samples a second.
    Plain,
    /// 1200 bits a second, at 48,000 samples a second.
    Wide,
    /// 1200 bits a second, at 9600 samples a second, by all lanes.
    Sensitive,
    /// 1200 bits a second, at 48,000 samples a second, by all lanes.
    WideSensitive,
    /// 300 bits a second on short wave, at 9600 samples a second.
    ShortWave,
    /// 300 bits a second on short wave, at 9600 samples a second, by all lanes.
    SensitiveShortWave,
    /// 1200 bits a second, at 9600 samples a second, frames that come plainly and in blocks of FX.25.
    Fx25,
    /// The same by all lanes.
    SensitiveFx25,
}

impl Modem {
    /// The modem of samples at a rate.
    pub(crate) fn plain_at(rate: SampleRate) -> Modem
        ensures { result ≡ plain_at rate }
    {
        match rate {
            SampleRate::Narrow => Modem::Plain,
            SampleRate::Wide => Modem::Wide,
        }
    }

    /// The modem of samples at a rate that all lanes hear.
    pub(crate) fn sensitive_at(rate: SampleRate) -> Modem
        ensures { result ≡ sensitive_at rate }
    {
        match rate {
            SampleRate::Narrow => Modem::Sensitive,
            SampleRate::Wide => Modem::WideSensitive,
        }
    }
}
