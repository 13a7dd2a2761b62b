//! Why a command stops before its end.
ghost use Rattle.std.specs.Prelude.{◌≡◌};
ghost use Rattle.tnc_forms.specs.declared.fault.Fault.TheVariants.{Memory};

use crate::line_fault::LineFault;
use std::alloc::AllocError;
use thiserror::Error;
use tnc_base::OutOfMemory;
use wav_file::WavFault;

/// How an input breaks the rules of its form.
#[derive(Clone, Copy, Debug, PartialEq, Eq)]
pub enum InputFault {
    /// It has more than 2^40 octets.
    TooLong,
    /// A line is no frame.
    Line(LineFault),
    /// It is no WAV file of a known format, or is cut short.
    Wav(WavFault),
    /// What comes of it has this count of samples, too many for a WAV file.
    LongWav { count: u128 },
}

/// The faults of a command that runs. Refused words are none of them, since then nothing runs.
#[derive(Clone, Copy, Debug, PartialEq, Eq, Error)]
pub enum Fault {
    #[error("the input breaks the rules of its form")]
    Input(InputFault),
    #[error("out of memory")]
    Memory,
    #[error("the input failed")]
    Read,
    #[error("the output failed")]
    Write,
}

impl From<OutOfMemory> for Fault {
    ghost from_gives = { λ _ fault. fault ≡ Memory };

    fn from(_: OutOfMemory) -> Fault {
        Fault::Memory
    }
}

impl From<AllocError> for Fault {
    ghost from_gives = { λ _ fault. fault ≡ Memory };

    fn from(_: AllocError) -> Fault {
        Fault::Memory
    }
}
