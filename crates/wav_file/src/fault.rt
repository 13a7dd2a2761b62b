//! Why octets are no WAV file that this project reads, and why one can't be written.

use thiserror::Error;

/// What is wrong with a file. Places are those of octets, counted from 0; one past the greatest `u64` is named by that.
#[derive(Clone, Copy, Debug, PartialEq, Eq, Error)]
pub enum WavFault {
    /// The octet at `at` is the first that is not as in `RIFF`.
    #[error("not riff at {at}")]
    NotRiff { at: u64 },
    /// The octet at `at` is the first that is not as in `WAVE`.
    #[error("not wave at {at}")]
    NotWave { at: u64 },
    /// A `data` chunk comes before the format, or the format has fewer than 16 octets. The last octet of that size is
    /// at `at`.
    #[error("no format at {at}")]
    NoFormat { at: u64 },
    /// The format's field, counted from 1, is not what is read. Its last octet is at `at`.
    #[error("bad format {field} value {value} at {at}")]
    BadFormat { at: u64, field: u8, value: u32 },
    /// The file ends after `at` octets, before its data does.
    #[error("truncated at {at}")]
    Truncated { at: u64 },
}

/// A file of `count` samples is too long for the sizes of its head.
#[derive(Clone, Copy, Debug, PartialEq, Eq, Error)]
#[error("too long at {count}")]
pub struct TooLong {
    pub count: u64,
}
