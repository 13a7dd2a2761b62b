//! Why octets are no path.
use thiserror::Error;

/// Where octets cease to spell a path. Places are counted from 0, and the first fault in the order of
/// the octets is told.
#[derive(Clone, Copy, Debug, PartialEq, Eq, Error)]
pub enum AddrFault {
    /// The octets end inside the address; `at` is their count.
    #[error("short at {at}")]
    Short { at: usize },
    /// The octet at `at` is no character of a call, has bit 0 set, is a space that is the first of its
    /// field, or is a character after a space.
    #[error("bad character at {at}")]
    BadChar { at: usize },
    /// The destination has the end bit, so there is no source.
    #[error("one address")]
    OneAddress,
    /// The tenth field, which is the eighth repeater, has no end bit.
    #[error("no end")]
    NoEnd,
}
