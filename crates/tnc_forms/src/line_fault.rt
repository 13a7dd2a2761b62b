//! What is wrong with a line.

/// Why a line is no frame.
#[derive(Clone, Copy, Debug, PartialEq, Eq)]
pub enum LineFlaw {
    /// More than 2048 octets.
    LongLine,
    /// An odd count of octets.
    OddLine,
    /// An octet that is no hexadecimal digit.
    BadDigit,
    /// Digits for fewer octets than a frame has.
    ShortLine,
}

/// A bad line of an input.
#[derive(Clone, Copy, Debug, PartialEq, Eq)]
pub struct LineFault {
    pub flaw: LineFlaw,
    /// The place of the bad digit, or else of the line's first octet, counted from 0.
    pub place: usize,
}
