//! How many samples a second come and go.

/// How many samples a second the sound of a station has, in and out.
#[derive(Clone, Copy, Debug, PartialEq, Eq)]
pub enum Rate {
    /// 9600, as the modem works.
    Narrow,
    /// 48,000, as sound cards have them.
    Wide,
}
