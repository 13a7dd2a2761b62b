//! What a reader is answered.

/// An answer of [`Reader::read`](crate::Reader::read).
#[derive(Clone, Copy, Debug, PartialEq, Eq)]
pub enum Got {
    /// The sample at the reader's position.
    Item { at: u64, sample: i16 },
    /// The samples from `from` to below `to` were overwritten before they were read.
    Gap { from: u64, to: u64 },
    /// The cell at the reader's position held no sample yet, and the end word told no end there. At least `at` samples
    /// are published, and the reader knew of no more.
    Empty { at: u64 },
    /// The ring has ended after `total` samples, all of which the reader has passed.
    End { total: u64 },
}
