//! What each end of a ring knows. These values exist in proofs alone: none is ever made.
use std::collections::LinkedList;

/// One read: where the reader stood, the count that it knew, and the words that it loaded. The end word is 0 if
/// it was not loaded.
pub struct Entry {
    pub at: u64,
    pub known: u64,
    pub cell: u64,
    pub last: u64,
}

/// A reader's record: all its reads, and the position to which they have brought it.
pub struct Track {
    pub at: u64,
    pub reads: LinkedList<Entry>,
}

/// What a seat at the table knows, whichever end it belongs to.
pub struct View {
    /// The cells of the ring, of a seat that is not spent.
    pub len: usize,
    pub lives: bool,
    /// The writer's seat, which knows the published list and whether it has ended.
    pub writes: bool,
    pub ended: bool,
    pub published: LinkedList<i16>,
    /// So many samples are published.
    pub known: u64,
    pub track: Track,
    /// A read stands between its two loads, with this word of its cell.
    pub waits: bool,
    pub cell: u64,
    /// The records that an ended writer was handed.
    pub kept: LinkedList<Track>,
}
