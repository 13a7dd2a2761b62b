//! What a turn of reading brings.

use frame_merge::Candidate;
use slicer_bank::LaneGap;

/// What a turn of reading brings.
#[derive(Drop)]
pub struct Turn {
    /// The frames that became due, each once and in order.
    pub items: Vec<Candidate>,
    /// The gaps that the reader was told of.
    pub gaps: Vec<LaneGap>,
    /// The reader has met the end of the ring.
    pub ended: bool,
}
