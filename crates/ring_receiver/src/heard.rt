//! What a turn of reading brings.

use frame_merge::Candidate;
use slicer_bank::LaneGap;

/// What a turn of reading brings.
#[derive(Drop)]
pub struct Heard {
    /// The frames that are due, each once and in order.
    pub items: Vec<Candidate>,
    /// All gaps that the readers were told of, reader by reader.
    pub gaps: Vec<LaneGap>,
    /// The least position of a reader.
    pub least: u64,
    /// True exactly if every reader has met the end of the ring.
    pub ended: bool,
}
