//! What a turn of reading brings.

use frame_merge::Candidate;

/// Samples of the ring that were overwritten before a lane read them: those from `from` to below `to`.
#[derive(Clone, Copy, Debug, PartialEq, Eq)]
pub struct LaneGap {
    pub lane: u8,
    pub from: u64,
    pub to: u64,
}

/// What the eight lanes of a [`RingBank`](crate::RingBank) bring of one turn.
#[derive(Drop)]
pub struct Advance {
    /// The next position of each lane.
    pub positions: [u64; 8],
    /// What the lanes heard, by end and then offset.
    pub candidates: Vec<Candidate>,
    /// All gaps that the lanes were told of, lane by lane.
    pub gaps: Vec<LaneGap>,
    /// True exactly if every lane has met the end of the ring.
    pub ended: bool,
}
