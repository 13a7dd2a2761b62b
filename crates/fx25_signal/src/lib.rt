//! What a receiver of FX.25 makes of samples in which frames come plainly and in blocks: the frames that were sent, each
//! once, in order.
//!
//! The eight lanes hear a unit several times, plainly and out of its block, and may hear what was not sent. If nothing
//! that is heard is stray in this way, merging leaves exactly the frames that were sent. That is a law over the
//! definitions, for every list of units, as long as no unit has more wrong bits in its tag and more wrong octets in its
//! block than can be repaired.
#![tactic(auto)]

mod laws;

pub use laws::{lost_stretches_are_repaired, near_blocks_give_their_frames, units_are_merged};
