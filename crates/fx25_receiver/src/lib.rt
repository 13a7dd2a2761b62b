//! Eight lanes at 9600 samples a second that hear frames of AX.25 also in blocks of FX.25.
//!
//! Each lane takes the windows of one offset of a bit, as `slicer_bank` has them, and gives the bits to a deframer and
//! to a reader of blocks. What comes plainly and what comes out of blocks is merged: each frame is given once, in the
//! order of the ends. What is promised: what was given of samples, in whatever blocks they came, is exactly what the
//! definitions of heard and merged items say of their whole list.
#![tactic(auto)]

mod ahead;
mod candidate_list;
mod heard;
mod hearing;
mod lane;
mod laws;
mod merging;
mod plain_frames;
mod receiver;
mod resting_reader;
#[cfg(test)]
mod tests;
mod window_certainty;

pub use candidate_list::candidates;
pub use heard::Heard;
pub use lane::Lane;
pub use laws::{
    given_items_are_merged, merged_items_are_one, near_blocks_are_heard,
    one_stretch_of_samples_is_repaired, without_blocks_as_before,
};
pub use merging::{forget, put};
pub use receiver::Fx25Receiver;
pub use window_certainty::certainty;
