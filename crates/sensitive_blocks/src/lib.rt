//! A receiver of 26 lanes at 9600 samples a second that hears frames of AX.25 also in blocks of FX.25.
//!
//! The lanes are those of `sensitive_receiver`: eight read windows at fixed offsets, and eighteen read tones that are decided in
//! phase or follow a clock. Each gives its bits to a deframer and to a reader of blocks, and keeps where its last bits ended: a
//! lane that follows a clock has no other way to tell where the frame of a block would have ended plainly. All lanes take the bits that
//! end with a sample together, 33 samples after it, so what is heard comes in order, and it is merged as `fx25_receiver` merges.
//! What is promised: what was given of samples, in whatever blocks they came, is exactly what the definitions of heard and merged
//! items say of their whole list, up to the last sample that is settled.
#![tactic(auto)]

mod follower;
mod hearing;
mod lane;
mod laws;
mod readings;
mod receiver;

pub use laws::{all_lanes_without_blocks, settled_items_stay};
pub use receiver::SensitiveBlocksReceiver;
