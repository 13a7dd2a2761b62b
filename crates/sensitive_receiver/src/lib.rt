//! A receiver of 26 lanes, which hears in more noise and follows senders whose clock is off (Bell 202 at 1200 bits and
//! 9600 samples a second).
//!
//! The eight lanes of `slicer_bank` decide each bit by itself, at a fixed offset. Eighteen more read tones of samples
//! without their mean. Fifteen of them have tones that `tone_tracking` decides in phase over several bits: eight at fixed
//! offsets, and seven at the places that a clock gives, which follows the sender's. The last three follow a clock too, but
//! decide each bit by itself, for senders whose phase begins anew at each change of tone. An added lane reports a frame
//! only if the frame begins with a path (AX.25 2.2 section 3.12) and its closing flag ends in time, since chance makes a
//! frame of noise more often if more lanes listen. All candidates are merged, so each frame comes once.
//!
//! What is promised: the items are exactly the merged candidates of all lanes, which are a definition over the whole
//! list of samples, however the samples were cut into blocks; and samples near a signal give the frames that were sent
//! if no candidate is stray.
#![tactic(auto)]

mod added_bank;
mod added_banks;
mod added_lane;
mod decided_place;
mod decoder;
mod fast_bank;
mod fixed_bank;
mod fixed_hearing;
mod hearing;
mod lanes;
mod late_lane;
mod laws;
mod list_bank;
mod merging;
mod pieces;
mod reading;

pub use added_bank::AddedBank;
pub use decoder::{AllLanes, AllOnThreads, SensitiveDecoder};
pub use lanes::{LANES, delay_of};
pub use laws::{
    a_sensitive_decoder_keeps_few, one_list_of_all_lanes, sensitive_carried_frames,
    sensitive_items_are_all, sensitive_items_join, sensitive_level_frames, sensitive_near_frames,
    sensitive_none_stray, some_list_of_all_lanes,
};
pub use merging::put_all;
