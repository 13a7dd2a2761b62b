//! A receiver of 59 lanes for short wave, which hears in more noise, on two paths, from senders whose clock is off, and
//! when it is mistuned (300 bits a second, 1600 and 1800 Hz at 9600 samples a second).
//!
//! The 32 lanes of `hf_modem` decide each bit by itself, follow no clock and want the tones where they belong. 27 more
//! read the tones that the nine banks of `hf_tracking` decide in phase, each bank's at a fixed place of a bit and at the
//! places that two clocks give. An added lane reports a frame only if the frame begins with a path (AX.25 2.2 section
//! 3.12) and its closing flag ends in time, since chance makes a frame of noise more often if more lanes listen. All
//! candidates are merged, so each frame comes once.
//!
//! What is promised: the items are exactly the merged candidates of all lanes, which are a definition over the whole
//! list of samples, however the samples were cut into blocks; and samples near a signal give the frames that were sent
//! if no candidate is stray.
#![tactic(auto)]

mod added_frame;
mod banks;
mod decoder;
mod laws;
mod tracking_bank;

pub use added_frame::LANES;
pub use banks::{feed_banks, new_banks};
pub use decoder::{AllHfLanes, BEHIND, HfSensitiveDecoder};
pub use laws::{
    hf_sensitive_carried_frames, hf_sensitive_items_are_all, hf_sensitive_items_join,
    hf_sensitive_near_frames, one_list_of_all_hf_lanes, some_list_of_all_hf_lanes,
};
pub use tracking_bank::TrackingBank;
