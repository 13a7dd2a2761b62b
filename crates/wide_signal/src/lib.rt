//! What a receiver makes of samples at 48,000 a second that are near a signal of Bell 202: the frames that were sent, each
//! once, in order.
//!
//! A filter stands before the receiver, so the law is about waves at 48,000 samples a second and not about what the filter
//! gives. It asks for one flag more at both ends of a transmission than the law at 9600 does, since the filter mixes the
//! first and the last samples of a transmission with what stands beside it.
#![tactic(auto)]

mod laws;

pub use laws::{
    near_wide_samples, near_wide_samples_by_all_lanes, near_wide_stream, sent_wide_is_near,
};
