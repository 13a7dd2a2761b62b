//! A receiver of a live station: it reads a ring of samples and hears Bell 202, with eight lanes or with all 26, plainly or also
//! in blocks of FX.25, or short wave at 300 bits a second, with 32 lanes or with all 59.
//!
//! On short wave the 32 lanes of an `HfBank`, and the 27 of nine banks if these listen, share one reader, and a gap starts
//! them anew. What they hear is merged, so each frame comes once. One type, [`LiveReceiver`], hides how a station listens.
//!
//! What is promised: the items that come are exactly those of what the lanes hear of their readers' answers, merged,
//! each as soon as no lane can hear anything that ends before it.
#![tactic(auto)]

mod hf_hearing;
mod hf_lanes;
mod hf_merging;
mod hf_placing;
mod hf_receiver;
mod laws;
mod listening;
mod receiver;

pub use hf_receiver::HfReceiver;
pub use laws::short_wave_is_heard_as_decoded;
pub use listening::{Listening, readers_wanted};
pub use receiver::LiveReceiver;
