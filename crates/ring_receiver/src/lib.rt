//! A receiver that reads a ring of samples, with eight lanes or with all 26.
//!
//! The eight lanes of a `RingBank` have a reader each. If the eighteen lanes that `sensitive_receiver` adds listen too,
//! they share one further reader, and a gap starts them anew. All that is heard is merged, so each frame comes once.
//! One type hides whether the added lanes listen.
//!
//! What is promised: the items that come are exactly those of what the lanes hear of their readers' answers, merged,
//! each as soon as no lane can hear anything that ends before it.
#![tactic(auto)]

mod added_lanes;
mod added_ring;
mod heard;
mod laws;
mod merging;
mod moving;
mod receiver;
mod turn;

pub use heard::Heard;
pub use laws::eight_lanes_alone;
pub use receiver::{RingReceiver, readers_wanted};
