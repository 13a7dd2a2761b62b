//! Merging of what several slicers heard of one transmission.
//!
//! Slicers at neighbouring offsets of a bit hear the same frame, a few samples apart. A [`Merger`]
//! takes the candidates of all of them and gives each frame once, in the order of the ends of the
//! closing flags: a candidate is left out exactly when one before it has the same octets and an
//! end at most 15 samples lower. A mark says how far a lane has come, so that what is settled can be
//! given before the signal ends.
#![tactic(auto)]

mod candidate;
mod keeping;
mod merger;
mod order_law;
mod place;
mod ready;

pub use candidate::Candidate;
pub use merger::{Merger, PutFault};
pub use order_law::in_order_sorts;
