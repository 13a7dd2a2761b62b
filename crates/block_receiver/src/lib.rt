//! One receiver for lanes of any kind: samples in blocks in, each frame that some lane hears in them once and in order
//! out.
//!
//! What differs between receivers is what their lanes hear, and how soon it is settled: [`Lanes`] says both. What is
//! the same is here: a block is given to the lanes, what they find goes to a merger, and the items that no candidate to
//! come can change are given. What is promised: the items are exactly the merged candidates of all samples, in whatever
//! blocks they came.
#![tactic(auto)]

mod lanes;
mod merging;
mod progress;
mod receiver;

pub use lanes::{Hearer, InTurn, Lanes};
pub use progress::Progress;
pub use receiver::Receiver;
