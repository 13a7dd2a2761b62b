//! A recorder on a ring of samples: it keeps the last samples beside whatever else reads the ring.
//!
//! A `Recorder` has a reader of its own. It keeps the last so many samples that the reader is given, and the positions
//! that were overwritten before it came to them. What it kept is written as a WAV file of 16-bit PCM, one channel, 9600
//! samples a second (Multimedia Programming Interface and Data Specifications 1.0).
//!
//! What is promised: sound and losses are those of all that the reader was answered, however the turns cut it, and
//! samples and losses cover each position that the reader has passed exactly once.
#![tactic(auto)]

mod loss;
mod recorder;
mod writing;

pub use loss::Loss;
pub use recorder::{Recorded, Recorder};
