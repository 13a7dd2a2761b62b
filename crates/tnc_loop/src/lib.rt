//! The command `loop`: frames are drawn from a seed, sent as one clean signal, heard again, and told of in a summary.
//! Words are those of PCG XSH RR 64/32, and the signal is Bell 202 and AX.25 2.2, each frame a transmission of its own.
//! With `rough` each transmission also gets a start phase, a level, noise before it and an error in each sample. What
//! is promised: the summary is that of the candidates of the samples that the seed draws, a stray candidate is told
//! exactly when there is one, and if there is none the frames that are heard are the frames that were made.
#![tactic(auto)]

mod command;
mod drawing;
mod fault;
mod laws;
mod rough;
mod sending;
mod straying;
mod summing;
mod telling;

pub use command::loop_back;
pub use fault::LoopFault;
pub use laws::{good_transmissions, heard_is_near, one_summary};
