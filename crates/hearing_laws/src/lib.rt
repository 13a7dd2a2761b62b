//! What a live station hears that reads its input without a gap: the frames that were sent, each once, in order. A law is
//! the contract of a function that does nothing.
#![tactic(auto)]

mod laws;

pub use laws::a_live_run_hears_what_was_sent;
