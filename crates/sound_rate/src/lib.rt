//! The rate of a live station's sound: 9600 samples a second, as its modem works, or 48,000, as sound cards have them.
//!
//! What comes at 48,000 goes to the modem through a filter, each fifth sample of it; what the modem makes goes out with
//! four samples more between each two. What is promised: the samples that come out are those of the definition over all
//! samples that went in, in whatever pieces; none of them waits for a sample that the definition does not ask for.
#![tactic(auto)]

mod incoming;
mod outgoing;
mod rate;

pub use incoming::Incoming;
pub use outgoing::Outgoing;
pub use rate::Rate;
