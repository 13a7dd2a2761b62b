//! One engine for the commands that make a text of the octets of their input: `decode`, `encode` and `show` are makers.
//! A maker takes octets as they come and gives the text that they settle. The engine reads the input piece by piece,
//! writes each text before it reads on, and ends well or with a fault. What is promised: what is written is what the
//! maker makes of the input, for every input, however its source cuts it; and at each fault what was written before it
//! is what the octets settle that came before it.
#![tactic(auto)]

mod maker;
mod making;

pub use maker::{Maker, Taken};
pub use making::make;
