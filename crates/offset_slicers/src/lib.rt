//! Bits from samples, at one of the eight offsets that a bit's first sample can have in an audio of
//! eight samples a bit (Bell 202, 1200 bits a second at 9600 samples a second). Each window of
//! eight samples is compared with both tones and decided as the louder one, and the rule of
//! inverted NRZ makes the bits. What is promised: the bits are exactly those of the definition over
//! all samples so far, however these were cut, and no sum overflows on any samples.
#![tactic(auto)]

mod correlators;
mod decision;
mod laws;
mod slicer;

pub use correlators::correlate;
pub use decision::{Decision, decide, energies};
pub use laws::{near_windows, pure_windows};
pub use slicer::{SlicedBit, Slicer};
