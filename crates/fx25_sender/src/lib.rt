//! The sending half of FX.25 over Bell 202: frames of AX.25 2.2 with check octets around them, as the samples that a
//! radio sends, 9600 a second and eight a bit. `fx25_transmission` sends units between flags: for each frame a tag and
//! a block, or the plain frame if it fits into no block. What is promised: each sample is exactly that of the
//! definitions of the units, the line and the wave, and each refusal comes exactly when its rule is broken.
#![tactic(auto)]

mod body;
mod laws;
mod sending;

pub use laws::{unit_is_unit, units_are_one};
pub use sending::fx25_transmission;
