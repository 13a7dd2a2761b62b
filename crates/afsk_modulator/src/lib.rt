//! The sending half of a Bell 202 modem: frames of AX.25 2.2 as the samples that a radio sends, 9600
//! a second and eight a bit. A `Modulator` gives a window of samples for each tone and never breaks
//! the phase. `transmission` sends frames between flags (ISO/IEC 3309, AX.25 2.2 section 3) on a line
//! that begins at mark; `transmission_at` begins at any phase of a bit and has any level. What is
//! promised: each sample is exactly the one of the definitions of the bits, the line and the wave,
//! rounded towards zero at the level, and each refusal comes exactly when its rule is broken.
#![tactic(auto)]

mod fault;
mod modulator;
mod sending;

pub use fault::ModFault;
pub use modulator::Modulator;
pub use sending::{first_bad_length, modulated, transmission, transmission_at};
