//! The sending half of a modem for packet radio on short wave: 300 bits a second, mark at 1600 Hz and space at 1800 Hz,
//! 9600 samples a second and so 32 samples a bit. An `HfModulator` gives a window of samples for each tone and never
//! breaks the phase. `hf_transmission` sends frames between flags (AX.25 2.2 section 3) on a line that begins at mark.
//! What is promised: each sample is exactly the one of the definitions of the bits, the line and the wave, rounded
//! towards zero at the level, and each refusal comes exactly when its rule is broken.
#![tactic(auto)]

mod modulator;
mod sending;

pub use modulator::HfModulator;
pub use sending::hf_transmission;
