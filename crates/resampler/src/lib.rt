//! Between 48,000 samples a second, which sound cards have, and the 9600 of the modem.
//!
//! On the way down a low-pass filter comes before each fifth sample is taken: all noise above 4800 Hz would fold into
//! the band of the tones otherwise. On the way up the same filter makes the four samples between each two. What is
//! promised: each sample given is exactly the one of the definition over all samples, in whatever pieces they came; no
//! sum leaves 32 bits, on any samples; no call takes memory.
#![tactic(auto)]

mod decimator;
mod feeding;
mod interpolator;
mod laws;
mod line;
mod low_pass;
mod window;

pub use decimator::Decimator;
pub use interpolator::Interpolator;
pub use laws::{decimated_samples, decimator_ends, decimator_settles, filter_ends, filter_settles};
pub use low_pass::LowPass;
