//! The two tones of Bell 202 as tables: a software modem at 9600 samples a second sends mark as
//! 1200 Hz and space as 2200 Hz. A sample advances a tone's phase by 6 or 11 forty-eighths of a
//! cycle, so one cycle of a sine in 48 steps serves both. What is promised: each sample, step and
//! phase is exactly the one that the definitions of the wave give, and no sample is louder than
//! 10000.
#![tactic(auto)]

mod phase;
mod tone;

pub use phase::{advance, sine};
pub use tone::{Tone, step};
