//! Tones of packet radio on short wave decided in phase, by banks of a frequency each (300 bits a second, 1600 and 1800 Hz
//! at 9600 samples a second).
//!
//! On short wave the tones are never where they belong, since a receiver of single sideband that is mistuned shifts both
//! alike, and two paths weaken and turn each tone by itself. So a bank expects each tone as it was heard last, its
//! strength and its phase, each tone's apart, turned on by a frequency that it follows; and it decides three windows at
//! once. Nine banks 25 Hz apart have the frequency of most senders among them. What is promised: tones are exactly those
//! of the definitions over all samples so far, however these were cut, and no sum overflows on any samples.
#![tactic(auto)]

mod correlation;
mod decision;
mod hf_tones;
mod hf_tracker;
mod phasors;
mod track;

pub use correlation::{BANKS, correlate};
pub use hf_tones::HfTones;
pub use hf_tracker::HfTracker;
pub use track::Track;
