//! Tones of Bell 202 decided in phase, and a clock that follows the sender's (1200 and 2200 Hz at 9600 samples a
//! second).
//!
//! A correlator that looks at one bit alone forgets what it knows of the phase. The phase of a Bell 202 line runs on,
//! so several windows of eight samples can be summed in phase: mark runs one whole cycle in a window and space 11/6, so
//! from a window to the next the phase has turned by a whole number of sixths. A [`ToneTracker`] decides each window
//! together with what was decided before it and with the windows after it, whatever tones these have. A [`BitClock`]
//! watches where the tones change, and says where bits are to be read. A [`MeanRemover`] goes before: it takes out what
//! an offset or a hum adds to the tones. A [`ToneLine`] does both for blocks of samples, on threads if it is asked to:
//! places of one remainder by eight are decided by themselves. What is promised: samples without their mean, tones and
//! readings are exactly those of the definitions over all samples so far, however these were cut, and no sum overflows on
//! any samples.
#![tactic(auto)]

mod bit_clock;
mod block_mean;
mod correlation;
mod deciding;
mod decision;
mod mean_remover;
mod pasts;
mod phasor;
mod place_tones;
mod reach;
mod slot_tracker;
mod tone_line;
mod tone_lists;
mod tone_ring;
mod tone_tracker;

pub use bit_clock::{BitClock, Pull};
pub use correlation::{Correlations, correlate};
pub use mean_remover::MeanRemover;
pub use phasor::Phasor;
pub use place_tones::PlaceTones;
pub use reach::Reach;
pub use tone_line::ToneLine;
pub use tone_lists::ToneLists;
pub use tone_ring::ToneRing;
pub use tone_tracker::ToneTracker;
