//! Whether a station is heard in samples, by its tones alone (Bell 202, 1200 bits a second at 9600 samples a second).
//!
//! What a station has, and noise, voice and hum have not, is a phase that runs on from bit to bit. In eight samples
//! mark runs one whole cycle and space 11/6, so from one window of eight samples to the next it is known how far the
//! phase turns, whichever tone follows. A [`HeardWindow`] is what is heard of its tone in one window; a [`CarrierLane`]
//! weighs the windows of one offset of a bit, and a [`Carrier`] has four of them. What is promised: it is busy exactly
//! if the samples since the last gap have tones by that definition, however they were cut, and no sum overflows on any
//! samples.
#![tactic(auto)]

mod carrier;
mod carrier_lane;
mod comparison;
mod heard_window;
mod laws;
mod window_power;

pub use carrier::Carrier;
pub use carrier_lane::CarrierLane;
pub use heard_window::HeardWindow;
pub use laws::{constants_have_no_tones, hold_shows_carrier, near_waves_have_tones};
pub use window_power::power;
