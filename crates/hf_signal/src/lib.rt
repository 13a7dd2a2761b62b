//! What a receiver of 300 bits a second makes of a signal near a clean one: the frames that were sent, each once, in
//! order.
//!
//! Frames are sent by `hf_modem` (1600 and 1800 Hz at 9600 samples a second) and AX.25 2.2, after any silence. The 32
//! slicers of a receiver hear each frame several times and may hear others, which noise or chance makes. If no
//! candidate of the samples is such a stray, merging leaves exactly the frames that were sent, at every level, with
//! errors of at most a tenth of it. [`hf_is_sent`] decides of a candidate whether it is stray.
#![tactic(auto)]

mod laws;
mod sent;

pub use laws::{
    hf_carried_frames, hf_level_frames, hf_near_frames, hf_near_windows, hf_none_stray,
    hf_sent_is_near,
};
pub use sent::hf_is_sent;
