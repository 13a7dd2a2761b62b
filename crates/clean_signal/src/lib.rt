//! What a receiver makes of a clean signal: the frames that were sent, each once, in order.
//!
//! Frames are sent by Bell 202 (1200 bits a second at 9600 samples a second) and AX.25 2.2, after any silence. The
//! eight slicers of a receiver hear each frame several times and may hear others, which noise or chance makes. If no
//! candidate of the samples is such a stray, merging leaves exactly the frames that were sent: that is a law over the
//! definitions, for every list of transmissions. [`is_sent`] decides of a candidate whether it is stray.
#![tactic(auto)]

mod laws;
mod true_end;

pub use laws::{
    carried_frames, clean_frames, level_frames, near_frames, none_stray, samples_by_place,
    sent_is_near,
};
pub use true_end::{TrueEnd, is_sent};
