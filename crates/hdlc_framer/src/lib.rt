//! Frames between flags on a line of bits, as HDLC and AX.25 send them (ISO/IEC 3309, AX.25 2.2 section 3).
//!
//! The frame check sequence is a division of polynomials; a 0 follows every five 1s of a frame, so that no flag stands
//! inside it. `stuff` gives the bits of a transmission. A `Deframer` takes bits one by one, or eight at once where none ends
//! anything, and tells exactly where a flag, an abort or a frame of 15 to 1024 octets with a right check sequence ends,
//! however the bits are cut up.
#![tactic(auto)]

mod carrier;
mod check_sequence;
mod content;
mod deframer;
mod event;
mod frame_length;
mod late_deframer;
mod laws;
mod line;
mod octet_step;
mod stuffing;

pub use check_sequence::fcs;
pub use deframer::Deframer;
pub use event::Event;
pub use frame_length::{LEAST_FRAME_LENGTH, MOST_FRAME_LENGTH, has_frame_length};
pub use late_deframer::{LateDeframer, push_bits, push_whole_octet};
pub use laws::{one_event_comes, one_flag_makes_busy, one_frame_ends, remainder_is_of_division};
pub use stuffing::stuff;
