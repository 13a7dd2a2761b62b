//! The forms in which octets come and go: lines of hexadecimal digits, of an input that is read whole or piece by
//! piece, and raw PCM that is written. Raw PCM is signed 16-bit samples, low octet first, one channel; a line is the
//! octets of one frame, two digits for each. What is promised: frames are exactly those of the octets, text and octets
//! exactly those of frames and samples, and an input that breaks the rules of its form is refused with what is wrong
//! and the place at which it shows.
#![tactic(auto)]

mod fault;
mod hex_frames;
mod hex_in;
mod hex_line;
mod hex_print;
mod line_fault;
mod pcm;
mod reading;

pub use fault::{Fault, InputFault};
pub use hex_frames::{HexFrames, read_hex_frames};
pub use hex_in::HexIn;
pub use hex_print::print_hex_line;
pub use line_fault::{LineFault, LineFlaw};
pub use pcm::write_pcm;
pub use reading::{PIECE, read_all, read_piece};
