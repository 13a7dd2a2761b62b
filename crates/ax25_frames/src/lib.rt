//! Frames of AX.25 2.2 (sections 3.1 and 4.2) as values: an address path, a control field modulo 8 or 128,
//! a PID in I and UI frames, and information. A frame is read from octets exactly when they spell one,
//! each refusal names the first fault and its place, and what is written is read again as the same frame.
//! Each frame and each fault has one line of text.
#![tactic(auto)]

mod control;
mod fault;
mod frame;
mod names;
mod reading;
mod text;
mod writing;

pub use fault::FrameFault;
pub use frame::{Frame, Kind, Modulus, S, U, W};
pub use reading::read_frame;
pub use text::{is_command, text_of, text_of_fault};
pub use writing::write_frame;
