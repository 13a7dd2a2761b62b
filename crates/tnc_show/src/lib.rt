//! The command `show`: from frames to a line of text for each, as a monitor prints it. Frames come as lines of
//! hexadecimal digits, and octets that are no frame are shown by what is wrong with them. What is promised: what is
//! written is exactly the lines of the input's frames, for every input, however its source cuts it, and there is one
//! such text.
#![tactic(auto)]

mod laws;
mod lines;
mod shower;
mod showing;

pub use laws::one_text;
pub use showing::show;
