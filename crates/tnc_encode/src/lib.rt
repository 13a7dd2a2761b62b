//! The command `encode`: from frames to exact audio. Frames come as lines of hexadecimal digits or as KISS, and samples
//! go out as raw PCM or as a WAV file. What is promised: what is written is the signal of the transmissions that the
//! words make of the input's frames; at a bad line it is that of the frames before it, or no WAV file.
#![tactic(auto)]

mod bell202;
mod counting;
mod encoding;
mod frame_in;
mod frames;
mod sender;
mod sending;
mod windows;

pub use encoding::encode;
