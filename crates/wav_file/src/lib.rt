//! WAV files of 16-bit PCM, one channel, at 9600 samples a second or, if the reader takes it, at 48,000, as octets that
//! come one by one (Multimedia Programming Interface and Data Specifications 1.0). Whatever octets come, what they give
//! is the definition's reading of all octets so far: each sample of the first data chunk as its last octet comes, the
//! rate once the format was read, and the first fault exactly at the octet at which it shows. The head of a file of so
//! many samples at 9600 is written by `wav_head`.
#![tactic(auto)]

mod fault;
mod field;
mod head;
mod part;
mod rates;
mod reader;
mod sample;

pub use fault::{TooLong, WavFault};
pub use head::wav_head;
pub use reader::WavIn;
pub use sample::sample_of;
