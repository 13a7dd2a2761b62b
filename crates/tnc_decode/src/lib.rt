//! The command `decode`: from audio to the frames that are heard in it. Samples come as raw PCM or as a WAV file, at
//! 9600 or 48,000 a second, and frames go out as lines of hexadecimal digits or as KISS. What is promised: what is
//! written is the print of what remains of all that is heard in the input's samples, for every input, however its source cuts it.
#![tactic(auto)]

mod audio;
mod decoders;
mod decoding;
mod fx25_decoder;
mod hearing;
mod modem;
mod printing;
mod receiver;
mod sensitive_fx25_decoder;

pub use decoding::decode;
pub use printing::print;
