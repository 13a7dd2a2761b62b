//! A receiver of a live station that hears frames of AX.25 also in blocks of FX.25: it reads a ring of samples.
//!
//! All lanes share one reader, and a gap starts them anew. Eight lanes hear each stretch of samples as an `Fx25Receiver` does,
//! and give each frame as soon as it has ended. If the receiver is sensitive, 26 lanes hear it as a `SensitiveBlocksReceiver`
//! does, and give each frame once it is settled, 33 samples later. While a block comes in the channel is busy, from its tag
//! on: plain lanes hear no flag in it.
//!
//! What is promised: the items that come are exactly those of what the definitions say is heard of the reader's answers,
//! and the channel is busy exactly while flags in a row or a tag say so.
#![tactic(auto)]

mod hearing;
mod lanes;
mod laws;
mod placing;
mod receiver;
mod telling;

pub use laws::{one_list_is_heard, one_stretch_is_heard};
pub use receiver::Fx25RingReceiver;
