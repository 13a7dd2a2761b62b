//! Access to a shared radio channel, in ticks of 10 ms: frames wait in a queue, and a transmission begins by the rule
//! of p-persistence in half duplex and at once in full duplex (the KISS TNC protocol, Chepponis and Karn). In half
//! duplex a station that was spoken to answers at once, and all others wait a slot. It begins with its opening flags
//! alone, and up to eight frames are sent in one. A link makes its frame as late as can be, when the channel takes it.
//! A channel sends by the modem that it was made for: Bell 202, plainly or with check octets around each frame, or that of
//! short wave.
//! What is promised: over any list of calls each tick has exactly the samples of the transmission that the rules give,
//! and each frame waits until the flag after it is sent.
#![tactic(auto)]

mod access;
mod air_tick;
mod block_bits;
mod frame_bits;
mod laws;
mod listening;
mod modem;
mod parameters;
mod queue;
mod sending;
mod stage;
mod stuffed_bits;
mod transmitter;
mod wave;

pub use access::Access;
pub use air_tick::{AirTick, Sent};
pub use laws::{
    a_tick_is_a_part_of_the_whole, a_transmission_begins_with_sound, a_transmission_is_whole,
    decisions_add_bits, half_duplex_begins_while_free, the_end_is_a_transmission,
};
pub use modem::{CheckOctets, Modem};
pub use parameters::{Param, Parameters};
