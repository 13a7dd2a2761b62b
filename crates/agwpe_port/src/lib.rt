//! Messages between a host and the program on a stream of octets, after the AGWPE TCP/IP socket interface (G.
//! Rossopoulos, SV2AGW): a header of 36 octets, and as many octets of body as it tells. A reader takes the octets one
//! by one and gives each message at its last octet, however the stream is cut into calls, and refuses a length over
//! 4096 exactly at the last octet of its header. What `write_agw` writes is read as the one message handed in.
#![tactic(auto)]

mod call_field;
mod fault;
mod laws;
mod message;
mod messages;
mod reader;
mod under_way;
mod writer;

pub use call_field::call_text;
pub use fault::AgwFault;
pub use laws::a_text_is_no_message;
pub use message::AgwMessage;
pub use messages::read_messages;
pub use reader::AgwIn;
pub use writer::{spell_agw, write_agw};
