//! One connected call as a client of an AGWPE host (AGWPE TCP/IP socket interface, G. Rossopoulos, SV2AGW): the own
//! call is registered, the remote one is called, maybe by way of repeaters, a text is sent when the call stands, and
//! what the remote station sends is printed. Each octet of the host is taken in turn, however the stream is cut, and
//! gives what is sent to the host and what is printed by it: together exactly what the table of the call tells.
//!
//! ```text
//! Client::new      X, to be sent first
//! Client::push     each octet of the host
//!   X answered by 01      C, or v by way of repeaters
//!   C of the call         the text as D, and d if nothing is waited for
//!   D of the call         its body is printed, and d follows as soon as enough is printed
//!   d of the call         the call is over
//! Client::done     was it made, and ended?
//! ```
#![tactic(auto)]

mod call_state;
mod client;
mod client_out;
mod fault;
mod laws;
mod messages;
mod step;

pub use call_state::CallState;
pub use client::Client;
pub use client_out::ClientOut;
pub use fault::ClientFault;
pub use laws::{done_prints_its_data, prints_its_data};
