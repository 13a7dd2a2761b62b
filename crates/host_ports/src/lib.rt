//! The hosts' side of a live station: the sockets of host programs, what waits on the way to them and from them, and what
//! the report tells of the station.
//!
//! In each turn the ports are polled once, and each host is offered the rest of one piece. The sockets are after a
//! trait, so that all of this also runs in memory. What is promised: a host is sent its pieces whole and in order; a
//! paused host gives no octets.
#![tactic(auto)]

mod client;
mod clients;
mod delivering;
mod dialing;
mod door;
mod health;
mod health_note;
mod host_parts;
mod host_side;
mod id_range;
mod mem_ports;
mod offering;
mod outgoing;
mod pausing;
mod ports;
mod real_ports;
mod records;
mod report_line;
mod script;
mod sending;
mod shutting;
mod socket;
mod sockets;
mod taking;
mod telling;
mod untaken;

pub use client::Client;
pub use health::{Health, Standing};
pub use health_note::{Counts, HealthNote, HealthNotes};
pub use host_parts::HostParts;
pub use host_side::HostSide;
pub use id_range::IdRange;
pub use mem_ports::MemPorts;
pub use outgoing::{AppendFault, Outgoing};
pub use ports::{PollFault, Ports};
pub use real_ports::RealPorts;
pub use records::{Came, Dial, Listen, PollRecord, Taken};
pub use report_line::ReportLine;
pub use sending::{OfferFault, offer};
pub use untaken::Untaken;
