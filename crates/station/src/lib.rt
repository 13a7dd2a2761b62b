//! A station of packet radio: the links of connected mode (AX.25 2.2), the host programs that use them by KISS
//! (Chepponis and Karn) or by AGWPE (the AGWPE TCP/IP API tutorial, SV2AGW), and the channel that all of them share.
//! What comes from a host, a frame that is heard and a tick of 10 ms are each one call, which answers what is sent to
//! which connection. What is promised: each call is exactly the step of the definitions on all that came so far. An
//! event of a link is a step of the one link that its two calls name, and what a link tells goes to its owner alone.
//!
//! ```text
//! Every 10 ms
//!   accepts(id)                may octets of this connection be given?
//!   host(Bytes), host(Left)    what hosts sent
//!   heard(octets)              each frame that was received
//!   tick(busy)                 each link in the order of its key, one gives a frame if the channel takes it, the channel
//! A connection
//!   host(Joined)               KISS or AGWPE; a 65th is in `closed`, and has not joined
//!   heard                      KISS is shown each frame, AGWPE what it asked for
//!   tick                       AGWPE is shown what was sent, if it monitors; KISS is told of it, if it asked
//!   host(Left)                 its registrations end, its links have no owner and are disconnected
//! Octets of a connection       however they are cut
//!   KISS, port 0               a frame is queued, a parameter is set
//!   R, G, g, Y, y, H           answered at once
//!   X, x, k, m                 a call is registered or freed; raw frames or monitoring on, or off again
//!   K, M, V                    a frame is queued; the connection waits while four of its own do
//!   C, v, c                    a link is made and calls, or d is answered
//!   D, d                       for the connection's own link between the two calls
//!   a body over 4096 octets    closed, and has left
//!   KISS as HTTP or TLS begin  closed, and has left
//! A frame that is heard
//!   shown to hosts             always
//!   no path                    nothing more
//!   a repeater has H clear     queued with H set, if that is this station; nothing more
//!   a link (dest, source)      read in its modulus, and its event
//!   dest is registered         read modulo 8; a link is made if the frame is no UI, TEST, UA, DM or FRMR
//!   source                     among the 20 stations that were heard last, in each of these cases but the second
//! The channel takes a frame     where the opening flags or a frame end, and none of a link waits
//!   a link that wants to send  is asked, the next one by key, round and round
//! An event of a link
//!   step, settle               an idle link is removed, and its key is free for the next one
//!   frames                     to the transmit queue under its key, or dropped and counted if 256 wait
//!   told                       to its owner, or to nobody
//! ```
//!
//! After want of memory a station is spent, and each later call answers it again.
#![tactic(auto)]

mod answering;
mod asker;
mod call_fields;
mod calling;
mod config;
mod connection;
mod ending;
mod frame_hearing;
mod frames;
mod giving;
mod heeding;
mod host_dispatch;
mod host_event;
mod host_out;
mod joining;
mod leaving;
mod link_event;
mod link_outcomes;
mod link_table;
mod memory;
mod messages;
mod monitoring;
mod new_links;
mod own_links;
mod owned_link;
mod owners;
mod parts;
mod passing;
mod reading;
mod registering;
mod registration;
mod replies;
mod routes;
mod sent_frames;
mod showing;
mod station;
mod taking;
mod ticks;
mod unproto;

pub use asker::Asker;
pub use config::{Config, LinkParams};
pub use connection::{Connection, Reader};
pub use host_event::{HostEvent, PortKind};
pub use host_out::{HostOut, Piece, TickOut};
pub use link_event::LinkEvent;
pub use link_table::LinkTable;
pub use memory::Memory;
pub use owned_link::OwnedLink;
pub use parts::Parts;
pub use reading::Said;
pub use registration::Registration;
pub use routes::Route;
pub use station::Station;
