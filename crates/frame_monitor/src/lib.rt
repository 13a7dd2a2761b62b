//! Frames as AGWPE shows them to a host that monitors the channel (the AGWPE TCP/IP API tutorial, SV2AGW; in the letter
//! as Dire Wolf writes them): a line that tells from whom to whom a frame goes, by way of which repeaters, what it is
//! and when it was heard or sent, and then its information as it came. The stations that were heard last are kept here
//! as well, with the times at which each was heard. All texts, and the letter of a message, are exactly those of the
//! definitions.
#![tactic(auto)]

mod clock;
mod description;
mod heard_station;
mod letter;
mod text;

pub use heard_station::{HeardStation, hear_station, heard_text};
pub use letter::monitor_letter;
pub use text::monitor_text;
