//! What every part of the modem stands on at its outer edge: octet lists, the hash that summaries print, and the
//! streams that octets come from and go to. A stream counts its faults, and if it tells its octets, each read and
//! write says exactly which of them it moved.
#![tactic(auto)]

mod fault;
mod hash;
mod in_memory;
mod octet_list;
mod over_std;
mod stream;

pub use fault::{Failed, OutOfMemory};
pub use hash::fnv;
pub use in_memory::{MemSink, MemSource};
pub use octet_list::Octets;
pub use over_std::{RealSink, RealSource};
pub use stream::{Sink, Source};
