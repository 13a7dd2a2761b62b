//! What two stations of AX.25 2.2 tell each other by XID frames (section 4.3.3.7, figure 4.5): how they send, by what they
//! ask for lost frames, and the modulus, sizes, timer and retries of a link. The information of an XID frame is read
//! exactly if it spells parameters, what is written is read as it was told, and what two stations agree on is what
//! both can do (section 6.3.2).
#![tactic(auto)]

mod agreement;
mod laws;
mod parameters;
mod reading;
#[cfg(test)]
mod tests;
mod values;
mod writing;

pub use agreement::agreed;
pub use laws::{agreements_are_alike, what_is_written_is_read};
pub use parameters::{Duplex, LinkParameters, ToldParameters};
pub use reading::{read_xid, told_in_xid};
pub use writing::write_xid;
