//! The numbered packets of an AX.25 link (AX.25 2.2 sections 4.2 and 6.4): an [`OutStore`] keeps what was sent until it
//! is acknowledged, an [`InStore`] what came ahead of a gap. Frames carry numbers modulo 8 or 128, and each call
//! decides by those alone. If both ends keep to windows that fit the modulus, it decides what the true numbers say,
//! which count all packets from 0.
#![tactic(auto)]

mod asked_again;
mod incoming;
mod laws;
mod number;
mod outgoing;
mod packet;
mod place;
mod window;

pub use incoming::{InStore, StoreFault, Took};
pub use laws::numbers_on_the_air;
pub use outgoing::{BadNr, OutStore};
pub use packet::Packet;
pub use window::{BadWindow, Mode, check_window};
