//! The line to `rigctld`, the daemon of hamlib that turns a transmitter on and off: one over the sockets and the clock
//! of the system, and one in memory that goes as a script says.
//!
//! The calls are made in this order: `connect`, `open` until it is not early, and then in each turn `now`, `read` and the
//! `write`s, until `hang_up`. A [`KeySide`] makes them as its machine says: `turn` in each turn, `is_free`, `tick` and
//! `written` for each tick, and `release` at the end of the run.
//! What is promised: a line in memory tells each connection with the commands that were written on it and the octets
//! that came, in order, and with each command how much sound the output had by then, so that commands and sound stand
//! in one order that no caller can turn.
#![tactic(auto)]

mod key_port;
mod key_records;
mod key_side;
mod laws;
mod mem_key;
mod real_key;

pub use key_port::KeyPort;
pub use key_records::{KeyCame, KeyStep, KeyWrite};
pub use key_side::{KeyReports, KeySide};
pub use laws::{the_line_has_the_commands, the_line_is_released_at_the_end};
pub use mem_key::{KeyOutcome, LineRecord, MemKeyPort};
pub use real_key::RealKeyPort;
