//! The key of a transmitter after `rigctld`, the daemon of hamlib: when a keying command and a release are written
//! on its line, what of the line is reported, and when a transmission may begin. The machine has no handle, takes no
//! memory and cannot fail: the caller owns the connection and the clock. What is promised: over any list of calls each
//! command and each report is exactly the one that the rules give on what has happened so far.
//!
//! In a turn the caller reads the line -> [`turn`](Keying::turn) -> reports `ready`, drops the connection if `dropped`,
//! reports `lost` -> does what `next` asks for. After a try to connect or to write the first release it calls
//! [`tried`](Keying::tried), and drops a connection that was refused. For each tick:
//! [`is_free`](Keying::is_free), by which the samples are made -> [`tick`](Keying::tick) -> writes the command,
//! reports -> writes the samples -> [`written`](Keying::written) -> writes the command. A command that is not written
//! whole by one write goes to [`command_failed`](Keying::command_failed) at once. At the end of the run the caller
//! reads the line -> [`release`](Keying::release) -> drops the connection unless [`has_line`](Keying::has_line) -> does
//! what `release` asks for, again and again until it answers `Over`.
#![tactic(auto)]

mod answer;
mod command;
mod ending;
mod laws;
mod line;
mod losses;
mod machine;
mod reading;
mod report;
mod ticking;
mod trying;
mod turning;

pub use command::Command;
pub use ending::Ending;
pub use laws::{
    a_free_radio_accepted_each_command, a_transmission_stays_keyed, an_end_of_the_key_is_told,
    at_most_two_are_due, commands_alternate, only_a_free_radio_is_keyed, pieces_do_not_matter,
    short_sound_meets_no_limit, the_end_owes_nothing, the_end_releases, the_key_follows_the_sound,
    the_key_has_a_limit, the_key_stays_on, the_tail_is_exact,
};
pub use line::{End, Phase, Try};
pub use machine::{Keying, Words};
pub use report::{OffWhy, Report, Why};
pub use ticking::Act;
pub use turning::{Next, Turn};
