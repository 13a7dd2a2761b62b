//! What a line to rigctld tells of the calls so far.

use keying::{Command, End};
use tnc_base::Octets;

/// What was done on a connection.
#[derive(Debug, Drop)]
pub enum KeyStep {
    /// A command was written whole, when the output had so many octets.
    Wrote {
        /// The command.
        command: Command,
        /// How many octets the output had.
        had: usize,
    },
    /// Octets came.
    Read {
        /// When they were read, in ms.
        now: u64,
        /// The octets.
        octets: Octets,
    },
}

/// What a read brought.
#[derive(Clone, Copy, Debug, PartialEq, Eq)]
pub struct KeyCame {
    /// How many octets.
    pub count: usize,
    /// How reading ended, if it did.
    pub end: Option<End>,
}

/// What writing the first command of a connection came to.
#[derive(Clone, Copy, Debug, PartialEq, Eq)]
pub enum KeyWrite {
    /// The command is written whole.
    Whole,
    /// The connection is not made yet, and nothing is written.
    NotYet,
    /// It failed, or a part alone is written.
    Failed,
}
