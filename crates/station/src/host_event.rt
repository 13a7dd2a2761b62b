//! What comes from host programs.

use tnc_base::Octets;

/// How a connection speaks.
#[derive(Clone, Copy, Debug, PartialEq, Eq)]
pub enum PortKind {
    /// By the KISS protocol.
    Kiss,
    /// By AGWPE messages.
    Agw,
}

/// An event of a connection.
#[derive(Debug, Drop)]
pub enum HostEvent {
    /// It joins, under an id that no connection has.
    Joined { id: u32, kind: PortKind },
    /// Octets of it, at most 4096.
    Bytes { id: u32, octets: Octets },
    /// It has left.
    Left { id: u32 },
}
