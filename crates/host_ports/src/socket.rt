//! One connection of the system.
//!
//! `mio` reports a change once. So a connection keeps whether it may have more octets, from the event that says so
//! until a read would block, also while it is paused.
ghost use Rattle.std.specs.Prelude.{◌≡◌, ◌≢◌, ℕ, List, ◌<◌, ◌≤◌, All, length, IfSome, OnOk};
ghost use Rattle.host_ports.specs.RealSockets.{joined_ids};
ghost use Rattle.host_ports.specs.Sockets.{MayCome};

use mio::net::TcpStream;
use station::HostEvent;
use std::alloc::Global;
use std::io::{ErrorKind, Read, Write};
use tnc_base::{Octets, OutOfMemory};

/// The most octets of a piece. No more than one frame of a host ends in so many.
const PIECE: usize = 17;

/// The most octets of a read. What a paused connection has given waits in pieces, and each is tried at each turn, so a
/// read gives few of them.
const READ: usize = 16 * PIECE;

/// A connection.
#[derive(Drop)]
pub(crate) struct Socket {
    pub(crate) id: u32,
    pub(crate) stream: TcpStream,
    /// It may have octets that are not read.
    pub(crate) ready: bool,
    /// It has ended, or a read of it failed.
    pub(crate) gone: bool,
}

impl Socket {
    /// Reads once, and gives what came in pieces. The end of a connection, or a fault of it, is that the host has left.
    pub(crate) fn take_piece(
        &mut self,
        alloc: Global,
        events: &mut Vec<HostEvent>,
    ) -> Result<(), OutOfMemory>
        ensures kept { (paused : List ℕ) → All (MayCome paused) events.old.items
            → All (λ id. id ≢ self.old.id) paused → OnOk result (All (MayCome paused) events.new.items) }
        ensures joined { OnOk result (joined_ids events.new.items ≡ joined_ids events.old.items) }
        ensures id { self.new.id ≡ self.old.id }
    {
        let id = self.id;
        let mut buffer = [0; READ];
        match self.stream.read(&mut buffer) {
            Ok(count) if count > 0 => {
                push_pieces(alloc, events, id, &buffer[..count])?;
            }
            Err(fault) if fault.kind() == ErrorKind::WouldBlock => self.ready = false,
            _ => {
                self.gone = true;
                events.push(HostEvent::Left { id })?;
            }
        }
        Ok(())
    }

    /// Writes what the connection, which is that of the id, takes now, or `None` if it fails.
    pub(crate) fn write(&mut self, _id: u32, octets: &[u8]) -> Option<usize>
        requires { self.old.id ≡ _id }
        ensures count { IfSome result (λ count. count ≤ length octets.now) }
        ensures id { self.new.id ≡ _id }
    {
        match self.stream.write(octets) {
            Ok(count) => Some(count),
            Err(fault) if fault.kind() == ErrorKind::WouldBlock => Some(0),
            Err(_) => None,
        }
    }
}

/// Octets of a connection, in pieces.
fn push_pieces(
    alloc: Global,
    events: &mut Vec<HostEvent>,
    id: u32,
    octets: &[u8],
) -> Result<(), OutOfMemory>
    ensures kept { (paused : List ℕ) → All (MayCome paused) events.old.items
        → All (λ other. other ≢ id) paused → OnOk result (All (MayCome paused) events.new.items) }
    ensures joined { OnOk result (joined_ids events.new.items ≡ joined_ids events.old.items) }
{
    for at in 0..octets.len().div_ceil(PIECE) {
        let begin = at * PIECE;
        let end = octets.len().min(begin + PIECE);
        push_piece(alloc, events, id, &octets[begin..end])?;
    }
    Ok(())
}

/// One piece of them.
fn push_piece(
    alloc: Global,
    events: &mut Vec<HostEvent>,
    id: u32,
    octets: &[u8],
) -> Result<(), OutOfMemory>
    requires some { 0 < length octets.now }
    requires few { length octets.now ≤ 17 }
    ensures kept { (paused : List ℕ) → All (MayCome paused) events.old.items
        → All (λ other. other ≢ id) paused → OnOk result (All (MayCome paused) events.new.items) }
    ensures joined { OnOk result (joined_ids events.new.items ≡ joined_ids events.old.items) }
{
    let octets = Octets::from_slice(alloc, octets)?;
    events.push(HostEvent::Bytes { id, octets })?;
    Ok(())
}
