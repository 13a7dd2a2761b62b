//! What a call of a station gives.

ghost use Rattle.std.specs.Prelude.{◌≡◌, [], ◌∷◌, ◌++◌, true, OnOk, OnErr};

use crate::memory::Memory;
use channel_access::AirTick;
use std::alloc::Global;
use std::marker::Model;
use tnc_base::{Octets, OutOfMemory};

/// Octets for a connection.
#[derive(Debug, Drop)]
pub struct Piece {
    /// The connection.
    pub id: u32,
    /// What is sent to it.
    pub octets: Octets,
}

/// What one call gives, each in order. Contracts see lists.
#[derive(Debug, Drop)]
pub struct HostOut {
    /// What is sent to connections.
    pub pieces: Vec<Piece>,
    /// The connections that are closed.
    pub closed: Vec<u32>,
    /// The frames of links that joined the transmit queue, without their check sequence.
    pub queued: Vec<Octets>,
}

impl Model for HostOut {
    ghost use Rattle.station.specs.Turn.{Out};

    ghost Value = { Out };

    ghost view = { λ out. record {
      pieces = out.pieces.items;
      closed = out.closed.items;
      queued = out.queued.items;
    } };
}

impl HostOut {
    ghost use Rattle.station.specs.Turn.{told_of};

    /// Nothing yet.
    pub(crate) fn new(alloc: Global) -> HostOut
        ensures { result ≡ record { pieces = []; closed = []; queued = [] } }
    {
        HostOut {
            pieces: Vec::new(alloc),
            closed: Vec::new(alloc),
            queued: Vec::new(alloc),
        }
    }

    /// Octets for a connection.
    pub(crate) fn send(
        &mut self,
        memory: &mut Memory,
        id: u32,
        octets: Octets,
    ) -> Result<(), OutOfMemory>
        ensures sent { OnOk result (self.new
            ≡ record self.old { pieces = self.old.pieces ++ (record { id = id; octets = octets }) ∷ [] }) }
        ensures wanted { OnErr result (memory.new.refused ≡ true) }
    {
        memory.push(&mut self.pieces, Piece { id, octets })
    }

    /// A connection is closed.
    pub(crate) fn close(&mut self, memory: &mut Memory, id: u32) -> Result<(), OutOfMemory>
        ensures closed { OnOk result (self.new ≡ record self.old { closed = self.old.closed ++ id ∷ [] }) }
        ensures wanted { OnErr result (memory.new.refused ≡ true) }
    {
        memory.push(&mut self.closed, id)
    }

    /// Tells of a frame that joins the transmit queue, if it is a link's.
    pub(crate) fn tell_queued(
        &mut self,
        memory: &mut Memory,
        link: Option<u32>,
        octets: &Octets,
    ) -> Result<(), OutOfMemory>
        ensures told { OnOk result (self.new
            ≡ record self.old { queued = self.old.queued ++ told_of link octets.now }) }
        ensures wanted { OnErr result (memory.new.refused ≡ true) }
    {
        if link.is_none() {
            return Ok(());
        }
        let copy = memory.copy(octets.as_slice())?;
        memory.push(&mut self.queued, copy)
    }
}

/// What one tick gives.
#[derive(Debug, Drop)]
pub struct TickOut {
    /// What is sent on the air.
    pub air: AirTick,
    /// What the links gave before, and then what hosts that monitor are shown of it.
    pub out: HostOut,
}
