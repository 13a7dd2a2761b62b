//! Connections that join and leave.
ghost use Rattle.std.specs.Prelude.{◌≡◌, ◌≢◌, [], ◌∷◌, ◌++◌, All, OnOk, true, OnErr};
ghost use Rattle.station.specs.Held.{ids_in, without_ids};
ghost use Rattle.station.specs.Host.{joining};
ghost use Rattle.station.specs.HeldConnections.{kind_of};
ghost use Rattle.station.specs.Owners.{has_room};
ghost use Rattle.station.specs.StandsFor.{Reads, Shows};
ghost use Rattle.station.specs.Turn.{Turn};

use crate::connection::{Connection, Reader};
use crate::host_event::PortKind;
use crate::host_out::HostOut;
use crate::memory::Memory;
use crate::parts::Parts;
use agwpe_port::AgwIn;
use kiss_port::KissHostIn;
use std::alloc::Global;
use tnc_base::OutOfMemory;

/// The most frames of connections that wait, four for each of 64.
const MOST_OWNED: usize = 256;

impl Parts {
    /// A connection joins under a new id, or is closed at once if there is no room for four frames of it.
    pub(crate) fn join(
        &mut self,
        memory: &mut Memory,
        out: &mut HostOut,
        id: u32,
        kind: PortKind,
    ) -> Result<(), OutOfMemory>
        requires { All (λ other. other ≢ id) (ids_in self.old) }
        ensures shows { (turn : Turn) → Shows self.old out.old turn
            → OnOk result (Shows self.new out.new (joining id kind turn)) }
        ensures ids { OnOk result (out.old.closed ≡ []
            → ids_in self.new ≡ without_ids out.new.closed (ids_in self.old ++ id ∷ [])) }
        ensures wanted { OnErr result (memory.new.refused ≡ true) }
    {
        if !has_room(self.connections.len(), self.left_waiting()) {
            return out.close(memory, id);
        }
        let connection = Connection {
            id,
            raw: false,
            monitors: false,
            came: 0,
            reader: new_reader(memory.alloc(), kind),
        };
        memory.push(&mut self.connections, connection)
    }
}

/// Whether there is room for one connection more, when so many are there and so many frames wait of those that left.
fn has_room(there: usize, left: usize) -> bool
    ensures { result ≡ has_room there left }
{
    left <= MOST_OWNED && there < (MOST_OWNED - left) / 4
}

/// What reads a connection that speaks so.
fn new_reader(alloc: Global, kind: PortKind) -> Reader
    ensures { Reads result kind [] }
{
    match kind {
        PortKind::Kiss => Reader::KissReader(KissHostIn::new(alloc)),
        PortKind::Agw => Reader::AgwReader(AgwIn::new(alloc)),
    }
}
