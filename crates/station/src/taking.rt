//! Octets of a connection.
ghost use Rattle.std.specs.Prelude.{◌≡◌, ◌≢◌, ℕ, [], All, None, OnOk, IfOk, IfSome, true, OnErr};
ghost use Rattle.station.specs.Connections.{connection_of};
ghost use Rattle.station.specs.Held.{ClosesIds, ids_in, without_ids};
ghost use Rattle.station.specs.HeldConnections.{HasIdAt};
ghost use Rattle.station.specs.HeldReading.{IsSaid};
ghost use Rattle.station.specs.Host.{AreTaken, taking, ending};
ghost use Rattle.station.specs.StandsFor.{Shows};
ghost use Rattle.station.specs.Turn.{Out, Turn};

use crate::host_out::HostOut;
use crate::memory::Memory;
use crate::parts::Parts;
use crate::reading::Said;
use tnc_base::OutOfMemory;

impl Parts {
    /// What the octets of a connection ask. Past a header that tells too long a body, and if its first octets are those
    /// of a program of the web, it is closed and has left.
    pub(crate) fn take(
        &mut self,
        memory: &mut Memory,
        out: &mut HostOut,
        id: u32,
        octets: &[u8],
    ) -> Result<(), OutOfMemory>
        ensures step { (turn : Turn) → Shows self.old out.old turn → OnOk result ((following : Turn)
            × AreTaken (connection_of id turn.now.connections) octets.now turn following × Shows self.new out.new following) }
        ensures ids { OnOk result (out.old.closed ≡ []
            → ids_in self.new ≡ without_ids out.new.closed (ids_in self.old)) }
        ensures wanted { OnErr result (memory.new.refused ≡ true) }
    {
        let Some(place) = self.place_of(id) else {
            return Ok(());
        };
        match self.read_at(memory, id, place, octets)? {
            Said::Items(items, web) => {
                self.heed_all(memory, out, id, &items)?;
                self.end(memory, out, id, web)
            }
            Said::Messages(messages, failed) => {
                self.answer_all(memory, out, id, &messages)?;
                self.end(memory, out, id, failed)
            }
        }
    }

    /// The place of a connection.
    pub(crate) fn place_of(&self, id: u32) -> Option<usize>
        ensures place { IfSome result (λ place. HasIdAt id place self.now.connections.items) }
        ensures none { result ≡ None → All (λ connection. connection.id ≢ id) self.now.connections.items }
    {
        for place in 0..self.connections.len() {
            if self.connections[place].id == id {
                return Some(place);
            }
        }
        None
    }

    /// Reads octets of the connection of a place.
    fn read_at(
        &mut self,
        memory: &mut Memory,
        id: u32,
        place: usize,
        octets: &[u8],
    ) -> Result<Said, OutOfMemory>
        requires { HasIdAt id place self.old.connections.items }
        ensures shows { (out : Out) (turn : Turn) → Shows self.old out turn
            → OnOk result (Shows self.new out (taking id octets.now turn)) }
        ensures said { (out : Out) (turn : Turn) → Shows self.old out turn
            → IfOk result (λ said. IsSaid (connection_of id turn.now.connections) octets.now said) }
        ensures ids { OnOk result (ids_in self.new ≡ ids_in self.old) }
        ensures wanted { OnErr result (memory.new.refused ≡ true) }
    {
        let ticks = self.ticks;
        let connection = &mut self.connections[place];
        connection.came = ticks;
        connection.reader.read(memory, octets)
    }

    /// Shuts a connection that is to be read no further.
    fn end(
        &mut self,
        memory: &mut Memory,
        out: &mut HostOut,
        id: u32,
        ends: bool,
    ) -> Result<(), OutOfMemory>
        ensures shows { (turn : Turn) → Shows self.old out.old turn
            → OnOk result (Shows self.new out.new (ending id ends turn)) }
        ensures ids { OnOk result (ClosesIds self.old out.old self.new out.new) }
        ensures wanted { OnErr result (memory.new.refused ≡ true) }
    {
        if !ends {
            return Ok(());
        }
        self.shut(memory, out, id)
    }
}
