//! Connections that leave.
ghost use Rattle.std.specs.Prelude.{◌≡◌, ◌==◌, not, filter, [], ◌∷◌, OnOk, true, OnErr};
ghost use Rattle.station.specs.Held.{ClosesIds, ids_in, without_ids};
ghost use Rattle.station.specs.Leaving.{leaving, giving_up, giving_up_all, shutting, without_host};
ghost use Rattle.station.specs.Registrations.{without_registrations};
ghost use Rattle.station.specs.StandsFor.{Shows};
ghost use Rattle.station.specs.Turn.{Out, Turn, changing};

use crate::asker::remove_askers;
use crate::connection::Connection;
use crate::host_out::HostOut;
use crate::link_event::LinkEvent;
use crate::link_table::MOST_LINKS;
use crate::memory::Memory;
use crate::parts::Parts;
use crate::registration::Registration;
use tnc_base::OutOfMemory;

impl Parts {
    /// A connection leaves: its registrations end, and its links are given up.
    pub(crate) fn leave(
        &mut self,
        memory: &mut Memory,
        out: &mut HostOut,
        id: u32,
    ) -> Result<(), OutOfMemory>
        ensures shows { (turn : Turn) → Shows self.old out.old turn
            → OnOk result (Shows self.new out.new (leaving id turn)) }
        ensures ids { OnOk result (ids_in self.new ≡ without_ids (id ∷ []) (ids_in self.old)) }
        ensures closed { OnOk result (out.new.closed ≡ out.old.closed) }
        ensures wanted { OnErr result (memory.new.refused ≡ true) }
    {
        self.forget(id);
        self.give_up_all(memory, out, id)
    }

    /// Closes a connection, and it has left.
    pub(crate) fn shut(
        &mut self,
        memory: &mut Memory,
        out: &mut HostOut,
        id: u32,
    ) -> Result<(), OutOfMemory>
        ensures shows { (turn : Turn) → Shows self.old out.old turn
            → OnOk result (Shows self.new out.new (shutting id turn)) }
        ensures ids { OnOk result (ClosesIds self.old out.old self.new out.new) }
        ensures wanted { OnErr result (memory.new.refused ≡ true) }
    {
        out.close(memory, id)?;
        self.leave(memory, out, id)
    }

    /// Gives up each link of a connection, in the order of their keys.
    fn give_up_all(
        &mut self,
        memory: &mut Memory,
        out: &mut HostOut,
        id: u32,
    ) -> Result<(), OutOfMemory>
        ensures shows { (turn : Turn) → Shows self.old out.old turn
            → OnOk result (Shows self.new out.new (giving_up_all id turn)) }
        ensures ids { OnOk result (ids_in self.new ≡ ids_in self.old) }
        ensures closed { OnOk result (out.new.closed ≡ out.old.closed) }
        ensures wanted { OnErr result (memory.new.refused ≡ true) }
    {
        for key in 0..MOST_LINKS {
            self.give_up(memory, out, id, key)?;
        }
        Ok(())
    }

    /// Gives up the link of a key, if it is the connection's: it has no owner from then on, and is disconnected.
    fn give_up(
        &mut self,
        memory: &mut Memory,
        out: &mut HostOut,
        id: u32,
        key: u32,
    ) -> Result<(), OutOfMemory>
        ensures shows { (turn : Turn) → Shows self.old out.old turn
            → OnOk result (Shows self.new out.new (giving_up id key turn)) }
        ensures ids { OnOk result (ids_in self.new ≡ ids_in self.old) }
        ensures closed { OnOk result (out.new.closed ≡ out.old.closed) }
        ensures wanted { OnErr result (memory.new.refused ≡ true) }
    {
        let Some(link) = self.links.get(key) else {
            return Ok(());
        };
        if !link.is_of(id) {
            return Ok(());
        }
        self.links.disown(key);
        self.link_event(memory, out, key, LinkEvent::Disconnect)
    }

    /// The connection and its registrations are there no more, and it is told of no frame.
    fn forget(&mut self, id: u32)
        ensures shows { (out : Out) (turn : Turn) → Shows self.old out turn
            → Shows self.new out (changing (without_host id) turn) }
        ensures ids { ids_in self.new ≡ without_ids (id ∷ []) (ids_in self.old) }
    {
        remove_connection(&mut self.connections, id);
        remove_registrations(&mut self.registrations, id);
        remove_askers(&mut self.askers, id);
    }
}

fn remove_connection(connections: &mut Vec<Connection>, id: u32)
    ensures { connections.new.items ≡ filter (λ connection. not (connection.id == id)) connections.old.items }
{
    connections.retain(|connection| connection.id != id);
}

fn remove_registrations(registrations: &mut Vec<Registration>, id: u32)
    ensures { registrations.new.items ≡ without_registrations id registrations.old.items }
{
    registrations.retain(|registration| registration.id != id);
}
