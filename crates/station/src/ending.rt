//! Hosts end links.
ghost use Rattle.std.specs.Prelude.{◌≡◌, OnOk, true, OnErr};
ghost use Rattle.station.specs.AgwRequests.{disconnecting, own_key};
ghost use Rattle.station.specs.Held.{ids_in};
ghost use Rattle.station.specs.StandsFor.{Shows};
ghost use Rattle.station.specs.Turn.{Turn};

use crate::host_out::HostOut;
use crate::link_event::LinkEvent;
use crate::memory::Memory;
use crate::parts::Parts;
use agwpe_port::AgwMessage;
use tnc_base::OutOfMemory;

impl Parts {
    /// Disconnects the connection's link between the calls of a message. Ignored if there is none.
    pub(crate) fn disconnect(
        &mut self,
        memory: &mut Memory,
        out: &mut HostOut,
        id: u32,
        message: &AgwMessage,
    ) -> Result<(), OutOfMemory>
        ensures shows { (turn : Turn) → Shows self.old out.old turn → OnOk result (Shows self.new out.new
            (disconnecting (own_key id message.now turn.now.links) turn)) }
        ensures ids { OnOk result (ids_in self.new ≡ ids_in self.old) }
        ensures closed { OnOk result (out.new.closed ≡ out.old.closed) }
        ensures wanted { OnErr result (memory.new.refused ≡ true) }
    {
        match self.links.own_key(id, message) {
            Some(key) => self.link_event(memory, out, key, LinkEvent::Disconnect),
            None => Ok(()),
        }
    }
}
