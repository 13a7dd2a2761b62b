//! What comes from host programs, event by event.
ghost use Rattle.std.specs.Prelude.{◌≡◌, [], OnOk, true, OnErr};
ghost use Rattle.station.specs.Held.{ids_in, ids_after, JoinsAnew};
ghost use Rattle.station.specs.Host.{IsHostTurn};
ghost use Rattle.station.specs.StandsFor.{Shows};
ghost use Rattle.station.specs.Turn.{Turn};

use crate::host_event::HostEvent;
use crate::host_out::HostOut;
use crate::memory::Memory;
use crate::parts::Parts;
use tnc_base::OutOfMemory;

impl Parts {
    /// An event of a connection.
    pub(crate) fn host(
        &mut self,
        memory: &mut Memory,
        out: &mut HostOut,
        event: HostEvent,
    ) -> Result<(), OutOfMemory>
        requires { JoinsAnew event self.old }
        ensures step { (turn : Turn) → Shows self.old out.old turn → OnOk result ((following : Turn)
            × IsHostTurn event turn following × Shows self.new out.new following) }
        ensures ids { OnOk result (out.old.closed ≡ []
            → ids_in self.new ≡ ids_after event out.new.closed (ids_in self.old)) }
        ensures wanted { OnErr result (memory.new.refused ≡ true) }
    {
        match event {
            HostEvent::Joined { id, kind } => self.join(memory, out, id, kind),
            HostEvent::Bytes { id, octets } => self.take(memory, out, id, octets.as_slice()),
            HostEvent::Left { id } => self.leave(memory, out, id),
        }
    }
}
