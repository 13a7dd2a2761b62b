//! Calls that pass from a silent connection to another one.
ghost use Rattle.std.specs.Prelude.{◌≡◌, ◌-◌, nat_le, Some, OnOk, true, OnErr};
ghost use Rattle.station.specs.Connections.{connection_of};
ghost use Rattle.station.specs.Held.{ClosesIds};
ghost use Rattle.station.specs.Passing.{is_silent, loser, passing};
ghost use Rattle.station.specs.StandsFor.{AreParts, Shows};
ghost use Rattle.station.specs.State.{StationState};
ghost use Rattle.station.specs.Turn.{Turn};

use crate::host_out::HostOut;
use crate::memory::Memory;
use crate::parts::Parts;
use ax25_address::Call;
use tnc_base::OutOfMemory;

/// How many ticks without octets make a connection a silent one.
const SILENCE: u64 = 6000;

impl Parts {
    /// Shuts the connection that loses a call to this one, if one does.
    pub(crate) fn pass(
        &mut self,
        memory: &mut Memory,
        out: &mut HostOut,
        id: u32,
        call: &Call,
    ) -> Result<(), OutOfMemory>
        ensures shows { (turn : Turn) → Shows self.old out.old turn
            → OnOk result (Shows self.new out.new (passing id (Some call.now) turn)) }
        ensures ids { OnOk result (ClosesIds self.old out.old self.new out.new) }
        ensures wanted { OnErr result (memory.new.refused ≡ true) }
    {
        match self.loser(id, call) {
            Some(other) => self.shut(memory, out, other),
            None => Ok(()),
        }
    }

    /// The connection that loses a call to this one: another that has it, and from which nothing has come for a
    /// minute.
    fn loser(&self, id: u32, call: &Call) -> Option<u32>
        ensures { (s : StationState) → AreParts self.now s → result ≡ loser id call.now s }
    {
        let Some(other) = self.registrar(call) else {
            return None;
        };
        if other == id || !self.is_silent(other) {
            return None;
        }
        Some(other)
    }

    /// Whether a connection is there from which nothing has come for a minute.
    fn is_silent(&self, id: u32) -> bool
        ensures { (s : StationState) → AreParts self.now s
            → result ≡ is_silent s.ticks (connection_of id s.connections) }
    {
        match self.place_of(id) {
            Some(place) => self.ticks.saturating_sub(self.connections[place].came) >= SILENCE,
            None => false,
        }
    }
}
