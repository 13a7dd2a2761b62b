//! What comes from connections.
ghost use Rattle.std.specs.Prelude.{◌≡◌, ◌≤◌, ℕ, List, [], All, length, OnOk};
ghost use Rattle.station.specs.declared.host_event.HostEvent.{HostEvent};
ghost use Rattle.host_ports.specs.HeldHosts.{MovesBy, IsAtRest};
ghost use Rattle.host_ports.specs.Hosts.{Hosts};
ghost use Rattle.host_ports.specs.HostTurns.{InOrder, IsTried, AreTaken, HasJoined, HasLeft, IsTaken, AreTried};
ghost use Rattle.host_ports.specs.Sockets.{IsWholePiece};

use crate::client::Client;
use crate::clients::is_there;
use crate::host_parts::HostParts;
use crate::id_range;
use crate::outgoing::Outgoing;
use crate::untaken::Untaken;
use station::{HostEvent, PortKind};
use std::alloc::Global;
use std::mem;
use tnc_base::{Octets, OutOfMemory};

impl HostParts {
    /// What waits is tried again, in the order in which it came.
    pub(crate) fn try_untaken(&mut self, alloc: Global) -> Result<(), OutOfMemory>
        requires rest { IsAtRest self.old }
        ensures moves { OnOk result (MovesBy AreTried self.old self.new) }
        ensures rest { OnOk result (IsAtRest self.new) }
    {
        let untaken = mem::replace(&mut self.untaken, Vec::new(alloc));
        for one in untaken {
            self.take_octets(one.id, one.octets)?;
        }
        Ok(())
    }

    /// The events of a poll.
    pub(crate) fn take_all(
        &mut self,
        alloc: Global,
        events: Vec<HostEvent>,
    ) -> Result<(), OutOfMemory>
        requires rest { IsAtRest self.old }
        requires pieces { All IsWholePiece events.items }
        ensures moves { OnOk result (MovesBy (InOrder IsTaken events.items) self.old self.new) }
        ensures rest { OnOk result (IsAtRest self.new) }
    {
        for event in events {
            self.take(alloc, event)?;
        }
        Ok(())
    }

    fn take(&mut self, alloc: Global, event: HostEvent) -> Result<(), OutOfMemory>
        requires rest { IsAtRest self.old }
        requires piece { IsWholePiece event }
        ensures moves { OnOk result (MovesBy (IsTaken event) self.old self.new) }
        ensures rest { OnOk result (IsAtRest self.new) }
    {
        match event {
            HostEvent::Joined { id, kind } => self.join(alloc, id, kind),
            HostEvent::Bytes { id, octets } => self.take_octets(id, octets),
            HostEvent::Left { id } => self.leave(id),
        }
    }

    /// A connection joins, unless it was there before.
    fn join(&mut self, alloc: Global, id: u32, kind: PortKind) -> Result<(), OutOfMemory>
        requires rest { IsAtRest self.old }
        ensures moves { OnOk result (MovesBy (HasJoined id kind) self.old self.new) }
        ensures rest { OnOk result (IsAtRest self.new) }
    {
        if id_range::is_within(id, &self.came) {
            return Ok(());
        }
        id_range::add(&mut self.came, id)?;
        let waiting = Outgoing::new(alloc)?;
        self.clients.push(Client { id, waiting })?;
        self.step(HostEvent::Joined { id, kind })
    }

    /// Octets of a connection that is there are taken, or wait.
    fn take_octets(&mut self, id: u32, octets: Octets) -> Result<(), OutOfMemory>
        requires rest { IsAtRest self.old }
        requires piece { length octets ≤ 17 }
        ensures moves { OnOk result (MovesBy (AreTaken id octets) self.old self.new) }
        ensures rest { OnOk result (IsAtRest self.new) }
    {
        if !is_there(id, &self.clients) {
            return Ok(());
        }
        if self.has_to_wait(id) {
            self.untaken.push(Untaken { id, octets })?;
            return Ok(());
        }
        self.step(HostEvent::Bytes { id, octets })
    }

    /// A connection that is there leaves.
    fn leave(&mut self, id: u32) -> Result<(), OutOfMemory>
        requires rest { IsAtRest self.old }
        ensures moves { OnOk result (MovesBy (HasLeft id) self.old self.new) }
        ensures rest { OnOk result (IsAtRest self.new) }
    {
        if !is_there(id, &self.clients) {
            return Ok(());
        }
        self.forget(id);
        self.step(HostEvent::Left { id })
    }
}
