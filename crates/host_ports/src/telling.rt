//! The steps of the station, each with what it says delivered.
ghost use Rattle.std.specs.Prelude.{◌≡◌, ◌≤◌, true, IfOk, OnOk};
ghost use Rattle.std.specs.List.{list_any};
ghost use Rattle.hdlc_framer.specs.FrameLength.{HasFrameLength};
ghost use Rattle.station.specs.Heard.{IsHeard};
ghost use Rattle.station.specs.Held.{IsAdmitted};
ghost use Rattle.station.specs.Host.{IsHostTurn};
ghost use Rattle.host_ports.specs.HeldHosts.{MovesBy, IsKnown, IsKnownBefore, IsAtRest, weight};
ghost use Rattle.host_ports.specs.Hosts.{is_client_of, cutting, IsDelivered, AllHaveLeft, IsHeardStep, IsTickStep, IsStep};

use crate::host_parts::HostParts;
use channel_access::AirTick;
use station::HostEvent;
use tnc_base::OutOfMemory;

impl HostParts {
    /// The station is told of an event.
    fn tell(&mut self, event: HostEvent) -> Result<(), OutOfMemory>
        requires admitted { IsAdmitted event self.old.station }
        requires known { IsKnownBefore event self.old }
        ensures moves { OnOk result (MovesBy (IsDelivered (IsHostTurn event)) self.old self.new) }
        ensures known { OnOk result (IsKnown self.new) }
        ensures lighter { OnOk result (weight self.new ≤ weight self.old) }
    {
        let out = self.station.host(event)?;
        self.deliver(&out)
    }

    /// The station is told of each connection that was shut that it left.
    fn tell_who_left(&mut self) -> Result<(), OutOfMemory>
        requires known { IsKnown self.old }
        ensures moves { OnOk result (MovesBy AllHaveLeft self.old self.new) }
        ensures rest { OnOk result (IsAtRest self.new) }
    {
        while let Some(first) = self.leaving.first() {
            let id = *first;
            self.forget(id);
            self.tell(HostEvent::Left { id })?;
        }
        Ok(())
    }

    /// The station is told of an event, and then of each connection that was shut.
    pub(crate) fn step(&mut self, event: HostEvent) -> Result<(), OutOfMemory>
        requires admitted { IsAdmitted event self.old.station }
        requires known { IsKnownBefore event self.old }
        ensures moves { OnOk result (MovesBy (IsStep (IsHostTurn event)) self.old self.new) }
        ensures rest { OnOk result (IsAtRest self.new) }
    {
        self.tell(event)?;
        self.tell_who_left()
    }

    /// A connection that is there is shut because its send failed, and the station is told.
    pub(crate) fn cut_off(&mut self, id: u32) -> Result<(), OutOfMemory>
        requires there { list_any (is_client_of id) self.old.clients.items ≡ true }
        requires rest { IsAtRest self.old }
        ensures moves { OnOk result (MovesBy (λ before after. AllHaveLeft
            (cutting id before) after) self.old self.new) }
        ensures rest { OnOk result (IsAtRest self.new) }
    {
        self.cut(id)?;
        self.tell_who_left()
    }

    /// The station hears a frame.
    pub(crate) fn hear(&mut self, octets: &[u8]) -> Result<(), OutOfMemory>
        requires length { HasFrameLength octets.now }
        requires rest { IsAtRest self.old }
        ensures moves { OnOk result (MovesBy (IsHeardStep octets.now) self.old self.new) }
        ensures rest { OnOk result (IsAtRest self.new) }
    {
        let out = self.station.heard(octets)?;
        self.deliver(&out)?;
        self.tell_who_left()
    }

    /// A tick of 10 ms.
    pub(crate) fn tick(&mut self, busy: bool) -> Result<AirTick, OutOfMemory>
        requires rest { IsAtRest self.old }
        ensures moves { IfOk result (λ air. MovesBy (IsTickStep busy air) self.old self.new) }
        ensures rest { OnOk result (IsAtRest self.new) }
    {
        let tick = self.station.tick(busy)?;
        self.deliver(&tick.out)?;
        self.tell_who_left()?;
        Ok(tick.air)
    }
}
