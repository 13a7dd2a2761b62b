//! Hosts call: a message of kind C, v or c makes a link and calls along it, or is answered with d.
ghost use Rattle.std.specs.Prelude.{◌≡◌, ◌<◌, ◌==◌, if◌then◌else◌, [], count_by, is_some, IfOk, OnOk, IsTrue, Some};
ghost use Rattle.std.specs.Prelude.{option_map, true, OnErr};
ghost use Rattle.agwpe_port.specs.Messages.{spelling};
ghost use Rattle.station.specs.AgwKinds.{connect_via_kind};
ghost use Rattle.station.specs.AgwRequests.{IsCall, IsCallMade, called_pid, called_route, may_call, refused_reply};
ghost use Rattle.station.specs.Held.{ids_in};
ghost use Rattle.station.specs.HeldRoutes.{as_route, route_held};
ghost use Rattle.station.specs.Registrations.{is_number, registrar};
ghost use Rattle.station.specs.Routes.{repeaters_in};
ghost use Rattle.station.specs.StandsFor.{AreParts, Shows};
ghost use Rattle.station.specs.State.{StationState};
ghost use Rattle.station.specs.Turn.{Turn, with_piece};

use crate::call_fields::{sent_back, text_of};
use crate::host_out::HostOut;
use crate::link_event::LinkEvent;
use crate::memory::Memory;
use crate::messages::{self, DISCONNECTED, station_text};
use crate::new_links::{NO_LAYER_3, pid_or};
use crate::parts::Parts;
use crate::routes::{Route, repeaters_in, route_in};
use agwpe_port::AgwMessage;
use arrayvec::ArrayVec;
use ax25_address::Call;
use tnc_base::{Octets, OutOfMemory};

impl Parts {
    /// Calls for a connection along the route of a message. It is answered with d if the message tells no route, the
    /// connection has not registered the local call, that link exists, or 64 links do.
    pub(crate) fn call(
        &mut self,
        memory: &mut Memory,
        out: &mut HostOut,
        id: u32,
        message: &AgwMessage,
    ) -> Result<(), OutOfMemory>
        ensures step { (turn : Turn) → Shows self.old out.old turn → OnOk result ((following : Turn)
            × IsCall id message.now (called_route message.now) turn following × Shows self.new out.new following) }
        ensures ids { OnOk result (ids_in self.new ≡ ids_in self.old) }
        ensures closed { OnOk result (out.new.closed ≡ out.old.closed) }
        ensures wanted { OnErr result (memory.new.refused ≡ true) }
    {
        let Some(route) = called_route(message) else {
            return refuse(memory, out, id, message);
        };
        if !self.may_call(id, &route) {
            return refuse(memory, out, id, message);
        }
        self.connect(memory, out, id, called_pid(message), &route)
    }

    /// Makes a link along a route and calls.
    fn connect(
        &mut self,
        memory: &mut Memory,
        out: &mut HostOut,
        id: u32,
        pid: u8,
        route: &Route,
    ) -> Result<(), OutOfMemory>
        requires { count_by is_some self.old.links.places < 64 }
        ensures made { (turn : Turn) → Shows self.old out.old turn → OnOk result ((following : Turn)
            × IsCallMade id pid (as_route route.now) turn following × Shows self.new out.new following) }
        ensures ids { OnOk result (ids_in self.new ≡ ids_in self.old) }
        ensures closed { OnOk result (out.new.closed ≡ out.old.closed) }
        ensures wanted { OnErr result (memory.new.refused ≡ true) }
    {
        let key = self.make_link(memory, id, pid, route.local, route.remote, route.path())?;
        self.link_event(memory, out, key, LinkEvent::Connect)
    }

    /// Whether the connection has registered the local call of a route, no link has its calls, and there is room.
    fn may_call(&self, id: u32, route: &Route) -> bool
        ensures may { (s : StationState) → AreParts self.now s → result ≡ may_call id (as_route route.now) s }
        ensures room { IsTrue result → count_by is_some self.now.links.places < 64 }
    {
        if !self.has_registered(id, &route.local) {
            return false;
        }
        if self
            .links
            .key_between(&route.local, &route.remote)
            .is_some()
        {
            return false;
        }
        self.links.has_room()
    }

    /// Whether the connection has registered a call.
    fn has_registered(&self, id: u32, call: &Call) -> bool
        ensures { result ≡ is_number id (registrar call.now self.now.registrations.items) }
    {
        match self.registrar(call) {
            Some(owner) => owner == id,
            None => false,
        }
    }
}

/// The route along which a message calls.
fn called_route(message: &AgwMessage) -> Option<Route>
    ensures { route_held result ≡ called_route message.now }
{
    route_in(&message.from, &message.to, called_repeaters(message))
}

/// The repeaters of a call: kind v alone names some.
fn called_repeaters(message: &AgwMessage) -> Option<ArrayVec<Call, 8>>
    ensures { option_map (λ calls. calls.items) result ≡ (if message.now.kind == connect_via_kind
        then repeaters_in message.now.body else Some []) }
{
    if message.kind != b'v' {
        return Some(ArrayVec::new());
    }
    repeaters_in(message.body.as_slice())
}

/// The PID of the data of the link that a message calls for.
fn called_pid(message: &AgwMessage) -> u8
    ensures { result ≡ called_pid message.now }
{
    if message.kind == b'c' {
        pid_or(NO_LAYER_3, message.pid)
    } else {
        NO_LAYER_3
    }
}

/// Answers a call that is not made.
fn refuse(
    memory: &mut Memory,
    out: &mut HostOut,
    id: u32,
    message: &AgwMessage,
) -> Result<(), OutOfMemory>
    ensures sent { OnOk result (out.new ≡ with_piece id (spelling (refused_reply message.now)) out.old) }
    ensures wanted { OnErr result (memory.new.refused ≡ true) }
{
    let octets = refusal(memory, message)?;
    out.send(memory, id, octets)
}

/// The answer: d with the calls swapped, each a call in its one text or else as it came.
fn refusal(memory: &mut Memory, message: &AgwMessage) -> Result<Octets, OutOfMemory>
    ensures spelled { IfOk result (λ octets. octets ≡ spelling (refused_reply message.now)) }
    ensures wanted { OnErr result (memory.new.refused ≡ true) }
{
    let remote = sent_back(message.to);
    let local = sent_back(message.from);
    let text = station_text(memory, DISCONNECTED, text_of(&remote))?;
    messages::message(memory, b'd', 0, remote, local, &text)
}
