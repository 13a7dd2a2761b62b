//! Unnumbered frames that hosts send.
ghost use Rattle.std.specs.Prelude.{◌≡◌, [], Some, drop, OnOk, true, OnErr};
ghost use Rattle.station.specs.AgwRequests.{queueing_raw, sending_unnumbered};
ghost use Rattle.station.specs.Held.{ids_in};
ghost use Rattle.station.specs.HeldRoutes.{route_held};
ghost use Rattle.station.specs.Routes.{after_repeaters, repeaters_in, route_in};
ghost use Rattle.station.specs.StandsFor.{Shows};
ghost use Rattle.station.specs.Turn.{Turn};

use crate::frames::written;
use crate::host_out::HostOut;
use crate::memory::Memory;
use crate::new_links::{NO_LAYER_3, pid_or};
use crate::parts::Parts;
use crate::routes::{Route, after_repeaters, repeaters_in, route_in};
use agwpe_port::AgwMessage;
use arrayvec::ArrayVec;
use ax25_frames::{Frame, Kind, Modulus};
use tnc_base::{Octets, OutOfMemory};

/// The most octets that an unnumbered frame carries.
const MOST_INFORMATION: usize = 937;

impl Parts {
    /// K: queues the octets of a body past its first, if they have the length of a frame.
    pub(crate) fn send_raw(
        &mut self,
        memory: &mut Memory,
        out: &mut HostOut,
        id: u32,
        message: &AgwMessage,
    ) -> Result<(), OutOfMemory>
        ensures shows { (turn : Turn) → Shows self.old out.old turn
            → OnOk result (Shows self.new out.new (queueing_raw id (drop 1 message.now.body) turn)) }
        ensures ids { OnOk result (ids_in self.new ≡ ids_in self.old) }
        ensures closed { OnOk result (out.new.closed ≡ out.old.closed) }
        ensures wanted { OnErr result (memory.new.refused ≡ true) }
    {
        let body = message.body.as_slice();
        if body.is_empty() {
            return Ok(());
        }
        self.queue_raw(memory, out, id, &body[1..])
    }

    /// M: an unnumbered frame between the calls of a message.
    pub(crate) fn send_unproto(
        &mut self,
        memory: &mut Memory,
        out: &mut HostOut,
        id: u32,
        message: &AgwMessage,
    ) -> Result<(), OutOfMemory>
        ensures shows { (turn : Turn) → Shows self.old out.old turn → OnOk result (Shows self.new out.new
            (sending_unnumbered id message.now.pid message.now.body
            (route_in message.now.from message.now.to (Some [])) turn)) }
        ensures ids { OnOk result (ids_in self.new ≡ ids_in self.old) }
        ensures closed { OnOk result (out.new.closed ≡ out.old.closed) }
        ensures wanted { OnErr result (memory.new.refused ≡ true) }
    {
        let route = route_in(&message.from, &message.to, Some(ArrayVec::new()));
        self.send_unnumbered(memory, out, id, message.pid, message.body.as_slice(), route)
    }

    /// V: the same by way of the repeaters that the body begins with.
    pub(crate) fn send_unproto_via(
        &mut self,
        memory: &mut Memory,
        out: &mut HostOut,
        id: u32,
        message: &AgwMessage,
    ) -> Result<(), OutOfMemory>
        ensures shows { (turn : Turn) → Shows self.old out.old turn → OnOk result (Shows self.new out.new
            (sending_unnumbered id message.now.pid (after_repeaters message.now.body)
            (route_in message.now.from message.now.to (repeaters_in message.now.body)) turn)) }
        ensures ids { OnOk result (ids_in self.new ≡ ids_in self.old) }
        ensures closed { OnOk result (out.new.closed ≡ out.old.closed) }
        ensures wanted { OnErr result (memory.new.refused ≡ true) }
    {
        let body = message.body.as_slice();
        let route = route_in(&message.from, &message.to, repeaters_in(body));
        self.send_unnumbered(memory, out, id, message.pid, after_repeaters(body), route)
    }

    /// Queues an unnumbered frame of information along a route. Ignored if there is none, or the information is
    /// too long.
    fn send_unnumbered(
        &mut self,
        memory: &mut Memory,
        out: &mut HostOut,
        id: u32,
        pid: u8,
        information: &[u8],
        route: Option<Route>,
    ) -> Result<(), OutOfMemory>
        ensures shows { (turn : Turn) → Shows self.old out.old turn → OnOk result (Shows self.new out.new
            (sending_unnumbered id pid information.now (route_held route) turn)) }
        ensures ids { OnOk result (ids_in self.new ≡ ids_in self.old) }
        ensures closed { OnOk result (out.new.closed ≡ out.old.closed) }
        ensures wanted { OnErr result (memory.new.refused ≡ true) }
    {
        let Some(route) = route else {
            return Ok(());
        };
        if information.len() > MOST_INFORMATION {
            return Ok(());
        }
        let frame = Frame {
            path: route.path(),
            kind: Kind::Ui {
                flag: false,
                pid: pid_or(NO_LAYER_3, pid),
                octets: memory.copy(information)?,
            },
        };
        let octets = written(memory, &frame, Modulus::Eight)?;
        self.queue_for(memory, out, Some(id), None, None, octets)
    }
}
