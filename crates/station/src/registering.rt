//! Calls that hosts register, and frames that they ask to be shown.
ghost use Rattle.std.specs.Prelude.{◌≡◌, not, OnOk, true, OnErr};
ghost use Rattle.agwpe_port.specs.Messages.{spelling};
ghost use Rattle.station.specs.AgwRequests.{monitor_toggled, register_reply, registering, toggled, unregistering};
ghost use Rattle.station.specs.CallFields.{call_in};
ghost use Rattle.station.specs.Held.{ClosesIds, ids_in};
ghost use Rattle.station.specs.Passing.{passing};
ghost use Rattle.station.specs.Registrations.{unregistered};
ghost use Rattle.station.specs.StandsFor.{Shows};
ghost use Rattle.station.specs.Turn.{Out, Turn, changing, with_piece};

use crate::call_fields::{call_in, sent_back};
use crate::connection::Connection;
use crate::host_out::HostOut;
use crate::memory::Memory;
use crate::parts::Parts;
use crate::registration::Registration;
use crate::replies::reply;
use ax25_address::Call;
use tnc_base::OutOfMemory;

impl Parts {
    /// X: registers the call of a field, if it is one that no other connection has. A silent one loses it before.
    pub(crate) fn register(
        &mut self,
        memory: &mut Memory,
        out: &mut HostOut,
        id: u32,
        from: [u8; 10],
    ) -> Result<(), OutOfMemory>
        ensures shows { (turn : Turn) → Shows self.old out.old turn
            → OnOk result (Shows self.new out.new (registering id from (call_in from) (passing id (call_in from) turn))) }
        ensures ids { OnOk result (ClosesIds self.old out.old self.new out.new) }
        ensures wanted { OnErr result (memory.new.refused ≡ true) }
    {
        let Some(call) = call_in(&from) else {
            return reply_registered(memory, out, id, from, false);
        };
        self.pass(memory, out, id, &call)?;
        match self.registrar(&call) {
            Some(other) => reply_registered(memory, out, id, from, other == id),
            None => {
                memory.push(&mut self.registrations, Registration { call, id })?;
                reply_registered(memory, out, id, from, true)
            }
        }
    }

    /// x: ends the connection's registration of the call of a field.
    pub(crate) fn unregister(&mut self, id: u32, from: [u8; 10])
        ensures shows { (out : Out) (turn : Turn) → Shows self.old out turn
            → Shows self.new out (unregistering id (call_in from) turn) }
        ensures ids { ids_in self.new ≡ ids_in self.old }
    {
        let Some(call) = call_in(&from) else {
            return;
        };
        remove_registration(&mut self.registrations, &call, id);
    }

    /// k: turns raw frames to the connection on, or off again.
    pub(crate) fn toggle_raw(&mut self, id: u32)
        ensures shows { (out : Out) (turn : Turn) → Shows self.old out turn
            → Shows self.new out (changing (toggled id) turn) }
        ensures ids { ids_in self.new ≡ ids_in self.old }
    {
        let Some(place) = self.place_of(id) else {
            return;
        };
        toggle_raw(&mut self.connections[place]);
    }

    /// m: turns monitoring by the connection on, or off again.
    pub(crate) fn toggle_monitor(&mut self, id: u32)
        ensures shows { (out : Out) (turn : Turn) → Shows self.old out turn
            → Shows self.new out (changing (monitor_toggled id) turn) }
        ensures ids { ids_in self.new ≡ ids_in self.old }
    {
        let Some(place) = self.place_of(id) else {
            return;
        };
        toggle_monitor(&mut self.connections[place]);
    }
}

/// Turns monitoring on, or off again.
fn toggle_monitor(connection: &mut Connection)
    ensures { connection.new ≡ record connection.old { monitors = not connection.old.monitors } }
{
    connection.monitors = !connection.monitors;
}

/// Turns raw frames on, or off again.
fn toggle_raw(connection: &mut Connection)
    ensures { connection.new ≡ record connection.old { raw = not connection.old.raw } }
{
    connection.raw = !connection.raw;
}

/// Answers X.
fn reply_registered(
    memory: &mut Memory,
    out: &mut HostOut,
    id: u32,
    from: [u8; 10],
    done: bool,
) -> Result<(), OutOfMemory>
    ensures sent { OnOk result (out.new ≡ with_piece id (spelling (register_reply from done)) out.old) }
    ensures closed { OnOk result (out.new.closed ≡ out.old.closed) }
    ensures wanted { OnErr result (memory.new.refused ≡ true) }
{
    reply(
        memory,
        out,
        id,
        b'X',
        sent_back(from),
        [0; 10],
        &[u8::from(done)],
    )
}

/// Ends the registration of a call by a connection.
fn remove_registration(registrations: &mut Vec<Registration>, call: &Call, id: u32)
    ensures { registrations.new.items ≡ unregistered call.now id registrations.old.items }
{
    registrations.retain(|registration| !(registration.call == *call && registration.id == id));
}
