//! Replies to what hosts ask about the station.
ghost use Rattle.std.specs.Prelude.{◌≡◌, ◌≤◌, length, IfOk, OnOk, true, OnErr};
ghost use Rattle.byteorder.specs.Endian.{little_bytes};
ghost use Rattle.agwpe_port.specs.Messages.{spelling};
ghost use Rattle.station.specs.AgwRequests.{capabilities_of, capabilities_reply, pending_in, pending_reply};
ghost use Rattle.station.specs.AgwRequests.{heard_reply, ports_reply, replying, replying_heard, version_reply};
ghost use Rattle.station.specs.AgwRequests.{waiting_reply};
ghost use Rattle.station.specs.HostMessages.{to_host, no_call};
ghost use Rattle.station.specs.Links.{Links};
ghost use Rattle.station.specs.State.{StationState};
ghost use Rattle.station.specs.StandsFor.{AreParts, Shows, StandsForLinks};
ghost use Rattle.station.specs.Turn.{Turn, with_piece};

use crate::call_fields::sent_back;
use crate::host_out::HostOut;
use crate::link_table::LinkTable;
use crate::memory::Memory;
use crate::messages::message;
use crate::parts::Parts;
use agwpe_port::AgwMessage;
use frame_monitor::{HeardStation, heard_text};
use tnc_base::OutOfMemory;

/// A call field that is not named.
const NO_CALL: [u8; 10] = [0; 10];

impl Parts {
    /// R: the version.
    pub(crate) fn reply_version(
        &self,
        memory: &mut Memory,
        out: &mut HostOut,
        id: u32,
    ) -> Result<(), OutOfMemory>
        ensures shows { (turn : Turn) → Shows self.now out.old turn
            → OnOk result (Shows self.now out.new (replying id version_reply turn)) }
        ensures closed { OnOk result (out.new.closed ≡ out.old.closed) }
        ensures wanted { OnErr result (memory.new.refused ≡ true) }
    {
        reply(
            memory,
            out,
            id,
            b'R',
            NO_CALL,
            NO_CALL,
            &[1, 0, 0, 0, 0, 0, 0, 0],
        )
    }

    /// G: the radio ports.
    pub(crate) fn reply_ports(
        &self,
        memory: &mut Memory,
        out: &mut HostOut,
        id: u32,
    ) -> Result<(), OutOfMemory>
        ensures shows { (turn : Turn) → Shows self.now out.old turn
            → OnOk result (Shows self.now out.new (replying id ports_reply turn)) }
        ensures closed { OnOk result (out.new.closed ≡ out.old.closed) }
        ensures wanted { OnErr result (memory.new.refused ≡ true) }
    {
        reply(
            memory,
            out,
            id,
            b'G',
            NO_CALL,
            NO_CALL,
            b"1;Port1 sound card;\0",
        )
    }

    /// g: how the radio port is set.
    pub(crate) fn reply_capabilities(
        &self,
        memory: &mut Memory,
        out: &mut HostOut,
        id: u32,
    ) -> Result<(), OutOfMemory>
        ensures shows { (turn : Turn) → Shows self.now out.old turn
            → OnOk result (Shows self.now out.new (replying id (capabilities_reply turn.now) turn)) }
        ensures closed { OnOk result (out.new.closed ≡ out.old.closed) }
        ensures wanted { OnErr result (memory.new.refused ≡ true) }
    {
        reply(
            memory,
            out,
            id,
            b'g',
            NO_CALL,
            NO_CALL,
            &self.capabilities(),
        )
    }

    /// The body of g.
    fn capabilities(&self) -> [u8; 12]
        ensures { (s : StationState) → AreParts self.now s → result ≡ capabilities_of s }
    {
        let set = self.channel.parameters();
        [
            0,
            255,
            set.tx_delay,
            set.tx_tail,
            set.persist,
            set.slot_time,
            self.parameters.get().window,
            self.links.len() as u8,
            1,
            0,
            0,
            0,
        ]
    }

    /// Y: how many packets of the link of two calls are not acknowledged.
    pub(crate) fn reply_pending(
        &self,
        memory: &mut Memory,
        out: &mut HostOut,
        id: u32,
        message: &AgwMessage,
    ) -> Result<(), OutOfMemory>
        ensures shows { (turn : Turn) → Shows self.now out.old turn → OnOk result (Shows self.now out.new
            (replying id (pending_reply message.now (pending_in message.now turn.now.links)) turn)) }
        ensures closed { OnOk result (out.new.closed ≡ out.old.closed) }
        ensures wanted { OnErr result (memory.new.refused ≡ true) }
    {
        let from = sent_back(message.from);
        let to = sent_back(message.to);
        let count = self.links.pending(message).to_le_bytes();
        reply(memory, out, id, b'Y', from, to, &count[..4])
    }

    /// y: how many frames wait to be sent.
    pub(crate) fn reply_waiting(
        &self,
        memory: &mut Memory,
        out: &mut HostOut,
        id: u32,
    ) -> Result<(), OutOfMemory>
        ensures shows { (turn : Turn) → Shows self.now out.old turn → OnOk result (Shows self.now out.new
            (replying id (waiting_reply (length turn.now.channel.waiting)) turn)) }
        ensures closed { OnOk result (out.new.closed ≡ out.old.closed) }
        ensures wanted { OnErr result (memory.new.refused ≡ true) }
    {
        let count = self.channel.len().to_le_bytes();
        reply(memory, out, id, b'y', NO_CALL, NO_CALL, &count[..4])
    }

    /// H: the stations that were heard last, each in a message.
    pub(crate) fn reply_heard(
        &self,
        memory: &mut Memory,
        out: &mut HostOut,
        id: u32,
    ) -> Result<(), OutOfMemory>
        ensures shows { (turn : Turn) → Shows self.now out.old turn
            → OnOk result (Shows self.now out.new (replying_heard id turn.now.heard turn)) }
        ensures closed { OnOk result (out.new.closed ≡ out.old.closed) }
        ensures wanted { OnErr result (memory.new.refused ≡ true) }
    {
        for station in &self.heard {
            reply_station(memory, out, id, station)?;
        }
        Ok(())
    }
}

/// Sends a connection a message of a station that was heard.
fn reply_station(
    memory: &mut Memory,
    out: &mut HostOut,
    id: u32,
    station: &HeardStation,
) -> Result<(), OutOfMemory>
    ensures sent { OnOk result (out.new ≡ with_piece id (spelling (heard_reply station.now)) out.old) }
    ensures closed { OnOk result (out.new.closed ≡ out.old.closed) }
    ensures wanted { OnErr result (memory.new.refused ≡ true) }
{
    let text = heard_text(memory.alloc(), station);
    let text = memory.took(text)?;
    reply(memory, out, id, b'H', NO_CALL, NO_CALL, &text)
}

impl LinkTable {
    /// How many packets of the link between the calls of a message are not acknowledged.
    fn pending(&self, message: &AgwMessage) -> usize
        ensures { (links : Links) → StandsForLinks self.now links → result ≡ pending_in message.now links }
    {
        let Some(key) = self.key_of(message) else {
            return 0;
        };
        match self.get(key) {
            Some(link) => link.machine.pending(),
            None => 0,
        }
    }
}

/// Sends a message of a kind to a connection.
pub(crate) fn reply(
    memory: &mut Memory,
    out: &mut HostOut,
    id: u32,
    kind: u8,
    from: [u8; 10],
    to: [u8; 10],
    body: &[u8],
) -> Result<(), OutOfMemory>
    ensures sent { OnOk result (out.new ≡ with_piece id (spelling (to_host kind 0 from to body.now)) out.old) }
    ensures closed { OnOk result (out.new.closed ≡ out.old.closed) }
    ensures wanted { OnErr result (memory.new.refused ≡ true) }
{
    let octets = message(memory, kind, 0, from, to, body)?;
    out.send(memory, id, octets)
}
