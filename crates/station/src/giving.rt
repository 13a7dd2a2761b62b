//! Data that a host gives to a link of it, in packets.
ghost use Rattle.std.specs.Prelude.{◌≡◌, ◌*◌, ◌<◌, ◌≤◌, length, IfOk, OnOk, true, OnErr};
ghost use Rattle.station.specs.AgwRequests.{own_key, giving, giving_packets, packet_at, packet_length, packets_of};
ghost use Rattle.station.specs.Held.{ids_in};
ghost use Rattle.station.specs.StandsFor.{Shows};
ghost use Rattle.station.specs.Turn.{Turn};

use crate::host_out::HostOut;
use crate::link_event::LinkEvent;
use crate::memory::Memory;
use crate::parts::Parts;
use agwpe_port::AgwMessage;
use selective_reject::Packet;
use tnc_base::{Octets, OutOfMemory};

/// The most octets of a packet.
const MOST_OCTETS: u16 = 256;

impl Parts {
    /// Gives the body of a message to the connection's link between its calls. Ignored if there is none.
    pub(crate) fn give(
        &mut self,
        memory: &mut Memory,
        out: &mut HostOut,
        id: u32,
        message: &AgwMessage,
    ) -> Result<(), OutOfMemory>
        ensures shows { (turn : Turn) → Shows self.old out.old turn → OnOk result (Shows self.new out.new
            (giving message.now (own_key id message.now turn.now.links) turn)) }
        ensures ids { OnOk result (ids_in self.new ≡ ids_in self.old) }
        ensures closed { OnOk result (out.new.closed ≡ out.old.closed) }
        ensures wanted { OnErr result (memory.new.refused ≡ true) }
    {
        let Some(key) = self.links.own_key(id, message) else {
            return Ok(());
        };
        let pid = self.links.data_pid(key, message.pid);
        self.give_packets(memory, out, key, pid, message.body.as_slice())
    }

    /// Gives octets to the link of a key, in packets of the station's length of which the last may be shorter. A packet that
    /// the link refuses is passed over.
    fn give_packets(
        &mut self,
        memory: &mut Memory,
        out: &mut HostOut,
        key: u32,
        pid: u8,
        octets: &[u8],
    ) -> Result<(), OutOfMemory>
        ensures shows { (turn : Turn) → Shows self.old out.old turn
            → OnOk result (Shows self.new out.new
            (giving_packets key (packets_of (packet_length turn.now.paclen) pid octets.now) turn)) }
        ensures ids { OnOk result (ids_in self.new ≡ ids_in self.old) }
        ensures closed { OnOk result (out.new.closed ≡ out.old.closed) }
        ensures wanted { OnErr result (memory.new.refused ≡ true) }
    {
        let len = packet_length(self.paclen);
        for place in 0..octets.len().div_ceil(len) {
            let packet = packet_at(memory, len, pid, octets, place)?;
            self.link_event(memory, out, key, LinkEvent::Send(packet))?;
        }
        Ok(())
    }
}

/// How many octets go into a packet.
fn packet_length(paclen: u16) -> usize
    ensures length { result ≡ packet_length paclen }
    ensures least { 1 ≤ result }
    ensures most { result ≤ 256 }
{
    usize::from(paclen.min(MOST_OCTETS).max(1))
}

/// The packet at a place.
fn packet_at(
    memory: &mut Memory,
    len: usize,
    pid: u8,
    octets: &[u8],
    place: usize,
) -> Result<Packet, OutOfMemory>
    requires { place * len < length octets.now }
    ensures packet { IfOk result (λ packet. packet ≡ packet_at len pid octets.now place) }
    ensures wanted { OnErr result (memory.new.refused ≡ true) }
{
    let rest = &octets[place * len..];
    let count = rest.len().min(len);
    Ok(Packet {
        pid,
        octets: memory.copy(&rest[..count])?,
    })
}
