//! The parts of a station, and the transmit queue that all of them share.
ghost use Rattle.std.specs.Prelude.{◌≡◌, ℕ, ◌<◌, ◌≤◌, ◌↔◌, List, [], ◌∷◌, ◌++◌, length, IfOk, OnOk, IsTrue};
ghost use Rattle.std.specs.Prelude.{OnErr, Option, Some, None, true};
ghost use Rattle.hdlc_framer.specs.FrameLength.{HasFrameLength};
ghost use Rattle.channel_access.specs.Channel.{Channel, with_frame};
ghost use Rattle.channel_access.specs.StandsFor.{StandsFor as StandsForChannel};
ghost use Rattle.station.specs.State.{channel_with};

use crate::asker::Asker;
use crate::config::{Config, LinkParams};
use crate::connection::Connection;
use crate::host_out::HostOut;
use crate::link_table::LinkTable;
use crate::memory::Memory;
use crate::registration::Registration;
use ax25_address::Call;
use channel_access::{Access, Modem, Param, Parameters};
use frame_monitor::HeardStation;
use std::alloc::Global;
use tnc_base::{Octets, OutOfMemory};

/// What a station keeps.
#[derive(Drop)]
pub struct Parts {
    /// The mode and the window of each link.
    pub parameters: LinkParams,
    /// The call of the digipeater, if the station is one.
    pub digi: Option<Call>,
    /// How many octets of a host's data go into a packet, as the station was asked for.
    pub paclen: u16,
    /// The connections, in the order in which they joined.
    pub connections: Vec<Connection>,
    /// The calls that are registered.
    pub registrations: Vec<Registration>,
    /// The links.
    pub links: LinkTable,
    /// The transmit queue and the channel.
    pub channel: Access,
    /// For each frame that waits to be sent, the host that is told when it has been sent, if one is.
    pub askers: Vec<Option<Asker>>,
    /// For each frame that waits to be sent, the connection that gave it as it stands, if one did.
    pub owners: Vec<Option<u32>>,
    /// The stations that were heard last, the last one first.
    pub heard: Vec<HeardStation>,
    /// How many frames found the queue full.
    pub dropped: u64,
    /// How many ticks were made. The count stays at the greatest number of 64 bits.
    pub ticks: u64,
    /// The key of the link that was asked for a frame last.
    pub asked: u32,
}

impl Parts {
    ghost use Rattle.station.specs.State.{StationState, new_station};
    ghost use Rattle.station.specs.Turn.{Out, Turn, dropping, entering_for, queueing, queueing_for};
    ghost use Rattle.station.specs.Held.{ids_in};
    ghost use Rattle.station.specs.StandsFor.{AreParts, Shows};

    /// The parts of a new station.
    pub(crate) fn new(
        alloc: Global,
        parameters: LinkParams,
        config: Config,
        seed: u64,
    ) -> Result<Parts, OutOfMemory>
        requires { parameters ≡ config.params }
        ensures parts { IfOk result (λ parts. AreParts parts (new_station config seed)) }
        ensures no_connection { IfOk result (λ parts. parts.connections.items ≡ []) }
    {
        Ok(Parts {
            parameters,
            digi: config.digi,
            paclen: config.paclen,
            connections: Vec::new(alloc),
            registrations: Vec::new(alloc),
            links: LinkTable::new(alloc)?,
            channel: channel_with(alloc, config.modem, config.channel, seed)?,
            askers: Vec::new(alloc),
            owners: Vec::new(alloc),
            heard: Vec::new(alloc),
            dropped: 0,
            ticks: 0,
            asked: 0,
        })
    }

    /// Puts a frame of the link of a key, or one that is repeated, into the transmit queue, or drops it if 256 wait.
    pub(crate) fn queue(
        &mut self,
        memory: &mut Memory,
        out: &mut HostOut,
        link: Option<u32>,
        octets: Octets,
    ) -> Result<(), OutOfMemory>
        requires { HasFrameLength octets }
        ensures shows { (turn : Turn) → Shows self.old out.old turn
            → OnOk result (Shows self.new out.new (queueing link octets turn)) }
        ensures ids { OnOk result (ids_in self.new ≡ ids_in self.old) }
        ensures closed { OnOk result (out.new.closed ≡ out.old.closed) }
        ensures wanted { OnErr result (memory.new.refused ≡ true) }
    {
        self.queue_for(memory, out, None, None, link, octets)
    }

    /// The same for a frame that a connection gave, if one did: it is dropped only if four of that connection wait. A host
    /// is told when it has been sent, if one is named.
    pub(crate) fn queue_for(
        &mut self,
        memory: &mut Memory,
        out: &mut HostOut,
        owner: Option<u32>,
        asker: Option<Asker>,
        link: Option<u32>,
        octets: Octets,
    ) -> Result<(), OutOfMemory>
        requires { HasFrameLength octets }
        ensures shows { (turn : Turn) → Shows self.old out.old turn
            → OnOk result (Shows self.new out.new (queueing_for owner asker link octets turn)) }
        ensures ids { OnOk result (ids_in self.new ≡ ids_in self.old) }
        ensures closed { OnOk result (out.new.closed ≡ out.old.closed) }
        ensures wanted { OnErr result (memory.new.refused ≡ true) }
    {
        if !self.may_enter(owner) {
            self.drop_frame();
            return Ok(());
        }
        self.enter_for(memory, out, owner, asker, link, octets)
    }

    /// Counts a frame that finds no room.
    fn drop_frame(&mut self)
        ensures shows { (out : Out) (turn : Turn) → Shows self.old out turn → Shows self.new out (dropping turn) }
        ensures ids { ids_in self.new ≡ ids_in self.old }
    {
        self.dropped = self.dropped.saturating_add(1);
    }

    /// Puts a frame that finds room into the transmit queue.
    fn enter_for(
        &mut self,
        memory: &mut Memory,
        out: &mut HostOut,
        owner: Option<u32>,
        asker: Option<Asker>,
        link: Option<u32>,
        octets: Octets,
    ) -> Result<(), OutOfMemory>
        requires length { HasFrameLength octets }
        requires room { length self.old.channel.waiting < 512 }
        ensures shows { (turn : Turn) → Shows self.old out.old turn
            → OnOk result (Shows self.new out.new (entering_for owner asker link octets turn)) }
        ensures ids { OnOk result (ids_in self.new ≡ ids_in self.old) }
        ensures closed { OnOk result (out.new.closed ≡ out.old.closed) }
        ensures wanted { OnErr result (memory.new.refused ≡ true) }
    {
        memory.push(&mut self.askers, asker)?;
        memory.push(&mut self.owners, owner)?;
        out.tell_queued(memory, link, &octets)?;
        enter(&mut self.channel, link, octets);
        Ok(())
    }
}

/// A channel that sends by a modem and has these parameters from the start.
fn channel_with(
    alloc: Global,
    modem: Modem,
    parameters: Parameters,
    seed: u64,
) -> Result<Access, OutOfMemory>
    ensures { IfOk result (λ access. StandsForChannel access (channel_with modem parameters seed)) }
{
    let mut access = Access::new(alloc, modem, seed)?;
    access.set(Param::TxDelay(parameters.tx_delay));
    access.set(Param::Persist(parameters.persist));
    access.set(Param::SlotTime(parameters.slot_time));
    access.set(Param::TxTail(parameters.tx_tail));
    access.set(Param::FullDuplex(parameters.full_duplex));
    Ok(access)
}

/// Puts a frame after all others, if there is room.
fn enter(channel: &mut Access, link: Option<u32>, octets: Octets)
    requires length { HasFrameLength octets }
    requires room { length channel.old.waiting < 512 }
    ensures { (before : Channel) → StandsForChannel channel.old before
        → StandsForChannel channel.new (with_frame link octets before) }
{
    match channel.queue(link, octets) {
        Ok(()) | Err(_) => {}
    }
}
