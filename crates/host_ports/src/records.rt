//! What sockets in memory tell of the calls so far.
ghost use Rattle.std.specs.Prelude.{◌≡◌, IfOk};

use station::HostEvent;
use std::alloc::Global;
use std::marker::Model;
use std::net::Ipv4Addr;
use tnc_base::{Octets, OutOfMemory};

/// The ports of a listen.
#[derive(Clone, Copy, Debug, PartialEq, Eq)]
pub struct Listen {
    /// The address that hosts connect to.
    pub address: Ipv4Addr,
    /// That for KISS, if one is opened.
    pub kiss: Option<u16>,
    /// That for AGWPE, if one is opened.
    pub agw: Option<u16>,
}

/// A connection that was opened.
#[derive(Clone, Copy, Debug, PartialEq, Eq)]
pub struct Dial {
    /// The port.
    pub port: u16,
    /// The connection.
    pub id: u32,
}

/// A poll: what it was asked and what it gave. One that failed has no events.
#[derive(Debug, Drop)]
pub struct PollRecord {
    /// How many milliseconds it waits at most.
    pub wait_ms: u32,
    /// The ids that it pauses.
    pub paused: Vec<u32>,
    /// The events that it gave.
    pub events: Vec<HostEvent>,
}

impl Model for PollRecord {
    ghost use Rattle.host_ports.specs.Sockets.{Poll};

    ghost Value = { Poll };

    ghost view = { λ inside. record {
      wait = inside.wait_ms;
      paused = inside.paused.items;
      events = inside.events.items;
    } };
}

impl PollRecord {
    /// The record of a poll with these events.
    pub(crate) fn new(
        alloc: Global,
        wait_ms: u32,
        paused: &[u32],
        events: &[HostEvent],
    ) -> Result<PollRecord, OutOfMemory>
        ensures { IfOk result (λ made. made ≡ record { wait = wait_ms; paused = paused.now; events = events.now }) }
    {
        Ok(PollRecord {
            wait_ms,
            paused: paused.to_vec(alloc)?,
            events: copies(alloc, events)?,
        })
    }
}

/// A send that did not fail.
#[derive(Debug, Drop)]
pub struct Taken {
    /// The connection.
    pub id: u32,
    /// How many polls there were before it.
    pub polls: usize,
    /// How many octets it was offered.
    pub offered: usize,
    /// Those that it took.
    pub octets: Octets,
}

/// A connection that came or was dialed, and whether it was shut.
#[derive(Clone, Copy, Debug, PartialEq, Eq)]
pub struct Came {
    /// The connection.
    pub id: u32,
    /// Whether it was shut.
    pub shut: bool,
}

/// A copy of an event.
pub(crate) fn copy(event: &HostEvent) -> Result<HostEvent, OutOfMemory>
    ensures { IfOk result (λ same. same ≡ event.now) }
{
    match event {
        HostEvent::Joined { id, kind } => Ok(HostEvent::Joined {
            id: *id,
            kind: *kind,
        }),
        HostEvent::Bytes { id, octets } => Ok(HostEvent::Bytes {
            id: *id,
            octets: octets.clone()?,
        }),
        HostEvent::Left { id } => Ok(HostEvent::Left { id: *id }),
    }
}

/// Copies of events.
pub(crate) fn copies(alloc: Global, events: &[HostEvent]) -> Result<Vec<HostEvent>, OutOfMemory>
    ensures { IfOk result (λ same. same.items ≡ events.now) }
{
    let mut same = Vec::new(alloc);
    for event in events {
        same.push(copy(event)?)?;
    }
    Ok(same)
}
