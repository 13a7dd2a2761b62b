//! A script of events, and how sockets in memory give it.

use crate::assertions::assert_equal;
use host_ports::{Dial, MemPorts, Ports};
use station::{HostEvent, PortKind};
use std::alloc::Global;
use std::marker::Model;
use std::net::Net;
use std::process::Abort;
use std::test::Fail;
use tnc_base::{Octets, OutOfMemory};
use tnc_ports::MemLive;

/// The most octets of an event.
const MOST: usize = 17;

/// A script that grows event by event.
#[derive(Drop)]
pub(super) struct Script {
    alloc: Global,
    events: Vec<(u64, HostEvent)>,
}

// No test needs a fact about a script, so its value shows none. Each test is then proved faster.
impl Model for Script {
    ghost use Rattle.std.specs.Prelude.{⊤, All};
    ghost use Rattle.host_ports.specs.Sockets.{IsWholePiece};

    ghost Value = { ⊤ };

    ghost view = { λ _. tt };

    ghost invariant = { λ s. All (λ entry. IsWholePiece entry.1) s.events.items };
}

impl Script {
    pub(super) fn new(alloc: Global) -> Script {
        Script {
            alloc,
            events: Vec::new(alloc),
        }
    }

    /// At the poll of a number a host connects.
    pub(super) fn joins(&mut self, poll: u64, id: u32, kind: PortKind) -> Result<(), OutOfMemory> {
        self.events.push((poll, HostEvent::Joined { id, kind }))?;
        Ok(())
    }

    /// A host brings octets, in pieces.
    pub(super) fn brings(&mut self, poll: u64, id: u32, octets: &[u8]) -> Result<(), OutOfMemory> {
        for piece in octets.chunks(MOST) {
            self.brings_piece(poll, id, piece)?;
        }
        Ok(())
    }

    fn brings_piece(&mut self, poll: u64, id: u32, octets: &[u8]) -> Result<(), OutOfMemory> {
        if octets.is_empty() || octets.len() > MOST {
            return Err(OutOfMemory);
        }
        let octets = Octets::from_slice(self.alloc, octets)?;
        self.events.push((poll, HostEvent::Bytes { id, octets }))?;
        Ok(())
    }

    /// A host goes.
    pub(super) fn leaves(&mut self, poll: u64, id: u32) -> Result<(), OutOfMemory> {
        self.events.push((poll, HostEvent::Left { id }))?;
        Ok(())
    }

    /// Sockets that give the script, and fail at the calls of these numbers. In a box, so that each test that owns them
    /// is proved faster.
    pub(super) fn failing(self, calls: &[u64]) -> Result<Box<MemLive>, OutOfMemory> {
        let failing = calls.to_vec(self.alloc)?;
        let live = MemLive::new(self.alloc, self.events, failing);
        Ok(Box::new(self.alloc, live)?)
    }

    /// Sockets that give the script, and take so many octets a send.
    pub(super) fn taking(self, takes: u32) -> Result<Box<MemLive>, OutOfMemory> {
        let none = Vec::new(self.alloc);
        let live = MemLive::taking(self.alloc, self.events, none, takes);
        Ok(Box::new(self.alloc, live)?)
    }
}

/// The events of a poll as text.
fn polled<R: Net>(
    rt: &R,
    alloc: Global,
    ports: &mut MemPorts,
    paused: &[u32],
) -> Result<String, OutOfMemory> {
    let Ok(events) = ports.poll(rt, 10, paused) else {
        return Ok(String::from_str(alloc, "failed")?);
    };
    names(alloc, &events)
}

/// Each event as a letter and an id: K or A for one that joins by KISS or AGWPE, B for octets, L for one that left.
pub(super) fn names(alloc: Global, events: &[HostEvent]) -> Result<String, OutOfMemory> {
    let mut text = String::new(alloc);
    for event in events {
        match event {
            HostEvent::Joined { id, kind } => match kind {
                PortKind::Kiss => write!(text, "K{id} ")?,
                PortKind::Agw => write!(text, "A{id} ")?,
            },
            HostEvent::Bytes { id, .. } => write!(text, "B{id} ")?,
            HostEvent::Left { id } => write!(text, "L{id} ")?,
        }
    }
    Ok(text)
}

/// Which connections came, and which of them were shut.
pub(super) fn came(alloc: Global, ports: &MemPorts) -> Result<String, OutOfMemory> {
    let mut text = String::new(alloc);
    for one in ports.came() {
        let state = if one.shut { "shut" } else { "open" };
        write!(text, "{}:{state} ", one.id)?;
    }
    Ok(text)
}

/// Two hosts, of which the first brings octets and goes, all of it by the second poll.
fn worked(alloc: Global) -> Result<Box<MemLive>, OutOfMemory> {
    let mut script = Script::new(alloc);
    script.joins(0, 1, PortKind::Agw)?;
    script.joins(0, 2, PortKind::Kiss)?;
    script.brings(1, 1, b"a")?;
    script.leaves(1, 1)?;
    script.brings(1, 2, b"b")?;
    script.brings(2, 2, b"c")?;
    script.failing(&[2])
}

/// Ends the test unless these are the events of a poll.
fn assert_polled<R: Net + Abort>(
    rt: &R,
    alloc: Global,
    ports: &mut MemPorts,
    paused: &[u32],
    want: &str,
) -> Result<(), Fail> {
    let events = polled(rt, alloc, ports, paused)?;
    assert_equal(rt, &events.as_str(), &want);
    Ok(())
}

/// Each row: the connections that a poll pauses, and its events. Poll 1 pauses connection 1, poll 2 fails, and poll 3
/// pauses nobody.
const POLLS: &[(&[u32], &str)] = &[
    (&[], "A1 K2 "),
    (&[1], "B2 "),
    (&[], "failed"),
    (&[], "B1 L1 B2 "),
    (&[], ""),
];

#[test]
fn is_given_poll_by_poll(rt: HostRuntime) -> Result<(), Fail> {
    let mut live = worked(rt.alloc())?;
    for (paused, want) in POLLS {
        assert_polled(&rt, rt.alloc(), &mut live.ports, paused, want)?;
    }
    assert_equal(&rt, &live.ports.polls().len(), &5);
    live.ports.shut(1);
    live.ports.shut(3);
    let came = came(rt.alloc(), &live.ports)?;
    assert_equal(&rt, &came.as_str(), &"1:shut 2:open ");
    Ok(())
}

/// Sockets that dial a host, which brings octets and goes.
fn dialing(alloc: Global, failing: &[u64]) -> Result<Box<MemLive>, OutOfMemory> {
    let mut script = Script::new(alloc);
    script.brings(0, 1, b"a")?;
    script.leaves(0, 1)?;
    script.failing(failing)
}

#[test]
fn gives_the_events_of_a_dialed_connection(rt: HostRuntime) -> Result<(), Fail> {
    let mut live = dialing(rt.alloc(), &[])?;
    assert_equal(&rt, &live.ports.dial(&rt, 8000), &Ok(1));
    assert_equal(
        &rt,
        &live.ports.dials(),
        &[Dial { port: 8000, id: 1 }].as_slice(),
    );
    assert_polled(&rt, rt.alloc(), &mut live.ports, &[], "B1 L1 ")?;
    live.ports.shut(1);
    let came = came(rt.alloc(), &live.ports)?;
    assert_equal(&rt, &came.as_str(), &"1:shut ");
    Ok(())
}

#[test]
fn dials_in_vain_at_a_listed_call(rt: HostRuntime) -> Result<(), Fail> {
    let mut live = dialing(rt.alloc(), &[0])?;
    assert!(rt; live.ports.dial(&rt, 8000).is_err());
    assert!(rt; live.ports.dials().is_empty());
    Ok(())
}
