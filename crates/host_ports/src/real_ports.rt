//! The sockets of the system. They tell nothing, since no contract can know what a socket gives or takes.
//!
//! A poll takes one piece of each connection that may have more octets, and waits only if none is left that may. Each
//! connection, whether it came or was dialed, has an id that none had before.
ghost use Rattle.std.specs.Prelude.{◌≡◌, ◌≢◌, ℕ, List, ◌≤◌, ◌+◌, false, None, All, length, IfOk, OnOk};
ghost use Rattle.std.specs.List.{range_with_len};
ghost use Rattle.std.specs.Prelude.{OnErr, IsErr, IsErrOf};
ghost use Rattle.tnc_base.specs.Faults.{HasRisen, next_count};
ghost use Rattle.host_ports.specs.Hosts.{is_among};
ghost use Rattle.host_ports.specs.RealSockets.{JoinNext, joined_ids};
ghost use Rattle.host_ports.specs.Sockets.{MayCome};

use crate::dialing::connected;
use crate::door::{AGW, Doors, KISS};
use crate::ports::{PollFault, Ports};
use crate::records::Listen;
use crate::sockets::Sockets;
use mio::{Events, Poll};
use station::HostEvent;
use std::alloc::Global;
use std::io;
use std::net::Net;
use std::time::Duration;
use tnc_base::{Failed, OutOfMemory};

/// The most events that the system reports at once.
const MOST_EVENTS: usize = 256;

/// What the system watches, and what it reports of it.
#[derive(Drop)]
struct Watch {
    poll: Poll,
    events: Events<Global>,
}

/// The sockets of the system.
#[derive(Drop)]
pub struct RealPorts {
    alloc: Global,
    /// What a poll needs, from the first listen or dial on.
    watch: Option<Watch>,
    doors: Option<Doors>,
    sockets: Sockets,
    faults: u64,
}

impl RealPorts {
    /// Sockets of which none is open.
    pub fn new(alloc: Global) -> RealPorts
        ensures { (⟦<RealPorts as Ports>⟧.told result).faults ≡ 0 }
    {
        RealPorts {
            alloc,
            watch: None,
            doors: None,
            sockets: Sockets::new(alloc),
            faults: 0,
        }
    }

    /// Opens the ports.
    fn open<R: Net>(&mut self, rt: &R, at: Listen) -> io::Result<()>
        ensures faults { self.new.faults ≡ self.old.faults }
        ensures sockets { self.new.sockets ≡ self.old.sockets }
    {
        let watch = watching(rt, self.alloc, self.watch.take())?;
        let doors = Doors::open(rt, &watch.poll, at);
        self.watch = Some(watch);
        self.doors = Some(doors?);
        Ok(())
    }

    /// Connects to a port, and gives the connection its id.
    fn connect<R: Net>(&mut self, rt: &R, port: u16) -> Result<u32, Failed>
        ensures faults { self.new.faults ≡ self.old.faults }
        ensures new { IfOk result (λ id. (id ≡ self.old.sockets.next) × (self.new.sockets.next ≡ id + 1)) }
    {
        let Ok(stream) = connected(rt, self.alloc, port) else {
            return Err(Failed);
        };
        let Ok(watch) = watching(rt, self.alloc, self.watch.take()) else {
            return Err(Failed);
        };
        let added = self.sockets.add(&watch.poll, stream);
        self.watch = Some(watch);
        match added {
            Ok(Some(id)) => Ok(id),
            Ok(None) => Err(Failed),
            Err(_) => Err(Failed),
        }
    }

    /// Counts a fault.
    fn fail(&mut self)
        ensures later { self.old.faults ≤ self.new.faults }
        ensures counted { self.new ≡ record self.old { faults = next_count self.old.faults } }
    {
        self.faults = self.faults.saturating_add(1);
    }
}

impl Ports for RealPorts {
    ghost told = { λ s. record {
      listens = None;
      dials = None;
      polls = None;
      sends = None;
      sent = λ _. None;
      is_shut = λ _. None;
      faults = s.faults;
    } };

    fn listen<R: Net>(&mut self, rt: &R, at: Listen) -> Result<(), Failed> {
        match self.open(rt, at) {
            Ok(()) => Ok(()),
            Err(_) => {
                self.fail();
                Err(Failed)
            }
        }
    }

    fn dial<R: Net>(&mut self, rt: &R, port: u16) -> Result<u32, Failed>
        ensures new { IfOk result (λ id. (id ≡ self.old.sockets.next) × (self.new.sockets.next ≡ id + 1)) }
        ensures later { self.old.faults ≤ self.new.faults }
        ensures failed { OnErr result (HasRisen self.old.faults self.new.faults) }
    {
        match self.connect(rt, port) {
            Ok(id) => Ok(id),
            Err(_) => {
                self.fail();
                Err(Failed)
            }
        }
    }

    fn poll<R: Net>(
        &mut self,
        _rt: &R,
        wait_ms: u32,
        paused: &[u32],
    ) -> Result<Vec<HostEvent>, PollFault>
        ensures events { IfOk result (λ events. All (MayCome paused.now) events.items) }
        ensures joined { IfOk result (λ events. (count : ℕ)
            × (joined_ids events.items ≡ range_with_len self.old.sockets.next count)
            × (self.new.sockets.next ≡ self.old.sockets.next + count)) }
        ensures later { self.old.faults ≤ self.new.faults }
        ensures failed { IsErrOf result PollFault.Failed → HasRisen self.old.faults self.new.faults }
    {
        let wait = wait_of(self.sockets.is_ready(paused), wait_ms);
        let Some(watch) = &mut self.watch else {
            self.fail();
            return Err(PollFault::Failed);
        };
        if watch.poll.poll(&mut watch.events, Some(wait)).is_err() {
            self.fail();
            return Err(PollFault::Failed);
        }
        note_ready(&watch.events, &mut self.doors, &mut self.sockets);
        let mut events = Vec::new(self.alloc);
        admit(&watch.poll, &mut self.doors, &mut self.sockets, &mut events)?;
        self.sockets.gather(self.alloc, paused, &mut events)?;
        self.sockets.remove_gone();
        Ok(events)
    }

    fn send<R: Net>(&mut self, _rt: &R, id: u32, octets: &[u8]) -> Result<usize, Failed>
        ensures bound { IfOk result (λ count. count ≤ length octets.now) }
        ensures open { is_among id self.old.sockets.ids ≡ false → IsErr result }
        ensures later { self.old.faults ≤ self.new.faults }
        ensures failed { OnErr result (HasRisen self.old.faults self.new.faults) }
    {
        match self.sockets.write(id, octets) {
            Some(count) => Ok(count),
            None => {
                self.fail();
                Err(Failed)
            }
        }
    }

    fn shut(&mut self, id: u32) {
        self.sockets.remove(id);
    }
}

/// What a poll needs: that which is there, or a new one.
fn watching<R: Net>(rt: &R, alloc: Global, watch: Option<Watch>) -> io::Result<Watch> {
    match watch {
        Some(watch) => Ok(watch),
        None => Ok(Watch {
            poll: Poll::new(rt)?,
            events: Events::with_capacity(alloc, MOST_EVENTS)?,
        }),
    }
}

/// How long a poll waits: not at all if a connection may have more octets.
fn wait_of(ready: bool, wait_ms: u32) -> Duration {
    if ready {
        return Duration::ZERO;
    }
    Duration::from_millis(u64::from(wait_ms))
}

/// Notes which ports and connections the system reported.
fn note_ready(events: &Events<Global>, doors: &mut Option<Doors>, sockets: &mut Sockets)
    ensures { sockets.new ≡ sockets.old }
{
    for event in events.iter() {
        match event.token().0 {
            KISS => note_door(doors, KISS),
            AGW => note_door(doors, AGW),
            token => sockets.note(token),
        }
    }
}

fn note_door(doors: &mut Option<Doors>, token: usize) {
    if let Some(doors) = doors {
        doors.note(token);
    }
}

/// Takes the connections that wait, if there are ports for them.
fn admit(
    poll: &Poll,
    doors: &mut Option<Doors>,
    sockets: &mut Sockets,
    events: &mut Vec<HostEvent>,
) -> Result<(), OutOfMemory>
    ensures kept { (paused : List ℕ) → All (MayCome paused) events.old.items
        → OnOk result (All (MayCome paused) events.new.items) }
    ensures joined { OnOk result (JoinNext events.old.items events.new.items sockets.old.next sockets.new.next) }
{
    if let Some(doors) = doors {
        doors.admit(poll, sockets, events)?;
    }
    Ok(())
}
