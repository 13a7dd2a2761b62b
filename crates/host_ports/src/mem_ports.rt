//! Sockets in memory: they give the events of a script, keep what they are sent, and tell all of it.
//!
//! An event of the script is due at the poll of its number. Octets of a paused connection wait, and so does all that
//! comes of that connection after them, until a poll that does not pause it. What is due at a poll that fails is given
//! at the next one.
ghost use Rattle.std.specs.Prelude.{◌≡◌, ◌≢◌, ℕ, ◌≤◌, ◌<◌, ◌+◌, ◌^◌, ◌↔◌, ◌-◌, Bool, true, false, List, Some, [], ◌∷◌};
ghost use Rattle.std.specs.Prelude.{◌++◌, All, Contains, length, take, map, min, if◌then◌else◌, IfOk, OnOk, OnErr};
ghost use Rattle.std.specs.Prelude.{IsErr, IsErrOf, IsTrue};
ghost use Rattle.tnc_base.specs.Faults.{next_count, HasRisen};
ghost use Rattle.host_ports.specs.Sockets.{Poll, Send, MayCome, IsWholePiece, has_come, has_dialed};
ghost use Rattle.host_ports.specs.Scripts.{PortsView, new_ports, due, waiting_of, given_of, joined_in, was_shut};
ghost use Rattle.host_ports.specs.Scripts.{shut_one, with_shut, sent_to, as_told, dialed_id};

use crate::ports::{PollFault, Ports};
use crate::records::{Came, Dial, Listen, PollRecord, Taken};
use crate::script::{came_with, due, part};
use station::HostEvent;
use std::alloc::Global;
use std::marker::Model;
use std::net::Net;
use tnc_base::{Failed, Octets, OutOfMemory};

/// The id of each connection that is dialed.
const DIALED: u32 = 1;

/// Sockets over a script of events.
#[derive(Drop)]
pub struct MemPorts {
    alloc: Global,
    script: Vec<(u64, HostEvent)>,
    failing: Vec<u64>,
    takes: usize,
    calls: u64,
    faults: u64,
    listens: Vec<Listen>,
    dials: Vec<Dial>,
    polls: Vec<PollRecord>,
    waiting: Vec<HostEvent>,
    came: Vec<Came>,
    sends: Vec<Taken>,
}

impl Model for MemPorts {
    ghost use Rattle.std.specs.Prelude.{◌≡◌, ℕ, ◌==◌, true, All};
    ghost use Rattle.std.specs.List.{list_any};
    ghost use Rattle.host_ports.specs.Sockets.{IsWholePiece, has_come, has_dialed};
    ghost use Rattle.host_ports.specs.Scripts.{PortsView};

    ghost Value = { PortsView };

    ghost view = { λ s. record {
      script = s.script.items;
      failing = s.failing.items;
      takes = s.takes;
      calls = s.calls;
      faults = s.faults;
      listens = s.listens.items;
      dials = s.dials.items;
      polls = s.polls.items;
      waiting = s.waiting.items;
      came = s.came.items;
      sends = s.sends.items;
    } };

    ghost invariant = { λ s. All (λ entry. IsWholePiece entry.1) s.script.items
        × All IsWholePiece s.waiting.items
        × ((id : ℕ) → has_come id s.polls.items ≡ true → list_any (λ one. one.id == id) s.came.items ≡ true)
        × ((id : ℕ) → has_dialed id s.dials.items ≡ true → list_any (λ one. one.id == id) s.came.items ≡ true) };
}

impl MemPorts {
    /// Sockets that give each event of the script at the poll of its number, counted from 0. Each send takes at most
    /// `takes` octets, and the calls of `listen`, `dial`, `poll` and `send` whose numbers, counted together from 0, are
    /// in `failing` fail.
    pub fn new(
        alloc: Global,
        script: Vec<(u64, HostEvent)>,
        failing: Vec<u64>,
        takes: usize,
    ) -> MemPorts
        requires { All (λ entry. IsWholePiece entry.1) script.items }
        ensures { result ≡ new_ports script.items failing.items takes }
    {
        MemPorts {
            alloc,
            script,
            failing,
            takes,
            calls: 0,
            faults: 0,
            listens: Vec::new(alloc),
            dials: Vec::new(alloc),
            polls: Vec::new(alloc),
            waiting: Vec::new(alloc),
            came: Vec::new(alloc),
            sends: Vec::new(alloc),
        }
    }

    /// The ports of each listen that did not fail.
    pub fn listens(&self) -> &[Listen]
        ensures { result.now ≡ self.now.listens }
    {
        &self.listens
    }

    /// The dials that did not fail, each with the id that it answered.
    pub fn dials(&self) -> &[Dial]
        ensures { result.now ≡ self.now.dials }
    {
        &self.dials
    }

    /// The polls so far.
    pub fn polls(&self) -> &[PollRecord]
        ensures { result.now ≡ self.now.polls }
    {
        &self.polls
    }

    /// The connections that came or were dialed so far, and which of them were shut.
    pub fn came(&self) -> &[Came]
        ensures { result.now ≡ self.now.came }
    {
        &self.came
    }

    /// The sends that did not fail, each with the octets that it took.
    pub fn sends(&self) -> &[Taken]
        ensures { result.now ≡ self.now.sends }
    {
        &self.sends
    }

    /// Counts a call, and answers whether it is one that fails.
    fn begin(&mut self) -> bool
        ensures fails { IsTrue result ↔ Contains self.old.failing self.old.calls }
        ensures counted { self.new ≡ record self.old { calls = next_count self.old.calls } }
    {
        let fails = self.failing.contains(&self.calls);
        self.calls = self.calls.saturating_add(1);
        fails
    }

    /// Counts a fault.
    fn fail(&mut self)
        ensures counted { self.new ≡ record self.old { faults = next_count self.old.faults } }
        ensures later { self.old.faults ≤ self.new.faults }
    {
        self.faults = self.faults.saturating_add(1);
    }

    /// Records a poll that failed. What was due at it waits for the next one.
    fn poll_in_vain(&mut self, wait_ms: u32, paused: &[u32]) -> Result<(), OutOfMemory>
        ensures polled { OnOk result (self.new ≡ record self.old {
          polls = self.old.polls ++ (record { wait = wait_ms; paused = paused.now; events = [] }) ∷ [];
          waiting = due self.old;
        }) }
        ensures memory { OnErr result (self.new ≡ self.old) }
    {
        let waiting = due(
            self.alloc,
            &self.waiting,
            &self.script,
            self.polls.len() as u64,
        )?;
        let record = PollRecord::new(self.alloc, wait_ms, paused, &[])?;
        self.polls.push(record)?;
        self.waiting = waiting;
        Ok(())
    }

    /// Gives what is due and need not wait.
    fn give(&mut self, wait_ms: u32, paused: &[u32]) -> Result<Vec<HostEvent>, OutOfMemory>
        ensures events { IfOk result (λ events. All (MayCome paused.now) events.items) }
        ensures shut { (id : ℕ) → was_shut self.new.came id ≡ was_shut self.old.came id }
        ensures given { IfOk result (λ events. events.items ≡ given_of paused.now [] (due self.old)) }
        ensures polled { IfOk result (λ events. self.new ≡ record self.old {
          polls = self.old.polls ++ (record { wait = wait_ms; paused = paused.now; events = events.items }) ∷ [];
          waiting = waiting_of paused.now [] (due self.old);
          came = self.old.came ++ joined_in events.items;
        }) }
        ensures memory { OnErr result (self.new ≡ self.old) }
    {
        let all = due(
            self.alloc,
            &self.waiting,
            &self.script,
            self.polls.len() as u64,
        )?;
        let parted = part(self.alloc, &all, paused)?;
        let record = PollRecord::new(self.alloc, wait_ms, paused, &parted.given)?;
        let came = came_with(self.alloc, &self.came, &parted.given)?;
        self.polls.push(record)?;
        self.waiting = parted.waiting;
        self.came = came;
        Ok(parted.given)
    }

    /// Records a connection that is dialed, and takes the room to record that it is shut.
    fn add_dial(&mut self, port: u16) -> Result<(), OutOfMemory>
        ensures opened { OnOk result (self.new ≡ record self.old {
          dials = self.old.dials ++ (record { port = port; id = dialed_id }) ∷ [];
          came = self.old.came ++ (record { id = dialed_id; shut = false }) ∷ [];
        }) }
        ensures shut { (id : ℕ) → was_shut self.new.came id ≡ was_shut self.old.came id }
        ensures memory { OnErr result (self.new ≡ self.old) }
    {
        let mut came = self.came.to_vec(self.alloc)?;
        came.push(Came {
            id: DIALED,
            shut: false,
        })?;
        self.dials.push(Dial { port, id: DIALED })?;
        self.came = came;
        Ok(())
    }

    /// Takes a first part of the octets.
    fn accept(&mut self, id: u32, octets: &[u8]) -> Result<usize, OutOfMemory>
        ensures count { IfOk result (λ count. count ≡ min (length octets.now) self.old.takes) }
        ensures taken { IfOk result (λ count. self.new ≡ record self.old {
          sends = self.old.sends ++ (record {
            id = id;
            polls = length self.old.polls;
            offered = length octets.now;
            octets = take count octets.now;
          }) ∷ [];
        }) }
        ensures memory { OnErr result (self.new ≡ self.old) }
    {
        let count = octets.len().min(self.takes);
        let taken = Taken {
            id,
            polls: self.polls.len(),
            offered: octets.len(),
            octets: Octets::from_slice(self.alloc, &octets[..count])?,
        };
        self.sends.push(taken)?;
        Ok(count)
    }
}

impl Ports for MemPorts {
    ghost told = { λ s. record {
      listens = Some s.listens;
      dials = Some s.dials;
      polls = Some s.polls;
      sends = Some (map as_told s.sends);
      sent = λ id. Some (sent_to id s.sends);
      is_shut = λ id. Some (was_shut s.came id);
      faults = s.faults;
    } };

    fn listen<R: Net>(&mut self, _rt: &R, at: Listen) -> Result<(), Failed>
        ensures fails { Contains self.old.failing self.old.calls → IsErr result }
        ensures opened { OnOk result (self.new ≡ record self.old {
          calls = next_count self.old.calls;
          listens = self.old.listens ++ at ∷ [];
        }) }
        ensures failed { OnErr result (self.new ≡ record self.old {
          calls = next_count self.old.calls;
          faults = next_count self.old.faults;
        }) }
        ensures later { self.old.faults ≤ self.new.faults }
    {
        if self.begin() || self.listens.push(at).is_err() {
            self.fail();
            return Err(Failed);
        }
        Ok(())
    }

    fn dial<R: Net>(&mut self, _rt: &R, port: u16) -> Result<u32, Failed>
        ensures fails { Contains self.old.failing self.old.calls → IsErr result }
        ensures id { IfOk result (λ id. id ≡ dialed_id) }
        ensures opened { OnOk result (self.new ≡ record self.old {
          calls = next_count self.old.calls;
          dials = self.old.dials ++ (record { port = port; id = dialed_id }) ∷ [];
          came = self.old.came ++ (record { id = dialed_id; shut = false }) ∷ [];
        }) }
        ensures failed { OnErr result (self.new ≡ record self.old {
          calls = next_count self.old.calls;
          faults = next_count self.old.faults;
        }) }
        ensures shut { (id : ℕ) → was_shut self.new.came id ≡ was_shut self.old.came id }
        ensures later { self.old.faults ≤ self.new.faults }
    {
        if self.begin() || self.add_dial(port).is_err() {
            self.fail();
            return Err(Failed);
        }
        Ok(DIALED)
    }

    fn poll<R: Net>(
        &mut self,
        _rt: &R,
        wait_ms: u32,
        paused: &[u32],
    ) -> Result<Vec<HostEvent>, PollFault>
        ensures fails { Contains self.old.failing self.old.calls → IsErr result }
        ensures given { IfOk result (λ events. events.items ≡ given_of paused.now [] (due self.old)) }
        ensures polled { IfOk result (λ events. self.new ≡ record self.old {
          calls = next_count self.old.calls;
          polls = self.old.polls ++ (record { wait = wait_ms; paused = paused.now; events = events.items }) ∷ [];
          waiting = waiting_of paused.now [] (due self.old);
          came = self.old.came ++ joined_in events.items;
        }) }
        ensures failed { IsErrOf result PollFault.Failed → self.new ≡ record self.old {
          calls = next_count self.old.calls;
          faults = next_count self.old.faults;
          polls = self.old.polls ++ (record { wait = wait_ms; paused = paused.now; events = [] }) ∷ [];
          waiting = due self.old;
        } }
        ensures memory { IsErrOf result PollFault.Memory
            → self.new ≡ record self.old { calls = next_count self.old.calls } }
        ensures listed { IsErrOf result PollFault.Failed → Contains self.old.failing self.old.calls }
        ensures events { IfOk result (λ events. All (MayCome paused.now) events.items) }
        ensures shut { (id : ℕ) → was_shut self.new.came id ≡ was_shut self.old.came id }
        ensures later { self.old.faults ≤ self.new.faults }
    {
        if self.begin() {
            self.poll_in_vain(wait_ms, paused)?;
            self.fail();
            return Err(PollFault::Failed);
        }
        Ok(self.give(wait_ms, paused)?)
    }

    fn send<R: Net>(&mut self, _rt: &R, id: u32, octets: &[u8]) -> Result<usize, Failed>
        ensures fails { Contains self.old.failing self.old.calls → IsErr result }
        ensures count { IfOk result (λ count. count ≡ min (length octets.now) self.old.takes) }
        ensures taken { IfOk result (λ count. self.new ≡ record self.old {
          calls = next_count self.old.calls;
          sends = self.old.sends ++ (record {
            id = id;
            polls = length self.old.polls;
            offered = length octets.now;
            octets = take count octets.now;
          }) ∷ [];
        }) }
        ensures failed { OnErr result (self.new ≡ record self.old {
          calls = next_count self.old.calls;
          faults = next_count self.old.faults;
        }) }
        ensures later { self.old.faults ≤ self.new.faults }
    {
        let fails = self.begin();
        if !fails {
            if let Ok(count) = self.accept(id, octets) {
                return Ok(count);
            }
        }
        self.fail();
        Err(Failed)
    }

    fn shut(&mut self, id: u32)
        ensures came { self.new ≡ record self.old { came = with_shut id self.old.came } }
        ensures shut { has_come id self.old.polls ≡ true → was_shut self.new.came id ≡ true }
        ensures shut_dialed { has_dialed id self.old.dials ≡ true → was_shut self.new.came id ≡ true }
        ensures others { (other : ℕ) → other ≢ id → was_shut self.new.came other ≡ was_shut self.old.came other }
    {
        shut_all_of(id, &mut self.came);
    }
}

/// Shuts all connections of an id.
fn shut_all_of(id: u32, came: &mut Vec<Came>)
    ensures { came.new.items ≡ with_shut id came.old.items }
{
    for at in 0..came.len() {
        shut_one(id, &mut came[at]);
    }
}

/// Shuts a connection of the id.
fn shut_one(id: u32, one: &mut Came)
    ensures { one.new ≡ shut_one id one.old }
{
    if one.id == id {
        one.shut = true;
    }
}
