//! Which events of a script a poll gives.
ghost use Rattle.std.specs.Prelude.{◌≡◌, ◌++◌, [], ◌∷◌, IfOk, OnOk, if◌then◌else◌};
ghost use Rattle.std.specs.List.{list_any};
ghost use Rattle.host_ports.specs.Sockets.{id_of, is_octets_of, is_joining_of};
ghost use Rattle.host_ports.specs.Scripts.{scripted_for, is_paused, has_to_wait, waiting_of, given_of, due_of};
ghost use Rattle.host_ports.specs.Scripts.{joined_of, joined_in};

use crate::records::{Came, copies, copy};
use station::HostEvent;
use std::alloc::Global;
use tnc_base::OutOfMemory;

/// The connection of an event.
pub(crate) fn id_of(event: &HostEvent) -> u32
    ensures { result ≡ id_of event.now }
{
    match event {
        HostEvent::Joined { id, .. } | HostEvent::Bytes { id, .. } | HostEvent::Left { id } => *id,
    }
}

fn is_octets_of(id: u32, event: &HostEvent) -> bool
    ensures { result ≡ is_octets_of id event.now }
{
    match event {
        HostEvent::Bytes { id: other, .. } => *other == id,
        HostEvent::Joined { .. } | HostEvent::Left { .. } => false,
    }
}

fn is_joining(event: &HostEvent) -> bool
    ensures { result ≡ is_joining_of (id_of event.now) event.now }
{
    match event {
        HostEvent::Joined { .. } => true,
        HostEvent::Bytes { .. } | HostEvent::Left { .. } => false,
    }
}

/// Whether some of the events are octets of the connection.
fn has_octets_of(id: u32, events: &[HostEvent]) -> bool
    ensures { result ≡ list_any (is_octets_of id) events.now }
{
    for event in events {
        if is_octets_of(id, event) {
            return true;
        }
    }
    false
}

/// Whether the event, the last of these, has to wait.
fn has_to_wait(paused: &[u32], upto: &[HostEvent], event: &HostEvent) -> bool
    ensures { result ≡ has_to_wait paused.now upto.now event.now }
{
    let id = id_of(event);
    paused.contains(&id) && has_octets_of(id, upto)
}

/// Of the events that are due, those that a poll gives, and those that wait on.
#[derive(Drop)]
pub(crate) struct Parted {
    pub(crate) given: Vec<HostEvent>,
    pub(crate) waiting: Vec<HostEvent>,
}

/// Parts the events that are due at a poll that pauses these ids.
pub(crate) fn part(alloc: Global, due: &[HostEvent], paused: &[u32]) -> Result<Parted, OutOfMemory>
    ensures given { IfOk result (λ parted. parted.given.items ≡ given_of paused.now [] due.now) }
    ensures waiting { IfOk result (λ parted. parted.waiting.items ≡ waiting_of paused.now [] due.now) }
{
    let mut parted = Parted {
        given: Vec::new(alloc),
        waiting: Vec::new(alloc),
    };
    for at in 0..due.len() {
        let event = copy(&due[at])?;
        let waits = has_to_wait(paused, &due[..at + 1], &event);
        parted.add(waits, event)?;
    }
    Ok(parted)
}

impl Parted {
    /// One more event.
    fn add(&mut self, waits: bool, event: HostEvent) -> Result<(), OutOfMemory>
        ensures given { OnOk result (self.new.given.items
            ≡ self.old.given.items ++ (if waits then [] else event ∷ [])) }
        ensures waiting { OnOk result (self.new.waiting.items
            ≡ self.old.waiting.items ++ (if waits then event ∷ [] else [])) }
    {
        if waits {
            self.waiting.push(event)?;
        } else {
            self.given.push(event)?;
        }
        Ok(())
    }
}

/// What is due at the poll of a number: what waits, and then what the script has for it.
pub(crate) fn due(
    alloc: Global,
    waiting: &[HostEvent],
    script: &[(u64, HostEvent)],
    number: u64,
) -> Result<Vec<HostEvent>, OutOfMemory>
    ensures { IfOk result (λ all. all.items ≡ waiting.now ++ scripted_for number script.now) }
{
    let mut all = copies(alloc, waiting)?;
    for entry in script {
        add_due(&mut all, number, entry)?;
    }
    Ok(all)
}

/// The event of an entry, if it is that of the poll.
fn add_due(
    all: &mut Vec<HostEvent>,
    number: u64,
    entry: &(u64, HostEvent),
) -> Result<(), OutOfMemory>
    ensures { OnOk result (all.new.items ≡ all.old.items ++ due_of number entry.now) }
{
    if entry.0 == number {
        all.push(copy(&entry.1)?)?;
    }
    Ok(())
}

/// The connections that came before, and those that join with these events.
pub(crate) fn came_with(
    alloc: Global,
    came: &[Came],
    events: &[HostEvent],
) -> Result<Vec<Came>, OutOfMemory>
    ensures { IfOk result (λ all. all.items ≡ came.now ++ joined_in events.now) }
{
    let mut all = came.to_vec(alloc)?;
    for event in events {
        add_joined(&mut all, event)?;
    }
    Ok(all)
}

/// The connection that joins with an event, if one does.
fn add_joined(all: &mut Vec<Came>, event: &HostEvent) -> Result<(), OutOfMemory>
    ensures { OnOk result (all.new.items ≡ all.old.items ++ joined_of event.now) }
{
    if is_joining(event) {
        all.push(Came {
            id: id_of(event),
            shut: false,
        })?;
    }
    Ok(())
}
