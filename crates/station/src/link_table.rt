//! The links by their keys.
ghost use Rattle.std.specs.Prelude.{◌≡◌, ℕ, ◌<◌, ◌≤◌, ◌↔◌, List, [], All, IfOk, OnOk, OnErr, IfSome, IsTrue, length};
ghost use Rattle.std.specs.Prelude.{replicate, true, position, count_by, is_some, nat_lt, slice_set, slice_index_or, Some, None};
ghost use Rattle.std.specs.Option.{option_copied, option_or};
ghost use Rattle.link_machine.specs.Sent.{IsWritable};
ghost use Rattle.link_machine.specs.Step.{step, done_of};
ghost use Rattle.station.specs.Asking.{link_wants, wants_from, first_wanting, some_wants, next_wanting};
ghost use Rattle.station.specs.HasFew.{HasFew};
ghost use Rattle.station.specs.HeldLinks.{is_held_between, IsVacant};
ghost use Rattle.station.specs.LinkRequests.{event_of, held_modulus, HasNumbers, stepped_link};
ghost use Rattle.station.specs.Leaving.{without_owner};
ghost use Rattle.station.specs.Links.{Link, Links, link_at};
ghost use Rattle.station.specs.Monitored.{modulus_between};
ghost use Rattle.station.specs.StandsFor.{StandsForLinks};
ghost use Rattle.station.specs.TableSteps.{place_at, HasAt, IsSetAt, settled_at};

use crate::link_event::{LinkEvent, no_acts};
use crate::memory::Memory;
use crate::owned_link::OwnedLink;
use ax25_address::Call;
use ax25_frames::Modulus;
use link_machine::Acts;
use std::alloc::Global;
use std::marker::Model;
use tnc_base::OutOfMemory;

/// The most links at a time.
pub(crate) const MOST_LINKS: u32 = 64;

/// The links of a station. A key is the number of a place.
#[derive(Drop)]
pub struct LinkTable {
    // The link or nothing at each key.
    places: Vec<Option<OwnedLink>>,
    // The key of the next link, if there is room for one.
    next: u32,
}

impl Model for LinkTable {
    ghost use Rattle.station.specs.HeldLinks.{HeldLinks, IsTable};

    ghost Value = { HeldLinks };

    ghost view = { λ table. record { places = table.places.items; next = table.next } };

    ghost invariant = { λ table. IsTable (record { places = table.places.items; next = table.next }) };
}

impl LinkTable {
    /// No link. All memory is taken here.
    pub(crate) fn new(alloc: Global) -> Result<LinkTable, OutOfMemory>
        ensures { IfOk result (λ table. table ≡ record { places = replicate MOST_LINKS None; next = 0 }) }
    {
        let mut places = Vec::with_capacity(alloc, MOST_LINKS as usize)?;
        for _ in 0..MOST_LINKS {
            places.push_reserved(None);
        }
        Ok(LinkTable { places, next: 0 })
    }

    /// Whether each link of the connection holds at most 512 packets.
    pub(crate) fn hold_few(&self, id: u32) -> bool
        ensures { IsTrue result ↔ All (λ place. IfSome place (HasFew id)) self.now.places }
    {
        for place in &self.places {
            if let Some(link) = place
                && !link.has_few(id)
            {
                return false;
            }
        }
        true
    }

    /// The key of the link between two calls.
    pub(crate) fn key_between(&self, local: &Call, remote: &Call) -> Option<u32>
        ensures { result ≡ position (is_held_between local.now remote.now) self.now.places }
    {
        for key in 0..MOST_LINKS {
            if is_between(&self.places[key as usize], local, remote) {
                return Some(key);
            }
        }
        None
    }

    /// How many links there are.
    pub(crate) fn len(&self) -> u32
        ensures count { result ≡ count_by is_some self.now.places }
        ensures most { result ≤ 64 }
    {
        count(&self.places) as u32
    }

    /// Whether there is room for one more.
    pub(crate) fn has_room(&self) -> bool
        ensures { result ≡ nat_lt (count_by is_some self.now.places) 64 }
    {
        self.len() < MOST_LINKS
    }

    /// Puts a link under the key that was freed last, or else under the least vacant one, and tells the key.
    pub(crate) fn insert(&mut self, link: OwnedLink) -> u32
        requires { count_by is_some self.old.places < 64 }
        ensures next { result ≡ self.old.next }
        ensures within { result < 64 }
        ensures vacant { place_at result self.old ≡ None }
        ensures places { self.new.places ≡ slice_set self.old.places result (Some link) }
        ensures there { place_at result self.new ≡ Some link }
        ensures least { (lower : ℕ) → lower < self.new.next → is_some (place_at lower self.new) ≡ true }
    {
        let key = self.next;
        self.places[key as usize] = Some(link);
        self.next = first_vacant(&self.places);
        key
    }

    /// The link of a key.
    pub(crate) fn get(&self, key: u32) -> Option<&OwnedLink>
        ensures { option_copied result ≡ place_at key self.now }
    {
        match self.places.get(key as usize) {
            Some(Some(link)) => Some(link),
            _ => None,
        }
    }

    /// The modulus of the link that a key has; 8 if it has none.
    pub(crate) fn modulus(&self, key: u32) -> Modulus
        ensures { result ≡ held_modulus (place_at key self.now) }
    {
        match self.get(key) {
            Some(link) => link.machine.modulus(),
            None => Modulus::Eight,
        }
    }

    /// The modulus of the link from one call to another, else of the link the other way round, else 8.
    pub(crate) fn modulus_between(&self, first: &Call, second: &Call) -> Modulus
        ensures { (links : Links) → StandsForLinks self.now links
            → result ≡ modulus_between first.now second.now links }
    {
        match self.key_of_both(first, second) {
            Some(key) => self.modulus(key),
            None => Modulus::Eight,
        }
    }

    /// The key of the link from one call to another, or else of the link the other way round.
    fn key_of_both(&self, first: &Call, second: &Call) -> Option<u32>
        ensures { result ≡ option_or (position (is_held_between first.now second.now) self.now.places)
            (position (is_held_between second.now first.now) self.now.places) }
    {
        match self.key_between(first, second) {
            Some(key) => Some(key),
            None => self.key_between(second, first),
        }
    }

    /// The key of the next link that wants to send after the link of a key, round and round.
    pub(crate) fn next_wanting(&self, last: u32) -> Option<u32>
        ensures { (links : Links) → StandsForLinks self.now links → result ≡ next_wanting last links }
    {
        match self.first_wanting(u64::from(last) + 1) {
            Some(key) => Some(key),
            None => self.first_wanting(0),
        }
    }

    /// Whether a link wants to send.
    pub(crate) fn some_wants(&self) -> bool
        ensures { (links : Links) → StandsForLinks self.now links → result ≡ some_wants links }
    {
        self.first_wanting(0).is_some()
    }

    /// The key of the first link that wants to send, from a key on.
    fn first_wanting(&self, start: u64) -> Option<u32>
        ensures { (links : Links) → StandsForLinks self.now links → result ≡ first_wanting start links }
    {
        for key in 0..MOST_LINKS {
            if self.wants_from(start, key) {
                return Some(key);
            }
        }
        None
    }

    /// Whether the link of a key wants to send, if the key is not below `start`.
    fn wants_from(&self, start: u64, key: u32) -> bool
        ensures { (links : Links) → StandsForLinks self.now links → result ≡ wants_from start links key }
    {
        u64::from(key) >= start && self.wants(key)
    }

    /// Whether there is a link of a key that wants to send.
    fn wants(&self, key: u32) -> bool
        ensures { (links : Links) → StandsForLinks self.now links → result ≡ link_wants (link_at key links) }
    {
        match self.get(key) {
            Some(link) => link.wants(),
            None => false,
        }
    }

    /// The event of the link that a key has.
    pub(crate) fn take(
        &mut self,
        memory: &mut Memory,
        key: u32,
        event: LinkEvent,
    ) -> Result<Acts, OutOfMemory>
        requires { HasNumbers event (place_at key self.old) }
        ensures acts { (link : Link) → HasAt key self.old link
            → IfOk result (λ acts. acts ≡ done_of (step link.machine (event_of event))) }
        ensures stands_for { (link : Link) → HasAt key self.old link
            → OnOk result (IsSetAt key self.old self.new (stepped_link (event_of event) link)) }
        ensures writable { IfOk result (λ acts. All IsWritable acts.frames) }
        ensures wanted { OnErr result (memory.new.refused ≡ true) }
    {
        let Some(place) = self.places.get_mut(key as usize) else {
            return Ok(no_acts(memory.alloc()));
        };
        let Some(link) = place else {
            return Ok(no_acts(memory.alloc()));
        };
        link.take(memory, event)
    }

    /// The link of a key has no owner any more.
    pub(crate) fn disown(&mut self, key: u32)
        ensures { (link : Link) → HasAt key self.old link → IsSetAt key self.old self.new (without_owner link) }
    {
        let Some(place) = self.places.get_mut(key as usize) else {
            return;
        };
        let Some(link) = place else {
            return;
        };
        link.disown();
    }

    /// Removes the link of a key if it is idle.
    pub(crate) fn settle(&mut self, key: u32)
        ensures { (link : Link) → HasAt key self.old link
            → self.new ≡ settled_at key self.old link.machine.control.state }
    {
        let Some(link) = self.get(key) else {
            return;
        };
        if !link.is_idle() {
            return;
        }
        self.places[key as usize] = None;
        self.next = key;
    }
}

/// Whether there is a link between two calls in a place.
fn is_between(place: &Option<OwnedLink>, local: &Call, remote: &Call) -> bool
    ensures { result ≡ is_held_between local.now remote.now place.now }
{
    match place {
        Some(link) => link.is_between(local, remote),
        None => false,
    }
}

/// How many places have a value.
fn count<T>(places: &[Option<T>]) -> usize
    ensures { result ≡ count_by is_some places.now }
{
    places.iter().filter(|place| place.is_some()).count()
}

/// The first place without a link; 64 if each has one.
fn first_vacant(places: &[Option<OwnedLink>]) -> u32
    requires { length places.now ≡ MOST_LINKS }
    ensures vacant { count_by is_some places.now < MOST_LINKS → IsVacant result places.now }
    ensures least { (lower : ℕ) → lower < result → is_some (slice_index_or places.now lower None) ≡ true }
{
    for key in 0..MOST_LINKS {
        if places[key as usize].is_none() {
            return key;
        }
    }
    MOST_LINKS
}
