//! The places of the numbers that may come next.

ghost use Rattle.std.specs.Prelude.{◌≡◌, ◌+◌, ◌%◌, ◌<◌, ◌≤◌, true, [], ◌∷◌, ◌++◌, length, map, drop, replicate, IfOk, IfSome};
ghost use Rattle.selective_reject.specs.Numbers.{IsModulus};
ghost use Rattle.selective_reject.specs.Places.{empty_place, filled_place, asked_place, misses, is_full, is_missing};
ghost use Rattle.selective_reject.specs.Places.{packet_at, with_packet, with_asked, missing, asked, full_end, first_missing};
ghost use Rattle.selective_reject.specs.Places.{unasked, with_unasked};

use crate::packet::Packet;
use arrayvec::ArrayVec;
use circular_buffer::HeapCircularBuffer;
use std::alloc::Global;
use std::marker::Model;
use tnc_base::OutOfMemory;

/// The largest window of any modulus, and so the most places.
const MOST_PLACES: u8 = 127;

/// The place of one number.
#[derive(Drop)]
pub struct Place {
    /// The packet, if it has come and was not taken.
    pub packet: Option<Packet>,
    /// The number was asked for.
    pub asked: bool,
}

impl Place {
    fn empty() -> Place
        ensures { result ≡ empty_place }
    {
        Place {
            packet: None,
            asked: false,
        }
    }

    fn copy(&self, alloc: Global) -> Result<Place, OutOfMemory>
        ensures { IfOk result (λ copy. copy ≡ self.now) }
    {
        let packet = match &self.packet {
            Some(packet) => Some(packet.copy(alloc)?),
            None => None,
        };
        Ok(Place {
            packet,
            asked: self.asked,
        })
    }

    fn put(&mut self, packet: Packet)
        ensures { self.new ≡ filled_place packet self.old }
    {
        self.packet = Some(packet);
    }

    /// Notes that the number is asked for, if its packet is not there and it was not asked for before, and tells
    /// whether that is so.
    fn ask(&mut self) -> bool
        ensures asked { result ≡ misses self.old }
        ensures place { self.new ≡ asked_place self.old }
    {
        let misses = !self.asked && self.packet.is_none();
        self.asked |= misses;
        misses
    }
}

/// The places of as many numbers as the window has, from the next one to be taken on. There is memory for the largest
/// window.
#[derive(Drop)]
pub(crate) struct Places {
    places: HeapCircularBuffer<Place>,
}

impl Model for Places {
    ghost use Rattle.std.specs.Prelude.{◌≡◌, ◌≤◌, List, length};
    ghost use Rattle.selective_reject.specs.declared.place.Place.{Place};

    ghost Value = { List Place };

    ghost view = { λ s. s.places.items };

    ghost invariant = { λ s. (s.places.capacity ≡ 127) × (length s.places.items ≤ 127) };
}

impl Places {
    pub(crate) fn new(alloc: Global, window: u8) -> Result<Places, OutOfMemory>
        requires { window ≤ 127 }
        ensures { IfOk result (λ places. places ≡ replicate window empty_place) }
    {
        let mut places = HeapCircularBuffer::with_capacity(alloc, usize::from(MOST_PLACES))?;
        fill(&mut places, window);
        Ok(Places { places })
    }

    pub(crate) fn copy(&self, alloc: Global) -> Result<Places, OutOfMemory>
        ensures { IfOk result (λ copy. copy ≡ self.now) }
    {
        let mut places = HeapCircularBuffer::with_capacity(alloc, usize::from(MOST_PLACES))?;
        for place in 0..self.places.len() {
            if let Some(place) = self.places.get(place) {
                places.push_back(place.copy(alloc)?);
            }
        }
        Ok(Places { places })
    }

    pub(crate) fn clear(&mut self, window: u8)
        requires { window ≤ 127 }
        ensures { self.new ≡ replicate window empty_place }
    {
        self.places.clear();
        fill(&mut self.places, window);
    }

    pub(crate) fn is_full(&self, place: u8) -> bool
        ensures { result ≡ is_full self.now place }
    {
        match self.places.get(usize::from(place)) {
            Some(place) => place.packet.is_some(),
            None => false,
        }
    }

    pub(crate) fn put(&mut self, place: u8, packet: Packet)
        requires { place < length self.old }
        ensures { self.new ≡ with_packet self.old place packet }
    {
        if let Some(place) = self.places.get_mut(usize::from(place)) {
            place.put(packet);
        }
    }

    /// The packet of the first place, which goes; an empty place comes after the last.
    pub(crate) fn take(&mut self) -> Option<Packet>
        requires { is_full self.old 0 ≡ true }
        ensures packet { result ≡ packet_at self.old 0 }
        ensures places { self.new ≡ drop 1 self.old ++ empty_place ∷ [] }
    {
        let first = self.places.pop_front()?;
        self.places.push_back(Place::empty());
        first.packet
    }

    /// Asks for those of the first `count` places that miss their packets, and gives their numbers, if the first
    /// place is that of number `vr`.
    pub(crate) fn ask_first(&mut self, count: u8, vr: u8, modulus: u8) -> ArrayVec<u8, 64>
        requires modulus { IsModulus modulus }
        requires vr { vr < modulus }
        requires within { count ≤ length self.old }
        requires at_most_64 { count ≤ 64 }
        ensures numbers { result.items ≡ map (λ k. (vr + k) % modulus) (missing self.old count) }
        ensures places { self.new ≡ asked self.old count }
    {
        let mut numbers = ArrayVec::new();
        for place in 0..count {
            if self.ask(place) {
                numbers.push((vr + place) % modulus);
            }
        }
        numbers
    }

    /// How many places there are up to the last that is full.
    #[tactic(auto, using(crate::proofs::PlaceLemmas::end_more))]
    fn full_end(&self) -> u8
        ensures end { result ≡ full_end self.now }
        ensures within { result ≤ length self.now }
    {
        let mut end = 0;
        for place in 0..self.places.len() as u8 {
            if self.is_full(place) {
                end = place + 1;
            }
        }
        end
    }

    /// The first place that misses its packet while one further on is there.
    #[tactic(auto, using(crate::proofs::PlaceLemmas::first_of_missing, crate::proofs::PlaceLemmas::none_missing_more))]
    pub(crate) fn first_missing(&self) -> Option<u8>
        ensures first { result ≡ first_missing self.now }
        ensures within { IfSome result (λ place. place < length self.now) }
    {
        let end = self.full_end();
        for place in 0..end {
            if self.misses(place) {
                return Some(place);
            }
        }
        None
    }

    /// Whether a packet is neither there nor asked for.
    fn misses(&self, place: u8) -> bool
        requires { place < length self.now }
        ensures { result ≡ is_missing self.now place }
    {
        match self.places.get(usize::from(place)) {
            Some(place) => !place.asked && place.packet.is_none(),
            None => true,
        }
    }

    /// No place is asked for any more.
    #[tactic(auto, using(crate::proofs::PlaceLemmas::unasked_more, crate::proofs::PlaceLemmas::length_unasked_to, crate::proofs::PlaceLemmas::unasked_all))]
    pub(crate) fn unask(&mut self)
        ensures { self.new ≡ unasked self.old }
    {
        for place in 0..self.places.len() as u8 {
            self.unask_at(place);
        }
    }

    fn unask_at(&mut self, place: u8)
        requires { place < length self.old }
        ensures { self.new ≡ with_unasked self.old place }
    {
        if let Some(place) = self.places.get_mut(usize::from(place)) {
            place.asked = false;
        }
    }

    pub(crate) fn ask(&mut self, place: u8) -> bool
        requires { place < length self.old }
        ensures asked { result ≡ is_missing self.old place }
        ensures places { self.new ≡ with_asked self.old place }
    {
        match self.places.get_mut(usize::from(place)) {
            Some(place) => place.ask(),
            None => false,
        }
    }
}

fn fill(places: &mut HeapCircularBuffer<Place>, window: u8)
    requires empty { places.old.items ≡ [] }
    requires capacity { window ≤ places.old.capacity }
    ensures items { places.new.items ≡ replicate window empty_place }
    ensures capacity { places.new.capacity ≡ places.old.capacity }
{
    for _place in 0..window {
        places.push_back(Place::empty());
    }
}
