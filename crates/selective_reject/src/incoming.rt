//! What came of a sender's packets.

ghost use Rattle.std.specs.Prelude.{◌≡◌, ℕ, ◌+◌, ◌%◌, ◌<◌, ◌≤◌, ◌↔◌, OnOk, IfOk, if◌then◌else◌, is_some};
ghost use Rattle.std.specs.Prelude.{◌/◌, nat_lt};
ghost use Rattle.std.specs.Result.{IsErrOf};
ghost use Rattle.selective_reject.specs.Numbers.{IsModulus, ahead};
ghost use Rattle.selective_reject.specs.Window.{IsWindow, IsBadWindow, AreFitting};
ghost use Rattle.selective_reject.specs.Incoming.{Incoming, IsIncoming, StandsForIncoming, empty_incoming};
ghost use Rattle.selective_reject.specs.Incoming.{reduced_incoming, took, taking, keeps, after_accept, taken};
ghost use Rattle.selective_reject.specs.Incoming.{after_take, before_number, numbers_to_ask, after_ask, next_missing};
ghost use Rattle.selective_reject.specs.Incoming.{next_to_ask, after_ask_next, unasked_store};
ghost use Rattle.selective_reject.specs.TrueNumbers.{IsInReach, took_truly, after_accept_truly};

use crate::number::ahead;
use crate::packet::Packet;
use crate::place::Places;
use crate::window::{BadWindow, Mode, check_window};
use arrayvec::ArrayVec;
use std::alloc::Global;
use std::marker::Model;
use thiserror::Error;
use tnc_base::OutOfMemory;

/// What became of a numbered packet.
#[derive(Clone, Copy, Debug, Drop, PartialEq, Eq)]
pub enum Took {
    /// It is the next in sequence, and is kept.
    Next,
    /// It is not the next in sequence, and frames out of sequence are not kept.
    NotNext,
    /// It is ahead of a gap, and is kept.
    Stored,
    /// It was there already.
    Again,
    /// It is not in the window.
    Outside,
}

impl Took {
    fn keeps(self) -> bool
        ensures { result ≡ keeps self }
    {
        matches!(self, Took::Next | Took::Stored)
    }
}

/// Why there is no such store.
#[derive(Debug, Drop, PartialEq, Eq, Error)]
pub enum StoreFault {
    /// No link can have this window.
    #[error("bad window {window}")]
    BadWindow { window: u8 },
    /// Want of memory.
    #[error("out of memory")]
    Memory,
}

/// Keeps the packets that came and were not taken: the next one in sequence, and with [`Mode::Srej`] those ahead of a
/// gap.
#[derive(Drop)]
pub struct InStore {
    modulus: u8,
    window: u8,
    mode: Mode,
    // V(R) modulo the modulus.
    vr: u8,
    // The first is that of V(R).
    places: Places,
}

impl Model for InStore {
    ghost use Rattle.selective_reject.specs.Incoming.{Incoming, IsIncoming};

    ghost Value = { Incoming };

    ghost view = { λ s. record
        { modulus = s.modulus; window = s.window; mode = s.mode; vr = s.vr; places = s.places } };

    ghost invariant = { λ s. IsIncoming (record
        { modulus = s.modulus; window = s.window; mode = s.mode; vr = s.vr; places = s.places }) };
}

impl InStore {
    /// An empty store, with V(R) 0. The places of every window are taken here, so [`InStore::begin`] finds its own.
    /// Refuses the windows that [`check_window`] refuses, and else fails only for want of memory.
    pub fn new(alloc: Global, modulus: u8, window: u8, mode: Mode) -> Result<InStore, StoreFault>
        requires { IsModulus modulus }
        ensures empty { IfOk result (λ store. store ≡ empty_incoming modulus window mode) }
        ensures window { OnOk result (IsWindow modulus window mode) }
        ensures bad_window { (refused : ℕ) → IsErrOf result (StoreFault.BadWindow refused)
            ↔ ((refused ≡ window) × IsBadWindow modulus window mode) }
    {
        if let Err(BadWindow { window }) = check_window(modulus, window, mode) {
            return Err(StoreFault::BadWindow { window });
        }
        let Ok(places) = Places::new(alloc, window) else {
            return Err(StoreFault::Memory);
        };
        Ok(InStore {
            modulus,
            window,
            mode,
            vr: 0,
            places,
        })
    }

    /// Takes the packet of a frame with N(S) `ns`, and says what became of it.
    pub fn accept(&mut self, ns: u8, packet: Packet) -> Took
        requires { ns < self.old.modulus }
        ensures took { result ≡ took self.old ns }
        ensures store { self.new ≡ after_accept self.old ns packet }
        // The same by whole numbers that count from 0.
        ensures stands_for { (store : Incoming) → StandsForIncoming self.old store
            → (result ≡ took store ns) × StandsForIncoming self.new (after_accept store ns packet) }
        // If the windows of both ends fit, it is decided as by the true number of the frame.
        ensures true_number { (store : Incoming) (sender number : ℕ) → StandsForIncoming self.old store
            → AreFitting store.modulus store.window sender store.mode → IsInReach store.vr sender number
            → ns ≡ number % store.modulus
            → (result ≡ took_truly store number) × StandsForIncoming self.new (after_accept_truly store number packet) }
        ensures formed { IsIncoming self.new }
    {
        let distance = ahead(self.modulus, self.vr, ns);
        let took = self.taking(distance);
        if took.keeps() {
            self.places.put(distance, packet);
        }
        took
    }

    /// What becomes of a packet so far ahead of V(R).
    fn taking(&self, distance: u8) -> Took
        ensures { result ≡ taking self.now distance }
    {
        match self.mode {
            Mode::Rej if distance != 0 => Took::NotNext,
            Mode::Srej if distance >= self.window => Took::Outside,
            _ if self.places.is_full(distance) => Took::Again,
            _ if distance == 0 => Took::Next,
            _ => Took::Stored,
        }
    }

    /// The same store, in memory of its own.
    pub fn copy(&self, alloc: Global) -> Result<InStore, OutOfMemory>
        ensures { IfOk result (λ copy. copy ≡ self.now) }
    {
        Ok(InStore {
            modulus: self.modulus,
            window: self.window,
            mode: self.mode,
            vr: self.vr,
            places: self.places.copy(alloc)?,
        })
    }

    /// Empties the store, as after [`InStore::new`]: V(R) is 0, and nothing is stored or asked for.
    pub fn clear(&mut self)
        ensures empty { self.new ≡ empty_incoming self.old.modulus self.old.window self.old.mode }
    {
        self.begin(self.modulus, self.window, self.mode);
    }

    /// Empties the store, as after [`InStore::new`] with this modulus, window and mode.
    pub fn begin(&mut self, modulus: u8, window: u8, mode: Mode)
        requires modulus { IsModulus modulus }
        requires window { IsWindow modulus window mode }
        ensures empty { self.new ≡ empty_incoming modulus window mode }
    {
        self.modulus = modulus;
        self.window = window;
        self.mode = mode;
        self.vr = 0;
        self.places.clear(window);
    }

    /// The packet with number V(R), if it is there; V(R) then rises by one.
    pub fn take(&mut self) -> Option<Packet>
        ensures packet { result ≡ taken self.old }
        ensures store { self.new ≡ reduced_incoming (after_take self.old) }
        ensures stands_for { (store : Incoming) → StandsForIncoming self.old store
            → (result ≡ taken store) × StandsForIncoming self.new (after_take store) }
        ensures formed { IsIncoming self.new }
    {
        if !self.places.is_full(0) {
            return None;
        }
        self.vr = (self.vr + 1) % self.modulus;
        self.places.take()
    }

    /// The numbers from V(R) up to `ns`, `ns` not among them, that are neither stored nor asked for, rising. They are
    /// then asked for. None if `ns` is not in the window.
    pub fn ask(&mut self, ns: u8) -> ArrayVec<u8, 64>
        requires mode { self.old.mode ≡ Mode.Srej }
        requires number { ns < self.old.modulus }
        ensures numbers { result.items ≡ numbers_to_ask self.old ns }
        ensures store { self.new ≡ after_ask self.old ns }
        ensures stands_for { (store : Incoming) → StandsForIncoming self.old store
            → (result.items ≡ numbers_to_ask store ns) × StandsForIncoming self.new (after_ask store ns) }
        ensures formed { IsIncoming self.new }
    {
        let count = self.before_number(ns);
        self.places.ask_first(count, self.vr, self.modulus)
    }

    /// Whether `ns` lies ahead of V(R), by less than half the numbers; else it is a repeat.
    pub fn lies_ahead(&self, ns: u8) -> bool
        requires { ns < self.now.modulus }
        ensures ahead { result ≡ nat_lt (ahead self.now.modulus self.now.vr ns) (self.now.modulus / 2) }
    {
        ahead(self.modulus, self.vr, ns) < self.modulus / 2
    }

    /// True if a number is neither stored nor asked for while one above it is stored.
    pub fn is_missing(&self) -> bool
        ensures missing { result ≡ is_some (next_missing self.now) }
        ensures stands_for { (store : Incoming) → StandsForIncoming self.now store
            → result ≡ is_some (next_missing store) }
    {
        self.places.first_missing().is_some()
    }

    /// The lowest such number. It is then asked for.
    pub fn ask_next(&mut self) -> Option<u8>
        ensures number { result ≡ next_to_ask self.old }
        ensures store { self.new ≡ after_ask_next self.old }
        ensures stands_for { (store : Incoming) → StandsForIncoming self.old store
            → (result ≡ next_to_ask store) × StandsForIncoming self.new (after_ask_next store) }
        ensures formed { IsIncoming self.new }
    {
        let place = self.places.first_missing()?;
        self.places.ask(place);
        Some((self.vr + place) % self.modulus)
    }

    /// Nothing is asked for any more.
    pub fn unask(&mut self)
        ensures store { self.new ≡ unasked_store self.old }
        ensures stands_for { (store : Incoming) → StandsForIncoming self.old store
            → StandsForIncoming self.new (unasked_store store) }
        ensures formed { IsIncoming self.new }
    {
        self.places.unask();
    }

    /// How many places from V(R) on stand before that of `ns`: none if it is not in the window.
    fn before_number(&self, ns: u8) -> u8
        requires { ns < self.now.modulus }
        ensures count { result ≡ before_number self.now ns }
        ensures within { result < self.now.window }
        ensures formed { IsIncoming self.now }
    {
        let distance = ahead(self.modulus, self.vr, ns);
        if distance < self.window { distance } else { 0 }
    }

    /// How many numbers there are.
    pub fn modulus(&self) -> u8
        ensures value { result ≡ self.now.modulus }
        ensures formed { IsIncoming self.now }
    {
        self.modulus
    }

    /// How many numbers from V(R) on have a place.
    pub fn window(&self) -> u8
        ensures value { result ≡ self.now.window }
        ensures formed { IsIncoming self.now }
    {
        self.window
    }

    /// What is done with a frame that comes ahead of a gap.
    pub fn mode(&self) -> Mode
        ensures { result ≡ self.now.mode }
    {
        self.mode
    }

    /// V(R), as it is sent in N(R): the number of the next packet in sequence.
    pub fn vr(&self) -> u8
        ensures number { result ≡ self.now.vr }
        ensures stands_for { (store : Incoming) → StandsForIncoming self.now store → result ≡ store.vr % store.modulus }
        ensures formed { IsIncoming self.now }
    {
        self.vr
    }
}
