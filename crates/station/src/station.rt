//! The station.
ghost use Rattle.std.specs.Prelude.{◌≡◌, ℕ, ◌<◌, ◌≤◌, ◌↔◌, Bool, true, false, List, [], ◌∷◌, ◌++◌, length, IfOk, OnOk};
ghost use Rattle.std.specs.Prelude.{OnErr, IsErr, IsTrue};
ghost use Rattle.std.specs.Result.{IsErrOf};
ghost use Rattle.link_machine.specs.Params.{IsRefusedWindow};
ghost use Rattle.hdlc_framer.specs.FrameLength.{HasFrameLength};

use crate::config::{Config, LinkParams};
use crate::host_event::HostEvent;
use crate::host_out::{HostOut, TickOut};
use crate::memory::Memory;
use crate::owners::{MOST_OWN, own_waiting};
use crate::parts::Parts;
use ax25_address::Call;
use ax25_frames::Modulus;
use link_machine::NewFault;
use selective_reject::BadWindow;
use std::alloc::Global;
use std::marker::Model;
use tnc_base::OutOfMemory;

/// The links, hosts and channel of one station. It always stands for the state that the calls so far have made, until
/// one of them answers want of memory: from then on it is spent, and each call that may answer that does.
#[derive(Drop)]
pub struct Station {
    memory: Memory,
    parts: Parts,
}

impl Model for Station {
    ghost use Rattle.station.specs.Held.{Held};
    ghost use Rattle.station.specs.StandsFor.{IsLive};

    ghost Value = { Held };

    ghost view = { λ s. record { parts = s.parts; spent = s.memory.refused } };

    ghost invariant = { λ s. IsLive (record { parts = s.parts; spent = s.memory.refused }) };
}

impl Station {
    ghost use Rattle.link_machine.specs.declared.fault.NewFault.{NewFault};
    ghost use Rattle.station.specs.Links.{count_of_links};
    ghost use Rattle.station.specs.State.{StationState, new_station, Accepts};
    ghost use Rattle.station.specs.Turn.{Turn, begin};
    ghost use Rattle.station.specs.Host.{IsHostTurn};
    ghost use Rattle.station.specs.Heard.{IsHeard};
    ghost use Rattle.station.specs.Ticks.{IsTick, air_of};
    ghost use Rattle.station.specs.Monitored.{modulus_between};
    ghost use Rattle.station.specs.Held.{IsAdmitted, Takes, ids_of, ids_after};
    ghost use Rattle.station.specs.StandsFor.{StandsFor, StandsForSome};

    /// A station without connections and links, whose channel draws from a seed. Refused if the window does not fit
    /// its mode (0, over 7 with REJ, over 4 with SREJ), and else if the wide window does not (0, over 127, over 64).
    pub fn new(alloc: Global, config: Config, seed: u64) -> Result<Station, NewFault>
        ensures stands_for { IfOk result (λ station. StandsFor station (new_station config seed)) }
        ensures no_ids { IfOk result (λ station. ids_of station ≡ []) }
        ensures bad_window { (window : ℕ) → IsErrOf result (NewFault.BadWindow window)
            ↔ IsRefusedWindow config.params window }
    {
        let params = match LinkParams::check(config.params) {
            Ok(params) => params,
            Err(BadWindow { window }) => return Err(NewFault::BadWindow { window }),
        };
        let Ok(parts) = Parts::new(alloc, params, config, seed) else {
            return Err(NewFault::Memory);
        };
        Ok(Station {
            memory: Memory::new(alloc),
            parts,
        })
    }

    /// How many frames wait to be sent.
    pub fn waiting(&self) -> usize
        ensures { (s : StationState) → StandsFor self.now s → result ≡ length s.channel.waiting }
    {
        self.parts.channel.len()
    }

    /// Whether octets of the connection are taken: not while a link of it holds over 512 packets, or four frames that it
    /// gave as they stand wait to be sent. Other connections do not matter.
    pub fn accepts(&self, id: u32) -> bool
        ensures takes { IsTrue result ↔ Takes id self.now }
        ensures accepts { (s : StationState) → StandsFor self.now s → IsTrue result ↔ Accepts id s }
    {
        own_waiting(&self.parts.owners, id) < MOST_OWN && self.parts.links.hold_few(id)
    }

    /// What comes from a host: it joins under a new id, or one that is there gives octets, at most 4096 and only if
    /// [`accepts`](Station::accepts) holds, or leaves. A 65th connection is closed at once, and so is one
    /// for which frames of those that have left leave no room. One whose octets tell an
    /// AGWPE body over 4096 octets, or begin by KISS as those of a program of the web, is closed and has left. Fails
    /// only for want of memory, and is then spent.
    pub fn host(&mut self, event: HostEvent) -> Result<HostOut, OutOfMemory>
        requires { IsAdmitted event self.old }
        ensures stood { self.old.spent ≡ false → StandsForSome self.old }
        ensures step { (s : StationState) → StandsFor self.old s → IfOk result (λ out. (next : StationState)
            × IsHostTurn event (begin s) (record { now = next; out = out }) × StandsFor self.new next) }
        ensures ids { IfOk result (λ out. ids_of self.new ≡ ids_after event out.closed (ids_of self.old)) }
        ensures spent { OnErr result (self.new.spent ≡ true) }
        ensures stays_spent { self.old.spent ≡ true → IsErr result }
    {
        if self.memory.has_refused() {
            return Err(OutOfMemory);
        }
        let mut out = HostOut::new(self.memory.alloc());
        self.parts.host(&mut self.memory, &mut out, event)?;
        self.memory.settle();
        Ok(out)
    }

    /// A frame of 15 to 1024 octets that was heard, without its check sequence. Fails only for want of memory, and is
    /// then spent.
    pub fn heard(&mut self, octets: &[u8]) -> Result<HostOut, OutOfMemory>
        requires { HasFrameLength octets.now }
        ensures stood { self.old.spent ≡ false → StandsForSome self.old }
        ensures step { (s : StationState) → StandsFor self.old s → IfOk result (λ out. (next : StationState)
            × IsHeard octets.now (begin s) (record { now = next; out = out }) × StandsFor self.new next) }
        ensures ids { OnOk result (ids_of self.new ≡ ids_of self.old) }
        ensures spent { OnErr result (self.new.spent ≡ true) }
        ensures stays_spent { self.old.spent ≡ true → IsErr result }
    {
        if self.memory.has_refused() {
            return Err(OutOfMemory);
        }
        let mut out = HostOut::new(self.memory.alloc());
        self.parts.hear(&mut self.memory, &mut out, octets)?;
        self.memory.settle();
        Ok(out)
    }

    /// A tick of 10 ms of each link, in the order of their keys, and then of the channel; `busy` says whether
    /// another station is heard. Before the channel's, one link that wants to send is asked for a frame if the channel
    /// takes one. Fails only for want of memory, and is then spent.
    pub fn tick(&mut self, busy: bool) -> Result<TickOut, OutOfMemory>
        ensures stood { self.old.spent ≡ false → StandsForSome self.old }
        ensures air { (s : StationState) → StandsFor self.old s → IfOk result (λ tick. tick.air ≡ air_of busy s) }
        ensures step { (s : StationState) → StandsFor self.old s → IfOk result (λ tick. (next : StationState)
            × IsTick busy (begin s) (record { now = next; out = tick.out }) × StandsFor self.new next) }
        ensures ids { OnOk result (ids_of self.new ≡ ids_of self.old) }
        ensures spent { OnErr result (self.new.spent ≡ true) }
        ensures stays_spent { self.old.spent ≡ true → IsErr result }
    {
        if self.memory.has_refused() {
            return Err(OutOfMemory);
        }
        let mut out = HostOut::new(self.memory.alloc());
        let air = self.parts.tick(&mut self.memory, &mut out, busy)?;
        self.memory.settle();
        Ok(TickOut { air, out })
    }

    /// The modulus in which a frame between two calls is read for who watches the channel: that of the link from the
    /// first to the second, else of the link from the second to the first, and 8 if there is neither. A heard frame
    /// is asked for by its destination and its source before [`heard`](Station::heard), and a sent one by its source
    /// and its destination after [`tick`](Station::tick).
    pub fn modulus(&self, first: &Call, second: &Call) -> Modulus
        ensures between { (s : StationState) → StandsFor self.now s
            → result ≡ modulus_between first.now second.now s.links }
    {
        self.parts.links.modulus_between(first, second)
    }

    /// How many links there are, in whatever state.
    pub fn links(&self) -> u32
        ensures stands_for { (s : StationState) → StandsFor self.now s → result ≡ count_of_links s.links }
    {
        self.parts.links.len()
    }

    /// How many frames found the transmit queue full and were dropped. The count stays at the greatest number of 64
    /// bits.
    pub fn dropped(&self) -> u64
        ensures count { result ≡ self.now.parts.dropped }
        ensures stands_for { (s : StationState) → StandsFor self.now s → result ≡ s.dropped }
    {
        self.parts.dropped
    }
}
