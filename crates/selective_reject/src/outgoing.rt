//! What was given to be sent and is not acknowledged.

ghost use Rattle.std.specs.Prelude.{◌≡◌, ℕ, ◌+◌, ◌-◌, ◌%◌, ◌<◌, ◌≤◌, ◌↔◌, ◌==◌, length, slice_get, nat_lt, Ok, OnOk};
ghost use Rattle.std.specs.Prelude.{IfOk, IfErr, IfSome, IsErr, if◌then◌else◌};
ghost use Rattle.std.specs.Option.{option_copied};
ghost use Rattle.selective_reject.specs.Numbers.{IsModulus, ahead};
ghost use Rattle.selective_reject.specs.Outgoing.{Outgoing, IsOutgoing, StandsForOutgoing, empty_outgoing};
ghost use Rattle.selective_reject.specs.Outgoing.{reduced_outgoing, after_push, may_send, number_to_send};
ghost use Rattle.selective_reject.specs.Outgoing.{after_next};
ghost use Rattle.selective_reject.specs.Outgoing.{acknowledgement, after_acknowledge, acknowledged, back, restarted};
ghost use Rattle.selective_reject.specs.Outgoing.{sent_packet, asked_again, unasked_again, first_again};
ghost use Rattle.selective_reject.specs.Outgoing.{after_again, after_ask_again};

use crate::asked_again::AskedAgain;
use crate::number::ahead;
use crate::packet::Packet;
use circular_buffer::HeapCircularBuffer;
use std::alloc::Global;
use std::marker::Model;
use thiserror::Error;
use tnc_base::OutOfMemory;

/// The most packets of a store.
const CAPACITY: usize = 1024;

/// A receive sequence number that acknowledges what was not sent, or what was acknowledged before.
#[derive(Clone, Copy, Debug, Drop, PartialEq, Eq, Error)]
#[error("N(R) is not from {va} to {top}")]
pub struct BadNr {
    /// V(A), the number of the first packet that is not acknowledged.
    pub va: u8,
    /// One past the number of the last packet that was sent.
    pub top: u8,
}

/// Keeps the packets that were given to be sent, until they are acknowledged: at most 1024.
#[derive(Drop)]
pub struct OutStore {
    // The first has number V(A).
    packets: HeapCircularBuffer<Packet>,
    // V(A) modulo 128, which tells it modulo 8 too.
    va: u8,
    // V(S) less V(A).
    sent: u8,
    // The greatest V(S) so far, less V(A).
    most_sent: u8,
    // The numbers that SREJ asked for, each less V(A).
    again: AskedAgain,
}

impl Model for OutStore {
    ghost use Rattle.std.specs.Prelude.{◌+◌, ◌≡◌};
    ghost use Rattle.selective_reject.specs.Outgoing.{Outgoing, IsOutgoing};

    ghost Value = { Outgoing };

    ghost view = { λ s. record
        { va = s.va; vs = s.va + s.sent; top = s.va + s.most_sent; packets = s.packets.items; again = s.again } };

    ghost invariant = { λ s. (s.packets.capacity ≡ 1024)
        × IsOutgoing (record
        { va = s.va; vs = s.va + s.sent; top = s.va + s.most_sent; packets = s.packets.items; again = s.again }) };
}

impl OutStore {
    /// An empty store, with V(A) and V(S) 0. Its 1024 places are taken here; fails only for want of memory.
    pub fn new(alloc: Global) -> Result<OutStore, OutOfMemory>
        ensures { IfOk result (λ store. store ≡ empty_outgoing) }
    {
        Ok(OutStore {
            packets: HeapCircularBuffer::with_capacity(alloc, CAPACITY)?,
            va: 0,
            sent: 0,
            most_sent: 0,
            again: AskedAgain::new(),
        })
    }

    /// The same store, in memory of its own.
    pub fn copy(&self, alloc: Global) -> Result<OutStore, OutOfMemory>
        ensures { IfOk result (λ copy. copy ≡ self.now) }
    {
        let mut packets = HeapCircularBuffer::with_capacity(alloc, CAPACITY)?;
        for place in 0..self.packets.len() {
            if let Some(packet) = self.packets.get(place) {
                packets.push_back(packet.copy(alloc)?);
            }
        }
        Ok(OutStore {
            packets,
            va: self.va,
            sent: self.sent,
            most_sent: self.most_sent,
            again: self.again.copy(),
        })
    }

    /// Puts a packet after all others. Hands it back exactly when there are 1024.
    pub fn push(&mut self, packet: Packet) -> Result<(), Packet>
        ensures full { IsErr result ↔ (length self.old.packets ≡ 1024) }
        ensures handed_back { IfErr result (λ back. (back ≡ packet) × (self.new ≡ self.old)) }
        ensures store { OnOk result (self.new ≡ after_push packet self.old) }
        ensures stands_for { (store : Outgoing) → StandsForOutgoing self.old store
            → OnOk result (StandsForOutgoing self.new (after_push packet store)) }
        ensures formed { IsOutgoing self.new }
    {
        self.packets.try_push_back(packet)
    }

    /// The number of the next packet to be sent, V(S), which then rises by one. None exactly when as many as the
    /// window has, or all that there are, were sent from V(A) on.
    pub fn next(&mut self, modulus: u8, window: u8) -> Option<u8>
        requires modulus { IsModulus modulus }
        requires at_least_one { 1 ≤ window }
        requires at_most { window < modulus }
        ensures number { result ≡ number_to_send modulus window self.old }
        ensures store { self.new ≡ after_next window self.old }
        ensures stands_for { (store : Outgoing) → StandsForOutgoing self.old store
            → (result ≡ number_to_send modulus window store) × StandsForOutgoing self.new (after_next window store) }
        // The packet that is to be sent is the one that `one` gives for that number.
        ensures packet { IfSome result (λ number.
            sent_packet modulus number self.new ≡ slice_get self.old.packets (self.old.vs - self.old.va)) }
        ensures formed { IsOutgoing self.new }
    {
        let most = self.packets.len().min(usize::from(window));
        if usize::from(self.sent) >= most {
            return None;
        }
        let number = (self.va + self.sent) % modulus;
        self.sent += 1;
        self.most_sent = self.most_sent.max(self.sent);
        Some(number)
    }

    /// True if the window allows a further packet and one waits.
    pub fn may_send(&self, window: u8) -> bool
        ensures value { result ≡ may_send window self.now }
        ensures stands_for { (store : Outgoing) → StandsForOutgoing self.now store → result ≡ may_send window store }
    {
        usize::from(self.sent) < self.packets.len().min(usize::from(window))
    }

    /// Removes the packets below the number that `nr` names, and says how many. Refuses `nr` exactly when it names
    /// none from V(A) to the greatest V(S) so far; the store is then unchanged.
    pub fn acknowledge(&mut self, modulus: u8, nr: u8) -> Result<u8, BadNr>
        requires modulus { IsModulus modulus }
        requires number { nr < modulus }
        ensures count { result ≡ acknowledgement modulus nr self.old }
        ensures store { self.new ≡ reduced_outgoing (after_acknowledge modulus nr self.old) }
        ensures stands_for { (store : Outgoing) → StandsForOutgoing self.old store
            → (result ≡ acknowledgement modulus nr store)
            × StandsForOutgoing self.new (after_acknowledge modulus nr store) }
        // If fewer than the modulus are under way, a number from V(A) to the top is the one that is named.
        ensures true_number { (store : Outgoing) (number : ℕ) → StandsForOutgoing self.old store
            → store.va ≤ number → number ≤ store.top → store.top < store.va + modulus → nr ≡ number % modulus
            → (result ≡ Ok (number - store.va)) × StandsForOutgoing self.new (acknowledged number store) }
        ensures formed { IsOutgoing self.new }
    {
        let count = self.acknowledgement(modulus, nr)?;
        let rest = self.packets.len() - usize::from(count);
        self.packets.truncate_front(rest);
        self.va = (self.va + count) % 128;
        self.sent = self.sent.saturating_sub(count);
        self.most_sent -= count;
        self.again.acknowledge(count);
        Ok(count)
    }

    /// Begins to send again from the first packet that is not acknowledged: V(S) becomes V(A), and no number is asked
    /// for any more.
    pub fn go_back(&mut self)
        ensures store { self.new ≡ back self.old }
        ensures stands_for { (store : Outgoing) → StandsForOutgoing self.old store
            → StandsForOutgoing self.new (back store) }
        ensures formed { IsOutgoing self.new }
    {
        self.sent = 0;
        self.again.clear();
    }

    /// SREJ asked for a number: it is to be sent again. Tells whether one from V(A) to the greatest V(S) so far has it;
    /// else nothing changes.
    pub fn ask_again(&mut self, modulus: u8, nr: u8) -> bool
        requires modulus { IsModulus modulus }
        requires number { nr < modulus }
        ensures sent { result ≡ nat_lt (ahead modulus self.old.va nr) (self.old.top - self.old.va) }
        ensures store { self.new ≡ after_ask_again modulus nr self.old }
        ensures stands_for { (store : Outgoing) → StandsForOutgoing self.old store
            → StandsForOutgoing self.new (after_ask_again modulus nr store) }
        // If fewer than the modulus are under way, a number from V(A) to the top is the one that is asked for.
        ensures true_number { (store : Outgoing) (number : ℕ) → StandsForOutgoing self.old store
            → store.va ≤ number → number ≤ store.top → store.top < store.va + modulus → nr ≡ number % modulus
            → (result ≡ nat_lt number store.top)
            × StandsForOutgoing self.new (if nat_lt number store.top then asked_again number store else store) }
        ensures formed { IsOutgoing self.new }
    {
        let place = ahead(modulus, self.va, nr);
        if place >= self.most_sent {
            return false;
        }
        self.again.add(place);
        true
    }

    /// No number is asked for any more.
    pub fn unask_again(&mut self)
        ensures store { self.new ≡ unasked_again self.old }
        ensures formed { IsOutgoing self.new }
    {
        self.again.clear();
    }

    /// How far ahead of V(A) the lowest number lies that SREJ asked for, of those that were sent.
    #[tactic(auto, using(crate::proofs::OutgoingRounds::same_first_again))]
    pub fn first_again(&self) -> Option<u8>
        ensures place { result ≡ first_again self.now }
        ensures within { IfSome result (λ place. place < 127) }
        ensures stands_for { (store : Outgoing) → StandsForOutgoing self.now store → result ≡ first_again store }
    {
        let place = self.again.first()?;
        if place < self.most_sent {
            Some(place)
        } else {
            None
        }
    }

    /// That one is sent.
    pub fn take_again(&mut self)
        ensures store { self.new ≡ after_again self.old }
        ensures formed { IsOutgoing self.new }
    {
        self.again.take();
    }

    /// The number, as it is sent, of the packet that stands so many places after the first.
    pub fn number(&self, modulus: u8, place: u8) -> u8
        requires modulus { IsModulus modulus }
        requires place { place < 128 }
        ensures value { result ≡ (self.now.va + place) % modulus }
        ensures stands_for { (store : Outgoing) → StandsForOutgoing self.now store
            → result ≡ (store.va + place) % modulus }
    {
        (self.va + place) % modulus
    }

    /// The packet that was sent with that number. None exactly when none from V(A) to the greatest V(S) so far has it.
    pub fn one(&self, modulus: u8, nr: u8) -> Option<&Packet>
        requires modulus { IsModulus modulus }
        requires number { nr < modulus }
        ensures packet { option_copied result ≡ sent_packet modulus nr self.now }
        ensures stands_for { (store : Outgoing) → StandsForOutgoing self.now store
            → option_copied result ≡ sent_packet modulus nr store }
        // If fewer than the modulus are under way, a number from V(A) to below the top gives its packet.
        ensures true_number { (store : Outgoing) (number : ℕ) → StandsForOutgoing self.now store
            → store.va ≤ number → number < store.top → store.top < store.va + modulus → nr ≡ number % modulus
            → option_copied result ≡ slice_get store.packets (number - store.va) }
    {
        let place = ahead(modulus, self.va, nr);
        if place >= self.most_sent {
            return None;
        }
        self.packets.get(usize::from(place))
    }

    /// How many packets are not acknowledged, sent or not.
    pub fn len(&self) -> usize
        ensures count { result ≡ length self.now.packets }
        ensures formed { IsOutgoing self.now }
    {
        self.packets.len()
    }

    /// True if no packet is left.
    pub fn is_empty(&self) -> bool
        ensures { result ≡ (length self.now.packets == 0) }
    {
        self.packets.is_empty()
    }

    /// True if some packet was sent and is not acknowledged: V(A) is below the greatest V(S) so far.
    pub fn is_waiting(&self) -> bool
        ensures waiting { result ≡ nat_lt self.now.va self.now.top }
        ensures stands_for { (store : Outgoing) → StandsForOutgoing self.now store
            → result ≡ nat_lt store.va store.top }
    {
        self.most_sent > 0
    }

    /// How many of the packets were sent since the last [`OutStore::go_back`]: V(S) less V(A).
    pub fn sent(&self) -> u8
        ensures count { self.now.vs ≡ self.now.va + result }
        ensures stands_for { (store : Outgoing) → StandsForOutgoing self.now store → store.vs ≡ store.va + result }
        ensures formed { IsOutgoing self.now }
    {
        self.sent
    }

    /// The packet that stands so many places after the first that is not acknowledged, sent or not.
    pub fn packet(&self, place: usize) -> Option<&Packet>
        ensures { option_copied result ≡ slice_get self.now.packets place }
    {
        self.packets.get(place)
    }

    /// How many packets [`OutStore::acknowledge`] would remove; refused exactly when that is.
    pub fn acknowledgement(&self, modulus: u8, nr: u8) -> Result<u8, BadNr>
        requires modulus { IsModulus modulus }
        requires number { nr < modulus }
        ensures count { result ≡ acknowledgement modulus nr self.now }
        ensures within { IfOk result (λ count. count ≤ length self.now.packets) }
        ensures formed { IsOutgoing self.now }
    {
        let count = ahead(modulus, self.va, nr);
        if count > self.most_sent {
            return Err(BadNr {
                va: self.va % modulus,
                top: (self.va + self.most_sent) % modulus,
            });
        }
        Ok(count)
    }

    /// Counts the packets from 0 again, none of them sent: V(A) and V(S) are 0, and the packets stay.
    pub fn restart(&mut self)
        ensures store { self.new ≡ restarted self.old }
        ensures formed { IsOutgoing self.new }
    {
        self.go_back();
        self.va = 0;
        self.most_sent = 0;
    }

    /// Empties the store, as after [`OutStore::new`]: V(A) and V(S) are 0.
    pub fn clear(&mut self)
        ensures { self.new ≡ empty_outgoing }
    {
        self.restart();
        self.packets.clear();
    }
}
