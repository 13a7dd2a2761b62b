//! The receiver: the readers of a ring in, the frames that are due out, turn by turn.

ghost use Rattle.std.specs.Prelude.{◌≡◌};
ghost use Rattle.ring_receiver.specs.Readers.{readers_wanted};

use crate::added_ring::AddedRing;
use crate::heard::Heard;
use crate::turn::hear;
use frame_merge::Merger;
use sample_ring::{Reader, Ring};
use sensitive_receiver::LANES;
use slicer_bank::{Detection, Gate, RingBank};
use std::alloc::Global;
use std::marker::Model;
use std::thread::Threads;
use tnc_base::OutOfMemory;

/// The lanes of a receiver whose added lanes do not listen.
const EIGHT: u8 = 8;

/// The readers that a receiver wants: one for each of the eight lanes, and one more if the added lanes listen.
pub fn readers_wanted(sensitive: bool) -> u8
    ensures { result ≡ readers_wanted sensitive }
{
    if sensitive { 9 } else { 8 }
}

/// Eight lanes that read a ring, and the added lanes if they listen: `new`, then `advance` turn by turn, then `finish`.
/// After want of memory, and after the turn in which every reader has met the end of the ring, it is spent: no later
/// turn reads, and each wants memory.
#[derive(Drop)]
pub struct RingReceiver {
    bank: RingBank,
    added: Option<AddedRing>,
    merger: Merger,
    spent: bool,
}

impl Model for RingReceiver {
    ghost use Rattle.std.specs.Prelude.{◌≡◌, false, length};
    ghost use Rattle.slicer_bank.specs.RingLanes.{readers_in as readers_of_bank};
    ghost use Rattle.ring_receiver.specs.HeldReceiver.{HeldReceiver};
    ghost use Rattle.ring_receiver.specs.ReceiverTurns.{held_of, AreInStep};

    ghost Value = { HeldReceiver };

    ghost view = { λ s. held_of s.bank s.added s.merger s.spent };

    ghost invariant = { λ s. (length (readers_of_bank s.bank) ≡ 8)
        × (s.spent ≡ false → AreInStep s.bank s.added s.merger) };
}

impl RingReceiver {
    ghost use Rattle.std.specs.Prelude.{ℕ, ◌≤◌, ◌↔◌, [], length, replicate, true, false, IfOk, OnOk, OnErr, IsErr};
    ghost use Rattle.std.specs.Prelude.{IsTrue};
    ghost use Rattle.std.specs.List.{All};
    ghost use Rattle.hdlc_framer.specs.FrameLength.{HasFrameLength};
    ghost use Rattle.sample_ring.specs.Ends.{ring_id, ring_len, reader_ring, IsNew};
    ghost use Rattle.slicer_bank.specs.Detection.{CanBeAsked};
    ghost use Rattle.slicer_bank.specs.HeardOnRing.{IsBusyOnRing, least_position};
    ghost use Rattle.ring_receiver.specs.HeardByAll.{AreDueBy};
    ghost use Rattle.ring_receiver.specs.HeldReceiver.{readers_in, records_in, answers_in, EightListen, Hears};
    ghost use Rattle.ring_receiver.specs.Turns.{AreGrownBy, IsTurnOf};

    /// A receiver that has read nothing. Lane i has reader i and offset i, and the added lanes have the last reader. It
    /// hears other stations as it is asked to: from so many flags in a row on, 1 to 8, or by their tones.
    pub fn new(
        alloc: Global,
        readers: Vec<Reader>,
        detection: Detection,
        sensitive: bool,
    ) -> Result<RingReceiver, OutOfMemory>
        requires count { length readers.items ≡ readers_wanted sensitive }
        requires fresh { All IsNew readers.items }
        requires detection { CanBeAsked detection }
        ensures readers { IfOk result (λ receiver. readers_in receiver ≡ readers.items) }
        ensures hears { IfOk result (λ receiver. (len : ℕ) → Hears len receiver) }
        ensures nothing { IfOk result (λ receiver. (len : ℕ)
            → answers_in len receiver ≡ replicate (readers_wanted sensitive) []) }
        ensures detection { IfOk result (λ receiver. receiver.detection ≡ detection) }
        ensures sensitive { IfOk result (λ receiver. receiver.sensitive ≡ sensitive) }
    {
        if sensitive {
            return RingReceiver::with_added(alloc, readers, detection);
        }
        Ok(RingReceiver {
            bank: RingBank::listening(alloc, readers, detection)?,
            added: None,
            merger: Merger::new(alloc, EIGHT)?,
            spent: false,
        })
    }

    /// The same, with the added lanes.
    fn with_added(
        alloc: Global,
        mut readers: Vec<Reader>,
        detection: Detection,
    ) -> Result<RingReceiver, OutOfMemory>
        requires nine { length readers.items ≡ 9 }
        requires fresh { All IsNew readers.items }
        requires detection { CanBeAsked detection }
        ensures readers { IfOk result (λ receiver. readers_in receiver ≡ readers.items) }
        ensures hears { IfOk result (λ receiver. (len : ℕ) → Hears len receiver) }
        ensures nothing { IfOk result (λ receiver. (len : ℕ) → answers_in len receiver ≡ replicate 9 []) }
        ensures detection { IfOk result (λ receiver. receiver.detection ≡ detection) }
        ensures sensitive { IfOk result (λ receiver. receiver.sensitive ≡ true) }
    {
        let Some(last) = readers.pop() else {
            unreachable!()
        };
        let mut eight = Vec::new(alloc);
        eight.append(&mut readers)?;
        Ok(RingReceiver {
            bank: RingBank::listening(alloc, eight, detection)?,
            added: Some(AddedRing::new(alloc, last, readers)?),
            merger: Merger::new(alloc, LANES)?,
            spent: false,
        })
    }

    /// Each reader reads until the ring is empty or has ended, or 9600 times. Two threads share the eight lanes, and
    /// `gate` is told as the job of each of them starts.
    pub fn advance<R: Threads + Sync, G: Gate>(
        &mut self,
        rt: &R,
        ring: &Ring,
        gate: &G,
    ) -> Result<Heard, OutOfMemory>
        requires { All (λ reader. reader_ring reader ≡ ring_id ring.now) (readers_in self.old) }
        ensures ring { All (λ reader. reader_ring reader ≡ ring_id ring.now) (readers_in self.new) }
        ensures grown { AreGrownBy (readers_wanted self.old.sensitive) (records_in self.old) (records_in self.new) }
        ensures turn { IfOk result (λ heard. IsTurnOf (readers_wanted self.old.sensitive)
            (answers_in (ring_len ring.now) self.old) (answers_in (ring_len ring.now) self.new)
            heard.gaps.items heard.ended) }
        ensures due { IfOk result (λ heard. Hears (ring_len ring.now) self.old
            → AreDueBy self.old.sensitive heard.ended (answers_in (ring_len ring.now) self.old)
            (answers_in (ring_len ring.now) self.new) heard.items.items) }
        ensures lengths { IfOk result (λ heard. Hears (ring_len ring.now) self.old
            → All (λ item. HasFrameLength item.octets) heard.items.items) }
        ensures hears { IfOk result (λ heard. heard.ended ≡ false → Hears (ring_len ring.now) self.old
            → Hears (ring_len ring.now) self.new) }
        ensures listens { OnOk result (EightListen (ring_len ring.now) self.old
            → EightListen (ring_len ring.now) self.new) }
        ensures least { IfOk result (λ heard. Hears (ring_len ring.now) self.old
            → heard.least ≡ least_position (answers_in (ring_len ring.now) self.new)) }
        ensures forward { IfOk result (λ heard. Hears (ring_len ring.now) self.old
            → least_position (answers_in (ring_len ring.now) self.old) ≤ heard.least) }
        ensures detection { self.new.detection ≡ self.old.detection }
        ensures sensitive { self.new.sensitive ≡ self.old.sensitive }
        ensures fails { self.old.spent ≡ true → IsErr result }
        ensures spent { OnErr result (self.new.spent ≡ true) }
    {
        if self.spent {
            return Err(OutOfMemory);
        }
        self.spent = true;
        let heard = hear(
            rt,
            ring,
            gate,
            &mut self.bank,
            &mut self.added,
            &mut self.merger,
        )?;
        self.spent = heard.ended;
        Ok(heard)
    }

    /// Whether another station is heard: one of the eight lanes hears it since its last gap.
    pub fn busy(&self) -> bool
        ensures { (len : ℕ) → EightListen len self.now
            → IsTrue result ↔ IsBusyOnRing self.now.detection (answers_in len self.now) }
    {
        self.bank.busy()
    }

    /// Its readers, in their order, in the Vec that it was made of. It takes no memory.
    pub fn finish(self) -> Vec<Reader>
        ensures items { result.items ≡ readers_in self }
        ensures most { length result.items ≤ 9 }
    {
        let RingReceiver { bank, added, .. } = self;
        let eight = bank.finish();
        match added {
            None => eight,
            Some(added) => added.finish(eight),
        }
    }
}
