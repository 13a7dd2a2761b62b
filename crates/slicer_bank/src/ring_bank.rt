//! The bank of eight lanes that read a ring.

use crate::advance::Advance;
use crate::detection::Detection;
use crate::gate::Gate;
use crate::ring_lane::RingLane;
use crate::ring_lanes::{is_some_busy, new_ring_lanes};
use crate::ring_turn::make_turn;
use sample_ring::{Reader, Ring};
use std::alloc::Global;
use std::marker::Model;
use std::thread::Threads;
use tnc_base::OutOfMemory;

/// Eight lanes, one for each offset of a bit, each with a reader of one ring: `new`, then `advance` turn by turn, then
/// `finish`. After want of memory it is spent: no later turn reads.
#[derive(Drop)]
pub struct RingBank {
    alloc: Global,
    lanes: Vec<RingLane>,
    // The Vec of the readers, which has room for them and is empty until they go back to it.
    room: Vec<Reader>,
    detection: Detection,
    spent: bool,
}

impl Model for RingBank {
    ghost use Rattle.std.specs.Prelude.{◌≡◌, ◌≤◌, [], length, false, vec_capacity};
    ghost use Rattle.std.specs.List.{All};
    ghost use Rattle.slicer_bank.specs.RingJobs.{AreInPlace, IsTaken};
    ghost use Rattle.slicer_bank.specs.RingLanes.{HeldRingBank};

    ghost Value = { HeldRingBank };

    ghost view = { λ s. record { lanes = s.lanes.items; detection = s.detection; spent = s.spent } };

    ghost invariant = { λ s. (length s.lanes.items ≡ 8) × (s.room.items ≡ []) × (8 ≤ vec_capacity s.room)
        × AreInPlace s.lanes.items × (s.spent ≡ false → All IsTaken s.lanes.items) };
}

impl RingBank {
    ghost use Rattle.std.specs.Prelude.{◌≡◌, ℕ, ◌+◌, ◌<◌, ◌≤◌, ◌↔◌, List, [], length, map, replicate, slice_index};
    ghost use Rattle.std.specs.Prelude.{true, IfOk, OnOk, OnErr, IsErr, IsTrue};
    ghost use Rattle.std.specs.List.{All};
    ghost use Rattle.sample_ring.specs.Ends.{ring_id, ring_len, reader_ring, IsNew};
    ghost use Rattle.slicer_bank.specs.declared.detection.Detection.TheVariants.{Flags};
    ghost use Rattle.slicer_bank.specs.Detection.{CanBeAsked};
    ghost use Rattle.slicer_bank.specs.Merging.{CanBePut};
    ghost use Rattle.slicer_bank.specs.HeardOnRing.{IsBusyOnRing};
    ghost use Rattle.slicer_bank.specs.RingLanes.{readers_in, records_in, positions_in, answers_in, Listens};
    ghost use Rattle.slicer_bank.specs.RingTurns.{IsTurn, BringsOnRing, AreGrown, AreForward, ArePast};

    /// Eight lanes that have read nothing. Lane i has reader i and offset i. It is busy from the first flag on.
    pub fn new(alloc: Global, readers: Vec<Reader>) -> Result<RingBank, OutOfMemory>
        requires eight { length readers.items ≡ 8 }
        requires fresh { All IsNew readers.items }
        ensures readers { IfOk result (λ bank. readers_in bank ≡ readers.items) }
        ensures listens { IfOk result (λ bank. (len : ℕ) → Listens len bank) }
        ensures nothing { IfOk result (λ bank. (len : ℕ) → answers_in len bank ≡ replicate 8 []) }
        ensures start { IfOk result (λ bank. positions_in bank ≡ replicate 8 0) }
        ensures detection { IfOk result (λ bank. bank.detection ≡ Flags 1) }
    {
        RingBank::listening(alloc, readers, Detection::Flags(1))
    }

    /// The same, but it hears other stations as it is asked to: from so many flags in a row on, 1 to 8, or by their
    /// tones. Only lanes that are asked for tones weigh any.
    pub fn listening(
        alloc: Global,
        mut readers: Vec<Reader>,
        detection: Detection,
    ) -> Result<RingBank, OutOfMemory>
        requires eight { length readers.items ≡ 8 }
        requires fresh { All IsNew readers.items }
        requires detection { CanBeAsked detection }
        ensures readers { IfOk result (λ bank. readers_in bank ≡ readers.items) }
        ensures listens { IfOk result (λ bank. (len : ℕ) → Listens len bank) }
        ensures nothing { IfOk result (λ bank. (len : ℕ) → answers_in len bank ≡ replicate 8 []) }
        ensures start { IfOk result (λ bank. positions_in bank ≡ replicate 8 0) }
        ensures detection { IfOk result (λ bank. bank.detection ≡ detection) }
    {
        Ok(RingBank {
            alloc,
            lanes: new_ring_lanes(alloc, &mut readers, detection)?,
            room: readers,
            detection,
            spent: false,
        })
    }

    /// Each lane reads until the ring is empty or has ended, or 9600 times. Two threads share the lanes, and `gate` is
    /// told as the job of each lane starts.
    pub fn advance<R: Threads + Sync, G: Gate>(
        &mut self,
        rt: &R,
        ring: &Ring,
        gate: &G,
    ) -> Result<Advance, OutOfMemory>
        requires { All (λ reader. reader_ring reader ≡ ring_id ring.now) (readers_in self.old) }
        ensures ring { All (λ reader. reader_ring reader ≡ ring_id ring.now) (readers_in self.new) }
        ensures eight { length (readers_in self.new) ≡ 8 }
        ensures grown { AreGrown (records_in self.old) (records_in self.new) }
        ensures turn { IfOk result (λ advance. IsTurn (answers_in (ring_len ring.now) self.old) (answers_in
            (ring_len ring.now) self.new) advance.gaps.items advance.ended) }
        ensures listens { OnOk result (Listens (ring_len ring.now) self.old → Listens (ring_len ring.now) self.new) }
        ensures heard { IfOk result (λ advance. Listens (ring_len ring.now) self.old
            → BringsOnRing (answers_in (ring_len ring.now) self.old)
            (answers_in (ring_len ring.now) self.new) advance.positions advance.candidates.items) }
        ensures positions { IfOk result (λ advance. advance.positions ≡ positions_in self.new) }
        ensures forward { OnOk result (AreForward (positions_in self.old) (positions_in self.new)) }
        ensures bounds { IfOk result (λ advance. All CanBePut advance.candidates.items) }
        ensures past { IfOk result (λ advance. ArePast (positions_in self.old) advance.candidates.items) }
        ensures detection { self.new.detection ≡ self.old.detection }
        ensures fails { self.old.spent ≡ true → IsErr result }
        ensures spent { OnErr result (self.new.spent ≡ true) }
    {
        if self.spent {
            return Err(OutOfMemory);
        }
        match make_turn(rt, self.alloc, &mut self.lanes, ring, gate) {
            Ok(advance) => Ok(advance),
            Err(refusal) => {
                self.spent = true;
                Err(refusal)
            }
        }
    }

    /// Whether another station is heard: some lane hears it since its last gap.
    pub fn busy(&self) -> bool
        ensures { (len : ℕ) → Listens len self.now → IsTrue result
            ↔ IsBusyOnRing self.now.detection (answers_in len self.now) }
    {
        is_some_busy(&self.lanes, self.detection)
    }

    /// Its readers, in the order of the lanes, in the Vec that it was made of. It takes no memory.
    pub fn finish(self) -> Vec<Reader>
        ensures { result.items ≡ readers_in self }
    {
        let RingBank {
            lanes,
            mut room,
            ..
        } = self;
        for lane in lanes {
            room.push_reserved(lane.reader);
        }
        room
    }
}
