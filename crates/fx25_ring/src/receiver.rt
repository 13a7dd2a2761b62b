//! The receiver: one reader of a ring in, the frames out as they end, turn by turn.

use crate::hearing::hear;
use crate::lanes::Lanes;
use ring_receiver::Heard;
use sample_ring::{Reader, Ring};
use std::alloc::Global;
use std::marker::Model;
use tnc_base::OutOfMemory;

/// Eight lanes that hear frames plainly and in blocks of FX.25, or all 26, which share one reader of a ring: `new`, then
/// `advance` turn by turn, then `finish`. After want of memory, and after the turn in which the reader has met the end of the
/// ring, it is spent: no later turn reads, and each wants memory.
#[derive(Drop)]
pub struct Fx25RingReceiver {
    alloc: Global,
    reader: Reader,
    lanes: Lanes,
    // The Vec that the reader came in. It has room for it and is empty until it goes back.
    room: Vec<Reader>,
    spent: bool,
}

impl Model for Fx25RingReceiver {
    ghost use Rattle.std.specs.Prelude.{◌≡◌, ◌≤◌, [], false, vec_capacity};
    ghost use Rattle.fx25_ring.specs.Held.{HeldReceiver, AreInStep};

    ghost Value = { HeldReceiver };

    ghost view = { λ s. record { reader = s.reader; lanes = s.lanes; spent = s.spent } };

    ghost invariant = { λ s. (s.room.items ≡ []) × (1 ≤ vec_capacity s.room)
        × (s.spent ≡ false → AreInStep s.reader s.lanes) };
}

impl Fx25RingReceiver {
    ghost use Rattle.std.specs.Prelude.{◌≡◌, ℕ, ◌≤◌, ◌↔◌, List, [], ◌∷◌, ◌++◌, length, true, false, IfOk, OnOk, OnErr};
    ghost use Rattle.std.specs.Prelude.{IsErr, IsTrue, vec_capacity};
    ghost use Rattle.std.specs.List.{All};
    ghost use Rattle.hdlc_framer.specs.FrameLength.{HasFrameLength};
    ghost use Rattle.sample_ring.specs.declared.view.Entry.{Entry};
    ghost use Rattle.sample_ring.specs.Ends.{ring_id, ring_len, reader_ring, reads_of, IsNew};
    ghost use Rattle.slicer_bank.specs.HeardOnRing.{least_position};
    ghost use Rattle.slicer_bank.specs.Stretches.{last_stretch};
    ghost use Rattle.ring_receiver.specs.Turns.{IsTurnOf};
    ghost use Rattle.fx25_ring.specs.HeardInBlocks.{AreDueInBlocks, HearsStation};
    ghost use Rattle.fx25_ring.specs.Held.{block_answers, flags_of_blocks, sensitive_of_blocks, BlocksHeard};
    ghost use Rattle.fx25_ring.specs.Held.{BlockLanesListen};

    /// A receiver that has read nothing, of all lanes if it is to be sensitive. It hears other stations from so many flags
    /// in a row on, 1 to 8, and while a block comes in.
    pub fn new(
        alloc: Global,
        mut readers: Vec<Reader>,
        flags: u8,
        sensitive: bool,
    ) -> Result<Fx25RingReceiver, OutOfMemory>
        requires one { length readers.items ≡ 1 }
        requires fresh { All IsNew readers.items }
        requires flags { (1 ≤ flags) × (flags ≤ 8) }
        ensures readers { IfOk result (λ receiver. receiver.reader ∷ [] ≡ readers.items) }
        ensures hears { IfOk result (λ receiver. (len : ℕ) → BlocksHeard len receiver) }
        ensures nothing { IfOk result (λ receiver. (len : ℕ) → block_answers len receiver ≡ []) }
        ensures flags { IfOk result (λ receiver. flags_of_blocks receiver ≡ flags) }
        ensures sensitive { IfOk result (λ receiver. sensitive_of_blocks receiver ≡ sensitive) }
    {
        let Some(reader) = readers.pop() else {
            unreachable!()
        };
        Fx25RingReceiver::of_reader(alloc, reader, readers, flags, sensitive)
    }

    /// A receiver of this reader, and the Vec that the reader goes back to.
    fn of_reader(
        alloc: Global,
        reader: Reader,
        room: Vec<Reader>,
        flags: u8,
        sensitive: bool,
    ) -> Result<Fx25RingReceiver, OutOfMemory>
        requires fresh { IsNew reader }
        requires room { (room.items ≡ []) × (1 ≤ vec_capacity room) }
        requires flags { (1 ≤ flags) × (flags ≤ 8) }
        ensures reader { IfOk result (λ receiver. receiver.reader ≡ reader) }
        ensures hears { IfOk result (λ receiver. (len : ℕ) → BlocksHeard len receiver) }
        ensures nothing { IfOk result (λ receiver. (len : ℕ) → block_answers len receiver ≡ []) }
        ensures flags { IfOk result (λ receiver. flags_of_blocks receiver ≡ flags) }
        ensures sensitive { IfOk result (λ receiver. sensitive_of_blocks receiver ≡ sensitive) }
    {
        Ok(Fx25RingReceiver {
            alloc,
            reader,
            lanes: Lanes::new(alloc, flags, sensitive)?,
            room,
            spent: false,
        })
    }

    /// The reader reads until the ring is empty or has ended, or 9600 times.
    pub fn advance(&mut self, ring: &Ring) -> Result<Heard, OutOfMemory>
        requires { reader_ring self.old.reader ≡ ring_id ring.now }
        ensures ring { reader_ring self.new.reader ≡ ring_id ring.now }
        ensures grown { (entries : List Entry) × (reads_of self.new.reader ≡ reads_of self.old.reader ++ entries) }
        ensures turn { IfOk result (λ heard. IsTurnOf 1 (block_answers (ring_len ring.now) self.old ∷ [])
            (block_answers (ring_len ring.now) self.new ∷ []) heard.gaps.items heard.ended) }
        ensures due { IfOk result (λ heard. BlocksHeard (ring_len ring.now) self.old
            → AreDueInBlocks (sensitive_of_blocks self.old) heard.ended (block_answers (ring_len ring.now) self.old)
            (block_answers (ring_len ring.now) self.new) heard.items.items) }
        ensures lengths { IfOk result (λ heard. BlocksHeard (ring_len ring.now) self.old
            → All (λ item. HasFrameLength item.octets) heard.items.items) }
        ensures hears { IfOk result (λ heard. heard.ended ≡ false → BlocksHeard (ring_len ring.now) self.old
            → BlocksHeard (ring_len ring.now) self.new) }
        ensures listens { OnOk result (BlockLanesListen (ring_len ring.now) self.old
            → BlockLanesListen (ring_len ring.now) self.new) }
        ensures least { IfOk result (λ heard. BlocksHeard (ring_len ring.now) self.old
            → heard.least ≡ least_position (block_answers (ring_len ring.now) self.new ∷ [])) }
        ensures forward { IfOk result (λ heard. BlocksHeard (ring_len ring.now) self.old
            → least_position (block_answers (ring_len ring.now) self.old ∷ []) ≤ heard.least) }
        ensures flags { flags_of_blocks self.new ≡ flags_of_blocks self.old }
        ensures sensitive { sensitive_of_blocks self.new ≡ sensitive_of_blocks self.old }
        ensures fails { self.old.spent ≡ true → IsErr result }
        ensures spent { OnErr result (self.new.spent ≡ true) }
    {
        if self.spent {
            return Err(OutOfMemory);
        }
        self.spent = true;
        let heard = hear(self.alloc, ring, &mut self.reader, &mut self.lanes)?;
        self.spent = heard.ended;
        Ok(heard)
    }

    /// Whether another station is heard: since the last gap so many flags in a row have come in one of eight lanes as it
    /// listens for, and since then neither seven 1s in a row nor 10,000 bits without a flag; or a block is coming in, or was
    /// over at most 64 bits ago.
    pub fn busy(&self) -> bool
        ensures { (len : ℕ) → BlockLanesListen len self.now
            → (IsTrue result ↔ HearsStation (flags_of_blocks self.now) (last_stretch (block_answers len self.now))) }
    {
        self.lanes.busy()
    }

    /// Its reader, in the Vec that it was made of. It takes no memory.
    pub fn finish(self) -> Vec<Reader>
        ensures { result.items ≡ self.reader ∷ [] }
    {
        let Fx25RingReceiver {
            reader,
            mut room,
            ..
        } = self;
        room.push_reserved(reader);
        room
    }
}
