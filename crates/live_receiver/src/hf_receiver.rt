//! The receiver of short wave: one reader of a ring in, the frames that are due out, turn by turn.

use crate::hf_hearing::hear;
use crate::hf_lanes::HfLanes;
use crate::hf_merging::lanes_in;
use frame_merge::Merger;
use ring_receiver::Heard;
use sample_ring::{Reader, Ring};
use std::alloc::Global;
use std::marker::Model;
use tnc_base::OutOfMemory;

/// The 32 lanes of short wave, or all 59, which share one reader of a ring: `new`, then `advance` turn by turn, then `finish`. After
/// want of memory, and after the turn in which the reader has met the end of the ring, it is spent: no later turn reads,
/// and each wants memory.
#[derive(Drop)]
pub struct HfReceiver {
    alloc: Global,
    reader: Reader,
    lanes: HfLanes,
    merger: Merger,
    // The Vec that the reader came in. It has room for it and is empty until it goes back.
    room: Vec<Reader>,
    spent: bool,
}

impl Model for HfReceiver {
    ghost use Rattle.std.specs.Prelude.{◌≡◌, ◌≤◌, [], false, vec_capacity};
    ghost use Rattle.live_receiver.specs.HeldHf.{HeldHf, AreInStep, hf_of};

    ghost Value = { HeldHf };

    ghost view = { λ s. hf_of s.reader s.lanes s.merger s.spent };

    ghost invariant = { λ s. (s.room.items ≡ []) × (1 ≤ vec_capacity s.room)
        × (s.spent ≡ false → AreInStep s.reader s.lanes s.merger) };
}

impl HfReceiver {
    ghost use Rattle.std.specs.Prelude.{◌≡◌, ℕ, ◌≤◌, ◌↔◌, List, [], ◌∷◌, ◌++◌, length, true, false, IfOk, OnOk, OnErr};
    ghost use Rattle.std.specs.Prelude.{IsErr, IsTrue, vec_capacity};
    ghost use Rattle.std.specs.List.{All};
    ghost use Rattle.hdlc_framer.specs.FrameLength.{HasFrameLength};
    ghost use Rattle.sample_ring.specs.declared.view.Entry.{Entry};
    ghost use Rattle.sample_ring.specs.Ends.{ring_id, ring_len, reader_ring, reads_of, IsNew};
    ghost use Rattle.slicer_bank.specs.HeardOnRing.{least_position};
    ghost use Rattle.slicer_bank.specs.Stretches.{last_stretch};
    ghost use Rattle.hf_modem.specs.Busy.{HearsCarrier};
    ghost use Rattle.ring_receiver.specs.Turns.{IsTurnOf};
    ghost use Rattle.live_receiver.specs.HeardOnShortWave.{AreDue};
    ghost use Rattle.live_receiver.specs.HeldHf.{hf_answers, flags_of_hf, sensitive_of_hf, HfHears, HfLanesListen};

    /// A receiver that has read nothing, with the added lanes if it is to be sensitive. It hears other stations from so
    /// many flags in a row on, 1 to 8.
    pub fn new(
        alloc: Global,
        mut readers: Vec<Reader>,
        flags: u8,
        sensitive: bool,
    ) -> Result<HfReceiver, OutOfMemory>
        requires one { length readers.items ≡ 1 }
        requires fresh { All IsNew readers.items }
        requires flags { (1 ≤ flags) × (flags ≤ 8) }
        ensures readers { IfOk result (λ receiver. receiver.reader ∷ [] ≡ readers.items) }
        ensures hears { IfOk result (λ receiver. (len : ℕ) → HfHears len receiver) }
        ensures nothing { IfOk result (λ receiver. (len : ℕ) → hf_answers len receiver ≡ []) }
        ensures flags { IfOk result (λ receiver. flags_of_hf receiver ≡ flags) }
        ensures sensitive { IfOk result (λ receiver. sensitive_of_hf receiver ≡ sensitive) }
    {
        let Some(reader) = readers.pop() else {
            unreachable!()
        };
        HfReceiver::of_reader(alloc, reader, readers, flags, sensitive)
    }

    /// A receiver of this reader, and the Vec that the reader goes back to.
    fn of_reader(
        alloc: Global,
        reader: Reader,
        room: Vec<Reader>,
        flags: u8,
        sensitive: bool,
    ) -> Result<HfReceiver, OutOfMemory>
        requires fresh { IsNew reader }
        requires room { (room.items ≡ []) × (1 ≤ vec_capacity room) }
        requires flags { (1 ≤ flags) × (flags ≤ 8) }
        ensures reader { IfOk result (λ receiver. receiver.reader ≡ reader) }
        ensures hears { IfOk result (λ receiver. (len : ℕ) → HfHears len receiver) }
        ensures nothing { IfOk result (λ receiver. (len : ℕ) → hf_answers len receiver ≡ []) }
        ensures flags { IfOk result (λ receiver. flags_of_hf receiver ≡ flags) }
        ensures sensitive { IfOk result (λ receiver. sensitive_of_hf receiver ≡ sensitive) }
    {
        Ok(HfReceiver {
            alloc,
            reader,
            lanes: HfLanes::new(alloc, flags, sensitive)?,
            merger: Merger::new(alloc, lanes_in(sensitive))?,
            room,
            spent: false,
        })
    }

    /// The reader reads until the ring is empty or has ended, or 9600 times.
    pub fn advance(&mut self, ring: &Ring) -> Result<Heard, OutOfMemory>
        requires { reader_ring self.old.reader ≡ ring_id ring.now }
        ensures ring { reader_ring self.new.reader ≡ ring_id ring.now }
        ensures grown { (entries : List Entry) × (reads_of self.new.reader ≡ reads_of self.old.reader ++ entries) }
        ensures turn { IfOk result (λ heard. IsTurnOf 1 (hf_answers (ring_len ring.now) self.old ∷ [])
            (hf_answers (ring_len ring.now) self.new ∷ []) heard.gaps.items heard.ended) }
        ensures due { IfOk result (λ heard. HfHears (ring_len ring.now) self.old
            → AreDue (sensitive_of_hf self.old) heard.ended (hf_answers (ring_len ring.now) self.old)
            (hf_answers (ring_len ring.now) self.new) heard.items.items) }
        ensures lengths { IfOk result (λ heard. HfHears (ring_len ring.now) self.old
            → All (λ item. HasFrameLength item.octets) heard.items.items) }
        ensures hears { IfOk result (λ heard. heard.ended ≡ false → HfHears (ring_len ring.now) self.old
            → HfHears (ring_len ring.now) self.new) }
        ensures listens { OnOk result (HfLanesListen (ring_len ring.now) self.old
            → HfLanesListen (ring_len ring.now) self.new) }
        ensures least { IfOk result (λ heard. HfHears (ring_len ring.now) self.old
            → heard.least ≡ least_position (hf_answers (ring_len ring.now) self.new ∷ [])) }
        ensures forward { IfOk result (λ heard. HfHears (ring_len ring.now) self.old
            → least_position (hf_answers (ring_len ring.now) self.old ∷ []) ≤ heard.least) }
        ensures flags { flags_of_hf self.new ≡ flags_of_hf self.old }
        ensures sensitive { sensitive_of_hf self.new ≡ sensitive_of_hf self.old }
        ensures fails { self.old.spent ≡ true → IsErr result }
        ensures spent { OnErr result (self.new.spent ≡ true) }
    {
        if self.spent {
            return Err(OutOfMemory);
        }
        self.spent = true;
        let heard = hear(
            self.alloc,
            ring,
            &mut self.reader,
            &mut self.lanes,
            &mut self.merger,
        )?;
        self.spent = heard.ended;
        Ok(heard)
    }

    /// Whether another station is heard: in one of the 32 lanes so many flags in a row have come since the last gap as it listens
    /// for, and since then neither seven 1s in a row nor 10,000 bits without a flag.
    pub fn busy(&self) -> bool
        ensures { (len : ℕ) → HfLanesListen len self.now
            → (IsTrue result ↔ HearsCarrier (flags_of_hf self.now) (last_stretch (hf_answers len self.now)).samples) }
    {
        self.lanes.bank.busy()
    }

    /// Its reader, in the Vec that it was made of. It takes no memory.
    pub fn finish(self) -> Vec<Reader>
        ensures { result.items ≡ self.reader ∷ [] }
    {
        let HfReceiver {
            reader,
            mut room,
            ..
        } = self;
        room.push_reserved(reader);
        room
    }
}
