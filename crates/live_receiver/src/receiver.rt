//! The receiver of a live station, in whatever way it listens.

use crate::hf_receiver::HfReceiver;
use crate::listening::Listening;
use fx25_ring::Fx25RingReceiver;
use ring_receiver::{Heard, RingReceiver};
use sample_ring::{Reader, Ring};
use slicer_bank::{Detection, Gate};
use std::alloc::Global;
use std::thread::Threads;
use tnc_base::OutOfMemory;

/// A receiver of a live station: `new`, then `advance` turn by turn, then `finish`. After want of memory, and after the
/// turn in which every reader has met the end of the ring, it is spent: no later turn reads, and each wants memory.
#[derive(Drop)]
pub enum LiveReceiver {
    /// It hears Bell 202.
    Bell202(RingReceiver),
    /// It hears short wave.
    ShortWave(HfReceiver),
    /// It hears Bell 202, also in blocks of FX.25.
    Fx25(Fx25RingReceiver),
}

impl LiveReceiver {
    ghost use Rattle.std.specs.Prelude.{◌≡◌, ℕ, ◌≤◌, ◌↔◌, [], length, replicate, false, IfOk, OnOk, IsTrue};
    ghost use Rattle.std.specs.List.{All};
    ghost use Rattle.hdlc_framer.specs.FrameLength.{HasFrameLength};
    ghost use Rattle.sample_ring.specs.Ends.{ring_id, ring_len, reader_ring, IsNew};
    ghost use Rattle.slicer_bank.specs.HeardOnRing.{least_position};
    ghost use Rattle.ring_receiver.specs.Turns.{AreGrownBy, IsTurnOf};
    ghost use Rattle.live_receiver.specs.Listening.{readers_wanted, AreDueBy, CanBeAskedBy, IsBusyBy};
    ghost use Rattle.live_receiver.specs.LiveReceivers.{listening_of, detection_of, readers_in, records_in};
    ghost use Rattle.live_receiver.specs.LiveReceivers.{answers_in, LanesListen, Hears};

    /// A receiver that has read nothing. It hears other stations as it is asked to: from so many flags in a row on, 1 to
    /// 8, or by their tones, which are known for Bell 202 alone where no blocks are read.
    pub fn new(
        alloc: Global,
        readers: Vec<Reader>,
        detection: Detection,
        listening: Listening,
    ) -> Result<LiveReceiver, OutOfMemory>
        requires count { length readers.items ≡ readers_wanted listening }
        requires fresh { All IsNew readers.items }
        requires detection { CanBeAskedBy listening detection }
        ensures readers { IfOk result (λ receiver. readers_in receiver ≡ readers.items) }
        ensures hears { IfOk result (λ receiver. (len : ℕ) → Hears len receiver) }
        ensures nothing { IfOk result (λ receiver. (len : ℕ)
            → answers_in len receiver ≡ replicate (readers_wanted listening) []) }
        ensures detection { IfOk result (λ receiver. detection_of receiver ≡ detection) }
        ensures listening { IfOk result (λ receiver. listening_of receiver ≡ listening) }
    {
        match (listening, detection) {
            (Listening::Bell202 { sensitive }, _) => Ok(LiveReceiver::Bell202(RingReceiver::new(
                alloc, readers, detection, sensitive,
            )?)),
            (Listening::ShortWave { sensitive }, Detection::Flags(flags)) => {
                Ok(LiveReceiver::ShortWave(HfReceiver::new(alloc, readers, flags, sensitive)?))
            }
            (Listening::Fx25 { sensitive }, Detection::Flags(flags)) => Ok(LiveReceiver::Fx25(
                Fx25RingReceiver::new(alloc, readers, flags, sensitive)?,
            )),
            (Listening::ShortWave { .. } | Listening::Fx25 { .. }, Detection::Tones) => {
                unreachable!()
            }
        }
    }

    /// Each reader reads until the ring is empty or has ended, or 9600 times. Two threads share the eight lanes of Bell
    /// 202, and `gate` is told as the job of each of them starts.
    pub fn advance<R: Threads + Sync, G: Gate>(
        &mut self,
        rt: &R,
        ring: &Ring,
        gate: &G,
    ) -> Result<Heard, OutOfMemory>
        requires { All (λ reader. reader_ring reader ≡ ring_id ring.now) (readers_in self.old) }
        ensures ring { All (λ reader. reader_ring reader ≡ ring_id ring.now) (readers_in self.new) }
        ensures grown { AreGrownBy (readers_wanted (listening_of self.old)) (records_in self.old)
            (records_in self.new) }
        ensures turn { IfOk result (λ heard. IsTurnOf (readers_wanted (listening_of self.old))
            (answers_in (ring_len ring.now) self.old) (answers_in (ring_len ring.now) self.new)
            heard.gaps.items heard.ended) }
        ensures due { IfOk result (λ heard. Hears (ring_len ring.now) self.old
            → AreDueBy (listening_of self.old) heard.ended (answers_in (ring_len ring.now) self.old)
            (answers_in (ring_len ring.now) self.new) heard.items.items) }
        ensures lengths { IfOk result (λ heard. Hears (ring_len ring.now) self.old
            → All (λ item. HasFrameLength item.octets) heard.items.items) }
        ensures hears { IfOk result (λ heard. heard.ended ≡ false → Hears (ring_len ring.now) self.old
            → Hears (ring_len ring.now) self.new) }
        ensures listens { OnOk result (LanesListen (ring_len ring.now) self.old
            → LanesListen (ring_len ring.now) self.new) }
        ensures least { IfOk result (λ heard. Hears (ring_len ring.now) self.old
            → heard.least ≡ least_position (answers_in (ring_len ring.now) self.new)) }
        ensures forward { IfOk result (λ heard. Hears (ring_len ring.now) self.old
            → least_position (answers_in (ring_len ring.now) self.old) ≤ heard.least) }
        ensures detection { detection_of self.new ≡ detection_of self.old }
        ensures listening { listening_of self.new ≡ listening_of self.old }
    {
        match self {
            LiveReceiver::Bell202(receiver) => receiver.advance(rt, ring, gate),
            LiveReceiver::ShortWave(receiver) => receiver.advance(ring),
            LiveReceiver::Fx25(receiver) => receiver.advance(ring),
        }
    }

    /// Whether another station is heard: one of the eight lanes of Bell 202, or of the 32 of short wave, hears it since its
    /// last gap. Where blocks are read, the channel is busy while one comes in, too.
    pub fn busy(&self) -> bool
        ensures { (len : ℕ) → LanesListen len self.now
            → IsTrue result ↔ IsBusyBy (listening_of self.now) (detection_of self.now) (answers_in len self.now) }
    {
        match self {
            LiveReceiver::Bell202(receiver) => receiver.busy(),
            LiveReceiver::ShortWave(receiver) => receiver.busy(),
            LiveReceiver::Fx25(receiver) => receiver.busy(),
        }
    }

    /// Its readers, in their order, in the Vec that it was made of. It takes no memory.
    pub fn finish(self) -> Vec<Reader>
        ensures items { result.items ≡ readers_in self }
        ensures most { length result.items ≤ 9 }
    {
        match self {
            LiveReceiver::Bell202(receiver) => receiver.finish(),
            LiveReceiver::ShortWave(receiver) => receiver.finish(),
            LiveReceiver::Fx25(receiver) => receiver.finish(),
        }
    }
}
