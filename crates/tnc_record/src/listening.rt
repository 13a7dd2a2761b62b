//! One turn of a recording.
//!
//! What is heard in a turn is written once nothing of it can fail any more. So if memory is wanted, no line is written
//! of a turn whose lines are not all made.

ghost use Rattle.std.specs.Prelude.{◌≡◌, ◌+◌, ◌≤◌, ◌++◌, ℕ, [], ◌∷◌, false, length, All, IfOk, OnOk, OnErr};
ghost use Rattle.sample_ring.specs.Ends.{ring_len, IsNew};
ghost use Rattle.ring_receiver.specs.HeldReceiver.{readers_in};
ghost use Rattle.ring_receiver.specs.Readers.{readers_wanted};
ghost use Rattle.tnc_record.specs.declared.recording.RecordWords.{RecordWords};
ghost use Rattle.tnc_record.specs.HeldListening.{ReadsRing, StandsForRecording, HearsMore, StopsHearing, Turns};
ghost use Rattle.tnc_record.specs.HeldListening.{IsCutOff};
ghost use Rattle.tnc_record.specs.RecordTurns.{Recording, new_recording};

use crate::lines::text_of_turn;
use crate::recording::RecordWords;
use ring_receiver::RingReceiver;
use ring_recorder::Recorder;
use sample_ring::{Reader, Ring};
use slicer_bank::{Detection, OpenGate};
use std::alloc::Global;
use std::thread::Threads;
use tnc_base::{OutOfMemory, Sink};
use tnc_ports::put;

/// By what the channel is busy. Nothing asks whether it is, so no tones are weighed.
const DETECTION: Detection = Detection::Flags(1);

/// What reads the ring, between two turns.
#[derive(Drop)]
pub(crate) struct Listening {
    pub(crate) receiver: RingReceiver,
    pub(crate) recorder: Recorder,
    /// Each reader of the receiver has met the end of the ring.
    pub(crate) over: bool,
    /// A write failed, so nothing more is written.
    pub(crate) failed: bool,
}

impl Listening {
    /// A receiver and a recorder that have read nothing. The recorder has the last of the readers.
    pub(crate) fn new(
        alloc: Global,
        words: &RecordWords,
        mut readers: Vec<Reader>,
    ) -> Result<Listening, OutOfMemory>
        requires keep { (1 ≤ words.now.keep) × (words.now.keep ≤ 17280000) }
        requires count { length readers.items ≡ readers_wanted words.now.sensitive + 1 }
        requires fresh { All IsNew readers.items }
        ensures stands { IfOk result (λ listening. (len : ℕ)
            → StandsForRecording words.now len listening (new_recording words.now.sensitive)) }
        ensures readers { IfOk result (λ listening.
            readers_in listening.receiver ++ listening.recorder.reader ∷ [] ≡ readers.items) }
        ensures unfailed { IfOk result (λ listening. listening.failed ≡ false) }
    {
        let Some(last) = readers.pop() else {
            unreachable!()
        };
        Ok(Listening {
            receiver: RingReceiver::new(alloc, readers, DETECTION, words.sensitive)?,
            recorder: Recorder::new(alloc, last, words.keep)?,
            over: false,
            failed: false,
        })
    }

    /// Makes a turn, and answers whether all readers have met the end of the ring.
    pub(crate) fn turn<R: Threads + Sync, E: Sink>(
        &mut self,
        rt: &R,
        alloc: Global,
        ring: &Ring,
        report: &mut E,
    ) -> Result<bool, OutOfMemory>
        requires { ReadsRing ring.now self.old }
        ensures ring { ReadsRing ring.now self.new }
        ensures turned { (words : RecordWords) (recording : Recording)
            → StandsForRecording words (ring_len ring.now) self.old recording
            → IfOk result (λ ended. Turns words ended self.old self.new (ring_len ring.now) recording
            (E.told report.old) (E.told report.new)) }
        ensures cut { (words : RecordWords) (recording : Recording)
            → StandsForRecording words (ring_len ring.now) self.old recording
            → OnErr result (IsCutOff words self.old self.new (ring_len ring.now) recording
            (E.told report.old) (E.told report.new)) }
    {
        self.hear(rt, alloc, ring, report)?;
        let recorded = self.recorder.advance(ring)?;
        Ok(self.over && recorded.ended)
    }

    /// Lets the receiver read on, and reports the gaps and the frames that are due. A receiver that is over reads no
    /// more.
    fn hear<R: Threads + Sync, E: Sink>(
        &mut self,
        rt: &R,
        alloc: Global,
        ring: &Ring,
        report: &mut E,
    ) -> Result<(), OutOfMemory>
        requires { ReadsRing ring.now self.old }
        ensures ring { ReadsRing ring.now self.new }
        ensures heard { (words : RecordWords) (recording : Recording)
            → StandsForRecording words (ring_len ring.now) self.old recording
            → OnOk result (HearsMore words self.old self.new (ring_len ring.now) recording
            (E.told report.old) (E.told report.new)) }
        ensures cut { (words : RecordWords) (recording : Recording)
            → StandsForRecording words (ring_len ring.now) self.old recording
            → OnErr result (StopsHearing words self.old self.new (ring_len ring.now) recording
            (E.told report.old) (E.told report.new)) }
    {
        if self.over {
            return Ok(());
        }
        let heard = self.receiver.advance(rt, ring, &OpenGate)?;
        let text = text_of_turn(alloc, &heard)?;
        put(report, &mut self.failed, &text);
        self.over = heard.ended;
        Ok(())
    }
}
