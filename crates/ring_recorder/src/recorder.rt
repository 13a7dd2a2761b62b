//! The recorder: `new`, then `advance` turn by turn, then `losses` and `write`, then `finish`.

ghost use Rattle.std.specs.Prelude.{◌≡◌};

use crate::loss::{Loss, note_gap};
use crate::writing::write_samples;
use circular_buffer::HeapCircularBuffer;
use sample_ring::{Got, Reader, Ring};
use std::alloc::Global;
use std::marker::Model;
use tnc_base::{Failed, OutOfMemory, Sink};
use wav_file::wav_head;

/// The most answers that a recorder takes in one turn: those of a second.
const MOST_READS: u32 = 9600;

/// How far a recorder has come.
#[derive(Clone, Copy, Debug, PartialEq, Eq)]
pub struct Recorded {
    /// The position of its reader.
    pub at: u64,
    /// True exactly if its reader has met the end of the ring.
    pub ended: bool,
}

/// Keeps the last samples that its reader of a ring was given, and what the reader lost.
#[derive(Drop)]
pub struct Recorder {
    reader: Reader,
    sound: HeapCircularBuffer<i16>,
    losses: Vec<Loss>,
    ended: bool,
}

impl Model for Recorder {
    ghost use Rattle.std.specs.Prelude.{◌≤◌};
    ghost use Rattle.ring_recorder.specs.Held.{HeldRecorder};

    ghost Value = { HeldRecorder };

    ghost view = { λ s. record {
      reader = s.reader;
      keep = s.sound.capacity;
      sound = s.sound.items;
      losses = s.losses.items;
      ended = s.ended;
    } };

    ghost invariant = { λ s. s.sound.capacity ≤ 17280000 };
}

impl Recorder {
    ghost use Rattle.std.specs.Prelude.{ℕ, ◌≤◌, List, ◌∷◌, ◌++◌, [], Some, false, length, map, IfOk, OnOk, OnErr};
    ghost use Rattle.sample_ring.specs.declared.got.Got.{Got};
    ghost use Rattle.sample_ring.specs.declared.view.Entry.{Entry};
    ghost use Rattle.sample_ring.specs.Ends.{IsNew, ring_id, ring_len, reader_ring, position_of, reads_of};
    ghost use Rattle.sample_ring.specs.Record.{answer};
    ghost use Rattle.tnc_base.specs.Faults.{HasRisen};
    ghost use Rattle.tnc_base.specs.Streams.{WrotePart};
    ghost use Rattle.ring_recorder.specs.Held.{StandsFor, TookAnswer};
    ghost use Rattle.ring_recorder.specs.Recording.{answers_of};
    ghost use Rattle.ring_recorder.specs.Turns.{IsTurn, reads_on};
    ghost use Rattle.ring_recorder.specs.Wave.{wave_of};

    /// A recorder of the last `keep` samples, 1 to 17,280,000 (half an hour), with a reader that has read nothing. The
    /// room for them is taken now. If it is refused, the reader is given up.
    pub fn new(alloc: Global, reader: Reader, keep: u32) -> Result<Recorder, OutOfMemory>
        requires fresh { IsNew reader }
        requires keep { (1 ≤ keep) × (keep ≤ 17280000) }
        ensures reader { IfOk result (λ recorder. recorder.reader ≡ reader) }
        ensures keep { IfOk result (λ recorder. recorder.keep ≡ keep) }
        ensures nothing { IfOk result (λ recorder. (len : ℕ) → answers_of len recorder.reader ≡ []) }
        ensures stands { IfOk result (λ recorder. (len : ℕ) → StandsFor len recorder) }
    {
        Ok(Recorder {
            reader,
            sound: HeapCircularBuffer::with_capacity(alloc, keep as usize)?,
            losses: Vec::new(alloc),
            ended: false,
        })
    }

    /// Reads until the ring is empty or has ended, or 9600 times. Room for one more loss is taken before each read, so
    /// a refusal loses no answer: what was read until then is kept, and a later call goes on.
    pub fn advance(&mut self, ring: &Ring) -> Result<Recorded, OutOfMemory>
        requires { reader_ring self.old.reader ≡ ring_id ring.now }
        ensures ring { reader_ring self.new.reader ≡ reader_ring self.old.reader }
        ensures keep { self.new.keep ≡ self.old.keep }
        ensures stands { StandsFor (ring_len ring.now) self.old → StandsFor (ring_len ring.now) self.new }
        ensures grown { (reads : List Entry) × (reads_of self.new.reader ≡ reads_of self.old.reader ++ reads)
            × OnOk result (IsTurn (map (answer (ring_len ring.now)) reads)) }
        ensures at { IfOk result (λ recorded. recorded.at ≡ position_of self.new.reader) }
        ensures ended { IfOk result (λ recorded. recorded.ended ≡ self.new.ended) }
    {
        for _ in 0..MOST_READS {
            if !self.step(ring)? {
                return Ok(self.recorded());
            }
        }
        Ok(self.recorded())
    }

    /// Reads once, and keeps what it is given. True if it reads on. A refusal leaves all as it was.
    fn step(&mut self, ring: &Ring) -> Result<bool, OutOfMemory>
        requires { reader_ring self.old.reader ≡ ring_id ring.now }
        ensures took { IfOk result (λ on. (got : Got) × (on ≡ reads_on got)
            × TookAnswer (ring_len ring.now) self.old self.new got) }
        ensures refused { OnErr result (self.new ≡ self.old) }
    {
        self.losses.reserve(1)?;
        let got = self.reader.read(ring);
        match got {
            Got::Item { sample, .. } => {
                self.sound.push_back(sample);
                Ok(true)
            }
            Got::Gap { from, to } => {
                note_gap(&mut self.losses, from, to);
                Ok(true)
            }
            Got::Empty { .. } => Ok(false),
            Got::End { .. } => {
                self.ended = true;
                Ok(false)
            }
        }
    }

    fn recorded(&self) -> Recorded
        ensures { (result.at ≡ position_of self.now.reader) × (result.ended ≡ self.now.ended) }
    {
        Recorded {
            at: self.reader.at(),
            ended: self.ended,
        }
    }

    /// What its reader lost, in the order of the positions. Two losses have a sample between them.
    pub fn losses(&self) -> &[Loss]
        ensures { result.now ≡ self.now.losses }
    {
        &self.losses
    }

    /// Writes the sound as a WAV file.
    pub fn write<O: Sink>(&self, output: &mut O) -> Result<(), Failed>
        ensures appends { (before : List ℕ) → (O.told output.old).written ≡ Some before
            → OnOk result ((O.told output.new).written ≡ Some (before ++ wave_of self.now.sound)) }
        ensures partly { (before : List ℕ) → (O.told output.old).written ≡ Some before
            → OnErr result (WrotePart before (wave_of self.now.sound) (O.told output.new).written) }
        ensures later { (O.told output.old).faults ≤ (O.told output.new).faults }
        ensures faultless { OnOk result ((O.told output.new).faults ≡ (O.told output.old).faults) }
        ensures failed { OnErr result (HasRisen (O.told output.old).faults (O.told output.new).faults) }
    {
        let Ok(head) = wav_head(self.sound.len() as u64) else {
            unreachable!()
        };
        let (first, second) = self.sound.as_slices();
        output.write(&head)?;
        write_samples(output, first)?;
        write_samples(output, second)
    }

    /// Its reader.
    pub fn finish(self) -> Reader
        ensures { result ≡ self.reader }
    {
        let Recorder { reader, .. } = self;
        reader
    }
}
