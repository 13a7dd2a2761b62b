//! One lane of a bank that reads a ring.
ghost use Rattle.std.specs.Prelude.{◌≡◌};

use crate::advance::LaneGap;
use crate::detection::Detection;
use crate::stretch_hearing::hear;
use crate::stretch_lane::StretchLane;
use frame_merge::Candidate;
use sample_ring::{Got, Reader, Ring};
use std::alloc::Global;
use tnc_base::OutOfMemory;

/// The most answers that a lane takes in one turn: those of a second.
const MOST_READS: u32 = 9600;

/// A lane with its reader of the ring, and what it found in this turn.
#[derive(Drop)]
pub struct RingLane {
    pub(crate) reader: Reader,
    pub(crate) lane: StretchLane,
    /// What the lane heard in this turn, and the gaps that it was told of.
    pub(crate) found: Vec<Candidate>,
    pub(crate) gaps: Vec<LaneGap>,
    /// The last answer was the end of the ring.
    pub(crate) ended: bool,
    /// A growth that the lane wanted was not given.
    pub(crate) spent: bool,
    ghost at_reader: { lane.slicer.position ≡ reader.at },
}

impl RingLane {
    ghost use Rattle.std.specs.Prelude.{ℕ, ◌+◌, ◌^◌, ◌<◌, ◌≤◌, List, [], ◌∷◌, ◌++◌, true, false, IfOk, OnErr, OnOk};
    ghost use Rattle.sample_ring.specs.declared.got.Got.{Got};
    ghost use Rattle.sample_ring.specs.declared.view.Entry.{Entry};
    ghost use Rattle.sample_ring.specs.Ends.{IsNew, ring_id, ring_len, reader_ring, reads_of};
    ghost use Rattle.slicer_bank.specs.Detection.{CanBeAsked};
    ghost use Rattle.slicer_bank.specs.RingJobs.{StaysLane, TookAnswer, MadeTurn, IsAlike, IsTaken};
    ghost use Rattle.slicer_bank.specs.RingLanes.{LaneListens};
    ghost use Rattle.slicer_bank.specs.RingTurns.{reads_on};

    /// A lane that has read nothing.
    pub(crate) fn new(alloc: Global, reader: Reader, offset: u8, detection: Detection) -> RingLane
        requires lane { offset < 8 }
        requires fresh { IsNew reader }
        requires detection { CanBeAsked detection }
        ensures reader { result.reader ≡ reader }
        ensures listens { (len : ℕ) → LaneListens len detection offset result }
        ensures taken { IsTaken result }
    {
        RingLane {
            reader,
            lane: StretchLane::new(offset, detection),
            found: Vec::new(alloc),
            gaps: Vec::new(alloc),
            ended: false,
            spent: false,
        }
    }

    /// Makes a turn of reading: until the ring is empty or has ended, or as often as a lane reads in a turn. Want of
    /// memory ends it and is kept. What an earlier turn found must be taken.
    pub(crate) fn advance(&mut self, alloc: Global, ring: &Ring)
        requires ring { reader_ring self.old.reader ≡ ring_id ring.now }
        requires taken { (self.old.found.items ≡ []) × (self.old.gaps.items ≡ []) }
        ensures stays { StaysLane self.old self.new }
        ensures grown { (entries : List Entry) × (reads_of self.new.reader ≡ reads_of self.old.reader ++ entries) }
        ensures made { self.new.spent ≡ false → MadeTurn (ring_len ring.now) self.old self.new }
    {
        match self.read_on(alloc, ring) {
            Ok(()) => {}
            Err(OutOfMemory) => self.spent = true,
        }
    }

    /// Hands over what it found in this turn, unless it wanted memory.
    pub(crate) fn hand_over(
        &mut self,
        candidates: &mut Vec<Candidate>,
        gaps: &mut Vec<LaneGap>,
    ) -> Result<(), OutOfMemory>
        ensures alike { IsAlike self.old self.new }
        ensures spent { OnOk result (self.old.spent ≡ false) }
        ensures taken { OnOk result (IsTaken self.new) }
        ensures candidates { OnOk result (candidates.new.items ≡ candidates.old.items ++ self.old.found.items) }
        ensures gaps { OnOk result (gaps.new.items ≡ gaps.old.items ++ self.old.gaps.items) }
    {
        if self.spent {
            return Err(OutOfMemory);
        }
        candidates.append(&mut self.found)?;
        gaps.append(&mut self.gaps)?;
        Ok(())
    }

    fn read_on(&mut self, alloc: Global, ring: &Ring) -> Result<(), OutOfMemory>
        requires ring { reader_ring self.old.reader ≡ ring_id ring.now }
        requires taken { (self.old.found.items ≡ []) × (self.old.gaps.items ≡ []) }
        ensures stays { StaysLane self.old self.new }
        ensures grown { (entries : List Entry) × (reads_of self.new.reader ≡ reads_of self.old.reader ++ entries) }
        ensures made { OnOk result (MadeTurn (ring_len ring.now) self.old self.new) }
        ensures spent { self.new.spent ≡ self.old.spent }
    {
        for _ in 0..MOST_READS {
            if !self.step(alloc, ring)? {
                return Ok(());
            }
        }
        Ok(())
    }

    /// Reads once, and hears what it is given. True if the lane reads on: it was given a sample or told of a gap.
    fn step(&mut self, alloc: Global, ring: &Ring) -> Result<bool, OutOfMemory>
        requires ring { reader_ring self.old.reader ≡ ring_id ring.now }
        ensures stays { StaysLane self.old self.new }
        ensures grown { (entry : Entry) × (reads_of self.new.reader ≡ reads_of self.old.reader ++ entry ∷ []) }
        ensures took { IfOk result (λ on. (got : Got) × (on ≡ reads_on got)
            × TookAnswer (ring_len ring.now) self.old self.new got) }
        ensures spent { self.new.spent ≡ self.old.spent }
    {
        let got = self.reader.read(ring);
        self.ended = false;
        match got {
            Got::Item { at, sample } => {
                hear(alloc, &mut self.lane, at + 1, sample, &mut self.found)?;
                Ok(true)
            }
            Got::Gap { from, to } => {
                self.lane.begin(to);
                let lane = self.lane.offset;
                self.gaps.push(LaneGap { lane, from, to })?;
                Ok(true)
            }
            Got::Empty { .. } => Ok(false),
            Got::End { .. } => {
                self.ended = true;
                Ok(false)
            }
        }
    }
}
