//! The receiver: samples in blocks in, each frame once and in order out.
ghost use Rattle.std.specs.Prelude.{◌≡◌, ◌+◌, ◌-◌, ◌<◌, ◌≤◌, ◌^◌, ℕ, ℤ, pos, List, [], ◌++◌, length, drop};
ghost use Rattle.std.specs.Prelude.{take, true, false, IfOk};
ghost use Rattle.std.specs.Prelude.{IsErr, OnErr, OnOk, slice_index_or};
ghost use Rattle.fx25_receiver.specs.declared.heard.Heard.{Heard};
ghost use Rattle.sensitive_blocks.specs.Bits.{reads, window_to};
ghost use Rattle.sensitive_blocks.specs.Heard.{AreMerged};
ghost use Rattle.sensitive_blocks.specs.Held.{HasTaken, IsLineOf, StandsFor, known_at, last_forty};

use crate::follower::Follower;
use crate::hearing::{Moment, hear_lanes};
use crate::lane::{TimedLane, new_lanes};
use crate::readings::Readings;
use fx25_receiver::{Heard, forget};
use std::alloc::Global;
use std::marker::Model;
use tnc_base::OutOfMemory;

/// The bits with an end are taken once so many samples more have come: then every added lane has decided its place.
const BEHIND: u64 = 33;

/// How many samples are kept: those of windows that the lanes have not taken yet.
const RECENT: usize = 40;

/// All 26 lanes, plainly and in blocks: `new`, then `block` for each block of samples, then `finish`. It keeps what was
/// heard in the last 20,000 samples before a block, for each lane 2048 bits and where they ended, and no samples but the
/// last 40. After want of memory, and after `finish`, it is spent: no later call gives items.
#[derive(Drop)]
pub struct SensitiveBlocksReceiver {
    alloc: Global,
    recent: [i16; 40],
    follower: Follower,
    readings: [Readings; 3],
    lanes: Vec<TimedLane>,
    next: u64,
    kept: Vec<Heard>,
    spent: bool,
    ghost count: { length lanes.items ≡ 26 },
}

impl Model for SensitiveBlocksReceiver {
    ghost use Rattle.std.specs.Prelude.{◌≡◌, ◌-◌, false};
    ghost use Rattle.sensitive_blocks.specs.Held.{HeldReceiver};

    ghost Value = { HeldReceiver };

    ghost view = { λ s. record {
      recent = s.recent;
      follower = s.follower;
      readings = s.readings;
      lanes = s.lanes.items;
      next = s.next;
      kept = s.kept.items;
      spent = s.spent;
    } };

    ghost invariant = { λ s. s.spent ≡ false → s.next ≡ s.follower.position - 32 };
}

impl SensitiveBlocksReceiver {
    /// A receiver that has taken nothing.
    pub fn new(alloc: Global) -> Result<SensitiveBlocksReceiver, OutOfMemory>
        ensures stands_for { IfOk result (λ receiver. StandsFor receiver [] []) }
        ensures position { IfOk result (λ receiver. receiver.follower.position ≡ 0) }
    {
        Ok(SensitiveBlocksReceiver {
            alloc,
            recent: [0; RECENT],
            follower: Follower::new(),
            readings: [Readings::NONE; 3],
            lanes: new_lanes(alloc)?,
            next: 0,
            kept: Vec::new(alloc),
            spent: false,
        })
    }

    /// Takes a block of samples, and gives the items that it settles: those that end more than 32 samples before its end.
    pub fn block(&mut self, block: &[i16]) -> Result<Vec<Heard>, OutOfMemory>
        requires room { self.old.follower.position + length block.now < 2 ^ 48 }
        ensures given { IfOk result (λ items. (x : List ℤ) (given : List Heard) → StandsFor self.old x given
            → StandsFor self.new (x ++ block.now) (given ++ items.items)) }
        ensures position { OnOk result (self.new.follower.position ≡ self.old.follower.position + length block.now) }
        ensures fails { self.old.spent ≡ true → IsErr result }
        ensures spent { OnErr result (self.new.spent ≡ true) }
    {
        if self.spent {
            return Err(OutOfMemory);
        }
        self.spent = true;
        let mut given = Vec::new(self.alloc);
        let line = self.line(block)?;
        self.take(&line, block, &mut given)?;
        self.recent
            .copy_from_slice(&line[block.len()..block.len() + RECENT]);
        forget(&mut self.kept, self.next);
        self.spent = false;
        Ok(given)
    }

    /// Gives the rest of the items: the samples have ended. The receiver is spent then, too.
    pub fn finish(&mut self) -> Result<Vec<Heard>, OutOfMemory>
        requires room { self.old.follower.position < 2 ^ 48 }
        ensures rest { IfOk result (λ items. (x : List ℤ) (given : List Heard) → StandsFor self.old x given
            → AreMerged x (given ++ items.items)) }
        ensures fails { self.old.spent ≡ true → IsErr result }
        ensures spent { self.new.spent ≡ true }
    {
        if self.spent {
            return Err(OutOfMemory);
        }
        self.spent = true;
        let mut given = Vec::new(self.alloc);
        self.hear_rest(&mut given)?;
        Ok(given)
    }

    /// The samples that are kept, and those of a block.
    fn line(&self, block: &[i16]) -> Result<Vec<i16>, OutOfMemory>
        ensures { IfOk result (λ line. line.items ≡ self.now.recent ++ block.now) }
    {
        let mut line = Vec::new(self.alloc);
        line.extend_from_slice(&self.recent)?;
        line.extend_from_slice(block)?;
        Ok(line)
    }

    /// Takes the samples of a block, and adds the items that they settle. `line` has the last forty samples before them, too.
    fn take(
        &mut self,
        line: &[i16],
        block: &[i16],
        given: &mut Vec<Heard>,
    ) -> Result<(), OutOfMemory>
        requires line { length line.now ≡ 40 + length block.now }
        requires room { self.old.follower.position + length block.now < 2 ^ 48 }
        requires spent { self.old.spent ≡ true }
        requires next { self.old.next ≡ self.old.follower.position - 32 }
        ensures taken { OnOk result ((x : List ℤ) (before : List Heard)
            → HasTaken self.old x (before ++ given.old.items)
            → IsLineOf line.now block.now self.old.follower.position x
            → HasTaken self.new x (before ++ given.new.items)) }
        ensures position { OnOk result (self.new.follower.position ≡ self.old.follower.position + length block.now) }
        ensures next { OnOk result (self.new.next ≡ self.new.follower.position - 32) }
        ensures recent { self.new.recent ≡ self.old.recent }
        ensures spent { self.new.spent ≡ self.old.spent }
    {
        for i in 0..block.len() {
            self.step(window_at(line, i), block[i], given)?;
        }
        Ok(())
    }

    /// Takes a sample, and adds the items of the bits whose end it settles, which have this window.
    fn step(
        &mut self,
        window: [i16; 8],
        sample: i16,
        given: &mut Vec<Heard>,
    ) -> Result<(), OutOfMemory>
        requires room { self.old.follower.position < 2 ^ 48 }
        requires spent { self.old.spent ≡ true }
        requires next { self.old.next ≡ self.old.follower.position - 32 }
        ensures taken { OnOk result ((x : List ℤ) (before : List Heard)
            → HasTaken self.old x (before ++ given.old.items)
            → self.old.follower.position < length x
            → sample ≡ slice_index_or x self.old.follower.position (pos 0)
            → (32 ≤ self.old.follower.position → window ≡ window_to x (self.old.follower.position - 32))
            → HasTaken self.new x (before ++ given.new.items)) }
        ensures position { self.new.follower.position ≡ self.old.follower.position + 1 }
        ensures next { OnOk result (self.new.next ≡ self.new.follower.position - 32) }
        ensures recent { self.new.recent ≡ self.old.recent }
        ensures spent { self.new.spent ≡ self.old.spent }
    {
        let known = self.follower.push(sample);
        if self.follower.position() < BEHIND {
            return Ok(());
        }
        self.hear_next(window, known, 2, given)
    }

    /// Takes the bits with the ends that no sample has settled, the last of which is the end of the samples.
    fn hear_rest(&mut self, given: &mut Vec<Heard>) -> Result<(), OutOfMemory>
        requires room { self.old.follower.position < 2 ^ 48 }
        requires spent { self.old.spent ≡ true }
        requires next { self.old.next ≡ self.old.follower.position - 32 }
        ensures taken { OnOk result ((x : List ℤ) (before : List Heard)
            → HasTaken self.old x (before ++ given.old.items)
            → self.old.follower.position ≡ length x → self.old.recent ≡ last_forty x
            → HasTaken self.new x (before ++ given.new.items)) }
        ensures next { OnOk result (self.new.next ≡ self.old.follower.position + 1) }
        ensures spent { self.new.spent ≡ self.old.spent }
    {
        let recent = self.recent;
        let position = self.follower.position();
        let first = (BEHIND - 1).saturating_sub(position);
        for i in first..BEHIND {
            let window = window_at(&recent, i as usize);
            let back = 1_u64.saturating_sub(i) as u8;
            self.hear_next(window, Readings::NONE, back, given)?;
        }
        Ok(())
    }

    /// Takes the bits with the next end, and adds the items that end with them. `known` is what is known of the place that the
    /// lanes with a delay of 2 read.
    fn hear_next(
        &mut self,
        window: [i16; 8],
        known: Readings,
        back: u8,
        given: &mut Vec<Heard>,
    ) -> Result<(), OutOfMemory>
        requires room { self.old.follower.position < 2 ^ 49 }
        requires spent { self.old.spent ≡ true }
        requires next { self.old.next < 2 ^ 49 }
        requires back { back ≤ 2 }
        ensures taken { OnOk result ((x : List ℤ) (before : List Heard)
            → HasTaken self.old x (before ++ given.old.items)
            → self.old.next ≤ length x
            → known ≡ known_at x (self.old.next + 2)
            → window ≡ window_to x self.old.next
            → ((lane : ℕ) → 8 ≤ lane → lane < 26 → reads x lane self.old.next ≡ true
            → (back + self.old.next + 31 ≡ self.old.follower.position) × (39 ≤ self.old.follower.position))
            → HasTaken self.new x (before ++ given.new.items)) }
        ensures next { self.new.next ≡ self.old.next + 1 }
        ensures follower { self.new.follower ≡ self.old.follower }
        ensures recent { self.new.recent ≡ self.old.recent }
        ensures spent { self.new.spent ≡ self.old.spent }
    {
        self.readings = [self.readings[1], self.readings[2], known];
        let moment = Moment {
            readings: self.readings,
            window,
            back,
        };
        let end = self.next;
        self.next += 1;
        hear_lanes(
            self.alloc,
            &moment,
            &self.follower,
            &mut self.lanes,
            end,
            &mut self.kept,
            given,
        )
    }
}

/// The eight samples of a line from one on.
fn window_at(line: &[i16], first: usize) -> [i16; 8]
    requires { first + 8 ≤ length line.now }
    ensures { result ≡ take 8 (drop first line.now) }
{
    *line[first..].first_chunk().unwrap()
}
