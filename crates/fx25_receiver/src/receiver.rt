//! The receiver: samples in blocks in, each frame once and in order out.
ghost use Rattle.std.specs.Prelude.{◌≡◌, ◌<◌, ◌≤◌, ◌+◌, ◌^◌, ℤ, List, [], ◌++◌, length, take, drop, true, IfOk, IsErr, OnErr, OnOk};
ghost use Rattle.std.specs.Prelude.{◌↔◌, IsTrue};
ghost use Rattle.slicer_bank.specs.Held.{last_seven};
ghost use Rattle.fx25_receiver.specs.declared.heard.Heard.{Heard};
ghost use Rattle.fx25_receiver.specs.Ahead.{IsAhead};
ghost use Rattle.fx25_receiver.specs.Coming.{HearsBlock};
ghost use Rattle.fx25_receiver.specs.Held.{HasTaken, StandsFor};

use crate::ahead::{is_some_waiting, run_ahead};
use crate::heard::Heard;
use crate::hearing::{Place, hear_blocks, hear_frame};
use crate::lane::{Lane, is_some_block_coming, new_lanes};
use crate::merging::forget;
use offset_slicers::decide;
use slicer_bank::{bridge, keep_last};
use std::alloc::Global;
use std::marker::Model;
use tnc_base::OutOfMemory;

/// Eight lanes that hear frames plainly and in blocks: `new`, then `block` for each block of samples. It keeps what was
/// heard in the last 20,000 samples before a block, 2048 bits a lane, and no samples but the last seven. After want of
/// memory it is spent: no later call gives items.
#[derive(Drop)]
pub struct Fx25Receiver {
    alloc: Global,
    lanes: Vec<Lane>,
    recent: [i16; 7],
    position: u64,
    kept: Vec<Heard>,
    spent: bool,
    ghost count: { length lanes.items ≡ 8 },
}

impl Model for Fx25Receiver {
    ghost use Rattle.fx25_receiver.specs.Held.{Held};

    ghost Value = { Held };

    ghost view = { λ s. record {
      lanes = s.lanes.items;
      recent = s.recent;
      position = s.position;
      kept = s.kept.items;
      spent = s.spent;
    } };
}

impl Fx25Receiver {
    /// A receiver that has taken nothing.
    pub fn new(alloc: Global) -> Result<Fx25Receiver, OutOfMemory>
        ensures stands_for { IfOk result (λ receiver. StandsFor receiver [] []) }
        ensures position { IfOk result (λ receiver. receiver.position ≡ 0) }
    {
        Ok(Fx25Receiver {
            alloc,
            lanes: new_lanes(alloc)?,
            recent: [0; 7],
            position: 0,
            kept: Vec::new(alloc),
            spent: false,
        })
    }

    /// Takes a block of samples, and gives the items that end with them.
    pub fn block(&mut self, block: &[i16]) -> Result<Vec<Heard>, OutOfMemory>
        requires room { self.old.position + length block.now < 2 ^ 48 }
        ensures given { IfOk result (λ items. (x : List ℤ) (given : List Heard) → StandsFor self.old x given
            → StandsFor self.new (x ++ block.now) (given ++ items.items)) }
        ensures position { OnOk result (self.new.position ≡ self.old.position + length block.now) }
        ensures fails { self.old.spent ≡ true → IsErr result }
        ensures spent { OnErr result (self.new.spent ≡ true) }
    {
        if self.spent {
            return Err(OutOfMemory);
        }
        self.spent = true;
        let mut given = Vec::new(self.alloc);
        self.take(block, &mut given)?;
        keep_last(&mut self.recent, block);
        forget(&mut self.kept, self.position);
        self.spent = false;
        Ok(given)
    }

    /// Whether a block is coming in: a tag of which at most 8 bits are wrong has come in some lane, and its block is not
    /// over or was over at most 64 bits ago.
    pub fn is_block_coming(&self) -> bool
        ensures { (x : List ℤ) (given : List Heard) → StandsFor self.now x given → (IsTrue result ↔ HearsBlock x) }
    {
        is_some_block_coming(&self.lanes)
    }

    /// Takes the samples of a block, and adds the items that end with them.
    fn take(&mut self, block: &[i16], given: &mut Vec<Heard>) -> Result<(), OutOfMemory>
        requires room { self.old.position + length block.now < 2 ^ 48 }
        ensures taken { OnOk result ((x : List ℤ) (before : List Heard) → self.old.recent ≡ last_seven x
            → HasTaken self.old x (before ++ given.old.items)
            → HasTaken self.new (x ++ block.now) (before ++ given.new.items)) }
        ensures position { OnOk result (self.new.position ≡ self.old.position + length block.now) }
        ensures recent { self.new.recent ≡ self.old.recent }
        ensures spent { self.new.spent ≡ self.old.spent }
    {
        let (first, _) = block.split_at(block.len().min(7));
        let bridge = bridge(&self.recent, first);
        self.slide(&bridge[..7 + first.len()], given)?;
        if block.len() <= 7 {
            return Ok(());
        }
        self.run(block, given)
    }

    /// Takes the samples of a piece past its first seven, which are the last seven that were taken, and adds the items
    /// that end with them: 64 samples at once while there are as many.
    fn run(&mut self, piece: &[i16], given: &mut Vec<Heard>) -> Result<(), OutOfMemory>
        requires seven { 7 ≤ length piece.now }
        requires begun { 7 ≤ self.old.position }
        requires room { self.old.position + length piece.now < 2 ^ 48 + 7 }
        ensures taken { OnOk result ((x : List ℤ) (before : List Heard) → last_seven x ≡ take 7 piece.now
            → HasTaken self.old x (before ++ given.old.items)
            → HasTaken self.new (x ++ drop 7 piece.now) (before ++ given.new.items)) }
        ensures position { OnOk result (self.new.position + 7 ≡ self.old.position + length piece.now) }
        ensures recent { self.new.recent ≡ self.old.recent }
        ensures spent { self.new.spent ≡ self.old.spent }
    {
        let mut rest = piece;
        while let Some((stretch, _)) = rest.split_first_chunk::<71>() {
            self.stride(stretch, given)?;
            rest = &rest[64..];
        }
        self.slide(rest, given)
    }

    /// Takes 64 samples that follow the last seven that were taken, and adds the items that end with them.
    fn stride(&mut self, stretch: &[i16; 71], given: &mut Vec<Heard>) -> Result<(), OutOfMemory>
        requires begun { 7 ≤ self.old.position }
        requires room { self.old.position + 64 < 2 ^ 48 }
        ensures taken { OnOk result ((x : List ℤ) (before : List Heard) → last_seven x ≡ take 7 stretch.now
            → HasTaken self.old x (before ++ given.old.items)
            → HasTaken self.new (x ++ drop 7 stretch.now) (before ++ given.new.items)) }
        ensures position { OnOk result (self.new.position ≡ self.old.position + 64) }
        ensures recent { self.new.recent ≡ self.old.recent }
        ensures spent { self.new.spent ≡ self.old.spent }
    {
        let waiting = run_ahead(&mut self.lanes, self.position, stretch);
        if is_some_waiting(&waiting) {
            return self.follow(stretch, &waiting, given);
        }
        self.position += 64;
        Ok(())
    }

    /// Takes the samples of a piece past its first seven one by one, and adds the items that end with them.
    fn slide(&mut self, piece: &[i16], given: &mut Vec<Heard>) -> Result<(), OutOfMemory>
        requires seven { 7 ≤ length piece.now }
        requires room { self.old.position + length piece.now < 2 ^ 48 + 7 }
        ensures taken { OnOk result ((x : List ℤ) (before : List Heard) → last_seven x ≡ take 7 piece.now
            → HasTaken self.old x (before ++ given.old.items)
            → HasTaken self.new (x ++ drop 7 piece.now) (before ++ given.new.items)) }
        ensures position { OnOk result (self.new.position + 7 ≡ self.old.position + length piece.now) }
        ensures recent { self.new.recent ≡ self.old.recent }
        ensures spent { self.new.spent ≡ self.old.spent }
    {
        self.follow(piece, &[true; 8], given)
    }

    /// Takes the samples of a piece past its first seven one by one, and adds the items that end with them. Lanes that do
    /// not wait have taken their windows.
    fn follow(
        &mut self,
        piece: &[i16],
        waiting: &[bool; 8],
        given: &mut Vec<Heard>,
    ) -> Result<(), OutOfMemory>
        requires seven { 7 ≤ length piece.now }
        requires room { self.old.position + length piece.now < 2 ^ 48 + 7 }
        ensures taken { OnOk result ((x : List ℤ) (before : List Heard) → last_seven x ≡ take 7 piece.now
            → IsAhead self.old waiting.now x (x ++ drop 7 piece.now) (before ++ given.old.items)
            → HasTaken self.new (x ++ drop 7 piece.now) (before ++ given.new.items)) }
        ensures position { OnOk result (self.new.position + 7 ≡ self.old.position + length piece.now) }
        ensures recent { self.new.recent ≡ self.old.recent }
        ensures spent { self.new.spent ≡ self.old.spent }
    {
        let mut rest = piece;
        while let Some((window, _)) = rest.split_first_chunk::<8>() {
            self.step(window, waiting, given)?;
            rest = &rest[1..];
        }
        Ok(())
    }

    /// Takes the last sample of a window, whose others are the last seven that were taken, and adds the items that end
    /// with it, unless its lane is ahead.
    fn step(
        &mut self,
        window: &[i16; 8],
        waiting: &[bool; 8],
        given: &mut Vec<Heard>,
    ) -> Result<(), OutOfMemory>
        requires room { self.old.position + 1 < 2 ^ 48 }
        ensures taken { OnOk result ((x more : List ℤ) (before : List Heard) → last_seven x ≡ take 7 window.now
            → IsAhead self.old waiting.now x ((x ++ drop 7 window.now) ++ more) (before ++ given.old.items)
            → IsAhead self.new waiting.now (x ++ drop 7 window.now) ((x ++ drop 7 window.now) ++ more)
            (before ++ given.new.items)) }
        ensures position { OnOk result (self.new.position ≡ self.old.position + 1) }
        ensures recent { self.new.recent ≡ self.old.recent }
        ensures spent { self.new.spent ≡ self.old.spent }
    {
        self.position += 1;
        if self.position < 8 {
            return Ok(());
        }
        let place = Place {
            offset: (self.position % 8) as u8,
            end: self.position,
        };
        if !waiting[place.offset as usize] {
            return Ok(());
        }
        let lane = &mut self.lanes[place.offset as usize];
        let plain = lane.push_window(decide(window), window);
        hear_frame(self.alloc, lane, plain, place, &mut self.kept, given)?;
        hear_blocks(self.alloc, lane, place, &mut self.kept, given)?;
        Ok(())
    }
}
