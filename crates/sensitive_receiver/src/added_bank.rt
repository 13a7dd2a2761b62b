//! The eighteen lanes that are added to one for each offset of a bit.

ghost use Rattle.std.specs.Prelude.{◌≡◌, ◌+◌, ◌<◌, ◌^◌, [], length, IfOk, OnOk};
ghost use Rattle.std.specs.List.{All};
ghost use Rattle.slicer_bank.specs.Feeding.{FeedsBlock};
ghost use Rattle.slicer_bank.specs.Merging.{AllPast, CanBePut};
ghost use Rattle.sensitive_receiver.specs.HeardBlock.{HearsBlock};
ghost use Rattle.sensitive_receiver.specs.HeldLanes.{StandsFor};

use crate::added_banks::AddedBanks;
use crate::pieces::{feed_block, feed_block_beside};
use frame_merge::Candidate;
use slicer_bank::Bank;
use std::alloc::Global;
use std::marker::Model;
use std::thread::{Threads, join_mut};
use tnc_base::OutOfMemory;
use tone_tracking::ToneLine;

/// The most samples whose tones are decided at once, so that they are at hand when the lanes read them.
const PIECE: usize = 2048;

/// The fewest samples of a block of which each thread has more to do than it takes to start one.
const LONG: usize = 16384;

/// The tones of samples without their mean, and the five banks of lanes that read them: `new`, then `feed` for
/// each block of samples. After want of memory it is spent: each later `feed` wants memory, too.
#[derive(Drop)]
pub struct AddedBank {
    alloc: Global,
    spent: bool,
    line: ToneLine,
    banks: AddedBanks,
}

impl Model for AddedBank {
    ghost use Rattle.std.specs.Prelude.{◌≡◌, false};
    ghost use Rattle.tone_tracking.specs.HeldLine.{decided_in};
    ghost use Rattle.sensitive_receiver.specs.HeldLanes.{HeldBank};
    ghost use Rattle.sensitive_receiver.specs.FiveBanks.{AreAt};

    ghost Value = { HeldBank };

    ghost view = { λ s. record {
      position = s.line.count;
      line = s.line;
      banks = s.banks;
    } };

    ghost invariant = { λ s. s.spent ≡ false → AreAt (decided_in s.line.count) s.banks };
}

impl AddedBank {
    /// Lanes that have taken nothing.
    pub fn new(alloc: Global) -> Result<AddedBank, OutOfMemory>
        ensures stands_for { IfOk result (λ bank. StandsFor bank []) }
        ensures position { IfOk result (λ bank. bank.position ≡ 0) }
    {
        Ok(AddedBank {
            alloc,
            spent: false,
            line: ToneLine::new(alloc)?,
            banks: AddedBanks::new(alloc)?,
        })
    }

    /// Takes a block of samples, and gives the candidates of the places that it decides.
    pub fn feed(&mut self, block: &[i16]) -> Result<Vec<Candidate>, OutOfMemory>
        requires { self.old.position + length block.now < 2 ^ 48 }
        ensures { IfOk result (λ found. HearsBlock self.old self.new block.now found.items) }
    {
        if self.spent {
            return Err(OutOfMemory);
        }
        self.spent = true;
        let found = feed_block(self.alloc, PIECE, &mut self.line, &mut self.banks, block)?;
        self.spent = false;
        Ok(found)
    }

    /// Does what [`AddedBank::feed`] does, and [`Bank::feed`] for eight plain lanes. If the block is long, the tones are decided
    /// on threads, and then the banks of added lanes and the eight lanes share the machine. Otherwise all added lanes have one
    /// thread, and the eight lanes another.
    pub fn feed_beside<R: Threads + Sync>(
        &mut self,
        rt: &R,
        bank: &mut Bank,
        block: &[i16],
    ) -> Result<(Vec<Candidate>, Vec<Candidate>), OutOfMemory>
        requires room { self.old.position + length block.now < 2 ^ 48 }
        requires bank { bank.old.position + length block.now < 2 ^ 48 }
        ensures eight { IfOk result (λ heard. FeedsBlock bank.old bank.new block.now heard.0.items) }
        ensures eight_bounds { IfOk result (λ heard. All CanBePut heard.0.items) }
        ensures eight_past { IfOk result (λ heard. AllPast bank.old.position heard.0.items) }
        ensures eight_position { OnOk result (bank.new.position ≡ bank.old.position + length block.now) }
        ensures added { IfOk result (λ heard. HearsBlock self.old self.new block.now heard.1.items) }
    {
        if block.len() < LONG {
            let (added, found) = join_mut(rt, &mut || self.feed(block), &mut || bank.feed(block));
            return Ok((found?, added?));
        }
        if self.spent {
            return Err(OutOfMemory);
        }
        self.spent = true;
        let heard = feed_block_beside(rt, &mut self.line, &mut self.banks, bank, block)?;
        self.spent = false;
        Ok(heard)
    }
}
