//! The bank of eight lanes.

ghost use Rattle.std.specs.Prelude.{◌≡◌, ◌↔◌, ◌+◌, ◌<◌, ◌≤◌, ◌^◌, ℤ, List, [], length, true, false, IfOk, OnOk};
ghost use Rattle.std.specs.Prelude.{OnErr, IsErr, IsTrue};
ghost use Rattle.std.specs.List.{All};
ghost use Rattle.slicer_bank.specs.Busy.{HearsCarrier};
ghost use Rattle.slicer_bank.specs.Held.{StandsFor};
ghost use Rattle.slicer_bank.specs.Feeding.{FeedsBlock};
ghost use Rattle.slicer_bank.specs.Merging.{CanBePut, AllPast};

use crate::gate::Gate;
use crate::gathering::{hear_block, hear_block_threads};
use crate::lane::{Lane, is_some_busy, new_lanes};
use frame_merge::Candidate;
use std::alloc::Global;
use std::marker::Model;
use std::thread::Threads;
use tnc_base::OutOfMemory;

/// Eight lanes, one for each offset of a bit. After want of memory it is spent: no later call gives candidates.
#[derive(Drop)]
pub struct Bank {
    alloc: Global,
    lanes: Vec<Lane>,
    recent: [i16; 7],
    position: u64,
    flags: u8,
    spent: bool,
}

impl Model for Bank {
    ghost use Rattle.std.specs.Prelude.{◌≡◌, length};
    ghost use Rattle.slicer_bank.specs.Held.{HeldBank};

    ghost Value = { HeldBank };

    ghost view = { λ s. record {
      lanes = s.lanes.items;
      recent = s.recent;
      position = s.position;
      flags = s.flags;
      spent = s.spent;
    } };

    ghost invariant = { λ s. length s.lanes.items ≡ 8 };
}

impl Bank {
    /// Eight lanes that have taken nothing. The bank is busy from the first flag on.
    pub fn new(alloc: Global) -> Result<Bank, OutOfMemory>
        ensures stands_for { IfOk result (λ bank. StandsFor bank []) }
        ensures position { IfOk result (λ bank. bank.position ≡ 0) }
        ensures flags { IfOk result (λ bank. bank.flags ≡ 1) }
    {
        Bank::listening(alloc, 1)
    }

    /// The same, but it is busy only from so many flags in a row on, 1 to 8: chance makes a single flag of noise often,
    /// and three in a row seldom.
    pub fn listening(alloc: Global, flags: u8) -> Result<Bank, OutOfMemory>
        requires { (1 ≤ flags) × (flags ≤ 8) }
        ensures stands_for { IfOk result (λ bank. StandsFor bank []) }
        ensures position { IfOk result (λ bank. bank.position ≡ 0) }
        ensures flags { IfOk result (λ bank. bank.flags ≡ flags) }
    {
        Ok(Bank {
            alloc,
            lanes: new_lanes(alloc, flags)?,
            recent: [0; 7],
            position: 0,
            flags,
            spent: false,
        })
    }

    /// Takes a block of samples, and gives the candidates that end in it, by end and then offset.
    pub fn feed(&mut self, block: &[i16]) -> Result<Vec<Candidate>, OutOfMemory>
        requires { self.old.position + length block.now < 2 ^ 48 }
        ensures found { IfOk result (λ found. FeedsBlock self.old self.new block.now found.items) }
        ensures bounds { IfOk result (λ found. All CanBePut found.items) }
        ensures past { IfOk result (λ found. AllPast self.old.position found.items) }
        ensures position { OnOk result (self.new.position ≡ self.old.position + length block.now) }
        ensures stays { OnErr result (self.new.position ≡ self.old.position) }
        ensures flags { self.new.flags ≡ self.old.flags }
        ensures fails { self.old.spent ≡ true → IsErr result }
        ensures spent { OnErr result (self.new.spent ≡ true) }
    {
        self.not_spent()?;
        let heard = hear_block(
            self.alloc,
            &mut self.lanes,
            &mut self.recent,
            self.position,
            block,
        );
        self.settle(heard, block.len())
    }

    /// Does what [`Bank::feed`] does, with the lanes on two threads, or on four if the block is long. The gate is told
    /// once as the job of each lane starts. Each call starts threads, which pays if a block has some thousand samples.
    pub fn feed_threads<R: Threads + Sync, G: Gate>(
        &mut self,
        rt: &R,
        block: &[i16],
        gate: &G,
    ) -> Result<Vec<Candidate>, OutOfMemory>
        requires { self.old.position + length block.now < 2 ^ 48 }
        ensures found { IfOk result (λ found. FeedsBlock self.old self.new block.now found.items) }
        ensures bounds { IfOk result (λ found. All CanBePut found.items) }
        ensures past { IfOk result (λ found. AllPast self.old.position found.items) }
        ensures position { OnOk result (self.new.position ≡ self.old.position + length block.now) }
        ensures stays { OnErr result (self.new.position ≡ self.old.position) }
        ensures flags { self.new.flags ≡ self.old.flags }
        ensures fails { self.old.spent ≡ true → IsErr result }
        ensures spent { OnErr result (self.new.spent ≡ true) }
    {
        self.not_spent()?;
        let heard = hear_block_threads(
            rt,
            self.alloc,
            &mut self.lanes,
            &mut self.recent,
            self.position,
            block,
            gate,
        );
        self.settle(heard, block.len())
    }

    /// Whether another station is heard: in some lane so many flags in a row have come as the bank listens for, and
    /// since then neither seven 1s in a row nor 10,000 bits without a flag.
    pub fn busy(&self) -> bool
        ensures { (x : List ℤ) → StandsFor self.now x → (IsTrue result ↔ HearsCarrier self.now.flags x) }
    {
        is_some_busy(&self.lanes)
    }

    /// Refuses if an earlier call wanted memory.
    fn not_spent(&self) -> Result<(), OutOfMemory>
        ensures ok { OnOk result (self.now.spent ≡ false) }
        ensures refused { OnErr result (self.now.spent ≡ true) }
    {
        if self.spent {
            return Err(OutOfMemory);
        }
        Ok(())
    }

    /// Counts the samples of a block that the lanes have taken. If they wanted memory the bank is spent.
    fn settle(
        &mut self,
        heard: Result<Vec<Candidate>, OutOfMemory>,
        count: usize,
    ) -> Result<Vec<Candidate>, OutOfMemory>
        requires { self.old.position + count < 2 ^ 48 }
        ensures same { result ≡ heard }
        ensures counts { OnOk result (self.new ≡ record self.old { position = self.old.position + count }) }
        ensures spent { OnErr result (self.new ≡ record self.old { spent = true }) }
    {
        match &heard {
            Ok(_) => self.position += count as u64,
            Err(_) => self.spent = true,
        }
        heard
    }
}
