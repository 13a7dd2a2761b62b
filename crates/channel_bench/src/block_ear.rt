//! What a station hears that reads blocks of FX.25.
ghost use Rattle.std.specs.Prelude.{◌≡◌, ◌<◌, ◌^◌, ◌↔◌, ℤ, List, [], ◌++◌, length, IfOk, IsTrue, OnErr, true};
ghost use Rattle.std.specs.List.{All};
ghost use Rattle.hdlc_framer.specs.FrameLength.{HasFrameLength};
ghost use Rattle.channel_bench.specs.Hearing.{AreReadyInBlocks, HearsStation};
ghost use Rattle.channel_bench.specs.Sounding.{mark_of};

use crate::plain_ear::mark_after;
use frame_merge::Candidate;
use fx25_receiver::{Fx25Receiver, candidates};
use slicer_bank::Bank;
use station::Memory;
use std::alloc::Global;
use tnc_base::OutOfMemory;

/// A receiver of FX.25, and a bank of slicers that hears whether another station sends.
#[derive(Drop)]
pub(crate) struct BlockEar {
    alloc: Global,
    bank: Bank,
    receiver: Fx25Receiver,
    /// How many samples it has heard.
    count: u64,
}

impl BlockEar {
    ghost use Rattle.channel_bench.specs.HeldBench.{BlockEarStandsFor};

    /// Nothing is heard.
    pub(crate) fn new(alloc: Global) -> Result<BlockEar, OutOfMemory>
        ensures { IfOk result (λ ear. BlockEarStandsFor ear []) }
    {
        let bank = Bank::new(alloc)?;
        let receiver = Fx25Receiver::new(alloc)?;
        Ok(BlockEar {
            alloc,
            bank,
            receiver,
            count: 0,
        })
    }

    /// Another station is heard, or a block comes in.
    pub(crate) fn busy(&self) -> bool
        ensures { (x : List ℤ) → BlockEarStandsFor self.now x → (IsTrue result ↔ HearsStation true x) }
    {
        if self.bank.busy() {
            return true;
        }
        self.receiver.is_block_coming()
    }

    /// Where the marks of plain lanes would stand.
    pub(crate) fn mark(&self) -> u64
        ensures { (x : List ℤ) → BlockEarStandsFor self.now x → result ≡ mark_of x }
    {
        mark_after(self.count)
    }

    /// Hears samples, and gives the frames that end with them.
    pub(crate) fn listen(
        &mut self,
        memory: &mut Memory,
        samples: &[i16],
    ) -> Result<Vec<Candidate>, OutOfMemory>
        requires few { self.old.count < 2 ^ 47 }
        requires stands { (x : List ℤ) × BlockEarStandsFor self.old x }
        requires samples { length samples.now ≡ 96 }
        ensures heard { (x : List ℤ) → BlockEarStandsFor self.old x → IfOk result (λ items.
            BlockEarStandsFor self.new (x ++ samples.now) × AreReadyInBlocks (x ++ samples.now) items.items) }
        ensures lengths { IfOk result (λ items. All (λ item. HasFrameLength item.octets) items.items) }
        ensures wanted { OnErr result (memory.new.refused ≡ true) }
    {
        memory.took(self.bank.feed(samples))?;
        let heard = memory.took(self.receiver.block(samples))?;
        self.count += samples.len() as u64;
        let items = memory.took(candidates(self.alloc, &heard))?;
        Ok(items)
    }
}
