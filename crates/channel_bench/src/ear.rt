//! What a station hears of the samples that reach it.
ghost use Rattle.std.specs.Prelude.{◌≡◌, ◌<◌, ◌^◌, ◌↔◌, Bool, ℤ, List, [], ◌++◌, length, IfOk, IsTrue, OnErr, true};
ghost use Rattle.std.specs.List.{All};
ghost use Rattle.hdlc_framer.specs.FrameLength.{HasFrameLength};
ghost use Rattle.channel_bench.specs.Hearing.{AreReady, HearsStation};
ghost use Rattle.channel_bench.specs.Sounding.{mark_of};

use crate::block_ear::BlockEar;
use crate::plain_ear::PlainEar;
use frame_merge::Candidate;
use station::Memory;
use std::alloc::Global;
use tnc_base::OutOfMemory;

/// An ear that hears frames plainly, or in blocks of FX.25, too.
#[derive(Drop)]
pub(crate) enum Ear {
    /// It reads no blocks.
    Plain(PlainEar),
    /// It reads blocks.
    Blocks(BlockEar),
}

impl Ear {
    ghost use Rattle.channel_bench.specs.HeldBench.{EarStandsFor, heard_by};

    /// Nothing is heard.
    pub(crate) fn new(alloc: Global, blocks: bool) -> Result<Ear, OutOfMemory>
        ensures { IfOk result (λ ear. EarStandsFor ear blocks []) }
    {
        if blocks {
            Ok(Ear::Blocks(BlockEar::new(alloc)?))
        } else {
            Ok(Ear::Plain(PlainEar::new(alloc)?))
        }
    }

    /// It reads blocks.
    pub(crate) fn reads_blocks(&self) -> bool
        ensures { (blocks : Bool) (x : List ℤ) → EarStandsFor self.now blocks x → result ≡ blocks }
    {
        match self {
            Ear::Plain(_) => false,
            Ear::Blocks(_) => true,
        }
    }

    /// Another station is heard.
    pub(crate) fn busy(&self) -> bool
        ensures { (blocks : Bool) (x : List ℤ) → EarStandsFor self.now blocks x
            → (IsTrue result ↔ HearsStation blocks x) }
    {
        match self {
            Ear::Plain(ear) => ear.busy(),
            Ear::Blocks(ear) => ear.busy(),
        }
    }

    /// Where the marks of the lanes stand.
    pub(crate) fn mark(&self) -> u64
        ensures { (blocks : Bool) (x : List ℤ) → EarStandsFor self.now blocks x → result ≡ mark_of x }
    {
        match self {
            Ear::Plain(ear) => ear.mark(),
            Ear::Blocks(ear) => ear.mark(),
        }
    }

    /// Hears samples, and gives the frames that are ready with them.
    pub(crate) fn listen(
        &mut self,
        memory: &mut Memory,
        samples: &[i16],
    ) -> Result<Vec<Candidate>, OutOfMemory>
        requires stands { (blocks : Bool) × (x : List ℤ) × EarStandsFor self.old blocks x }
        requires few { heard_by self.old < 2 ^ 47 }
        requires samples { length samples.now ≡ 96 }
        ensures heard { (blocks : Bool) (x : List ℤ) → EarStandsFor self.old blocks x → IfOk result (λ items.
            EarStandsFor self.new blocks (x ++ samples.now) × AreReady blocks (x ++ samples.now) items.items) }
        ensures lengths { IfOk result (λ items. All (λ item. HasFrameLength item.octets) items.items) }
        ensures wanted { OnErr result (memory.new.refused ≡ true) }
    {
        match self {
            Ear::Plain(ear) => ear.listen(memory, samples),
            Ear::Blocks(ear) => ear.listen(memory, samples),
        }
    }
}
