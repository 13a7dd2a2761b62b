//! How far a decoder of a stream has come, and whether it goes on.

ghost use Rattle.std.specs.Prelude.{◌≡◌, ◌+◌, ◌-◌, ◌<◌, ◌^◌, List, ◌++◌, true, false, IfOk, OnOk, IsErr};
ghost use Rattle.frame_merge.specs.declared.candidate.Candidate.{Candidate};
ghost use Rattle.frame_merge.specs.Held.{StandsFor as MergerStandsFor};
ghost use Rattle.frame_merge.specs.Merged.{merged, not_below};
ghost use Rattle.frame_merge.specs.Order.{in_order};
ghost use Rattle.block_receiver.specs.Progress.{Finishes};

use frame_merge::{Candidate, Merger};
use std::alloc::Global;
use tnc_base::OutOfMemory;

/// What a decoder counts. For each block it calls `begin`, and `take` after all that can fail; at the end it calls
/// `finish`. If a call fails between `begin` and `take`, the decoder stays spent.
#[derive(Clone, Copy)]
pub struct Progress {
    /// How many samples it has taken.
    pub position: u64,
    /// True if the samples have ended.
    pub finished: bool,
    /// True if memory ran out: then it gives no more items.
    pub spent: bool,
}

impl Progress {
    /// No sample is taken.
    pub fn new() -> Progress
        ensures { result ≡ record { position = 0; finished = false; spent = false } }
    {
        Progress {
            position: 0,
            finished: false,
            spent: false,
        }
    }

    /// Fails if the decoder is spent. Otherwise it is spent until `take`.
    pub fn begin(&mut self) -> Result<(), OutOfMemory>
        ensures unspent { OnOk result (self.old.spent ≡ false) }
        ensures fails { self.old.spent ≡ true → IsErr result }
        ensures position { self.new.position ≡ self.old.position }
        ensures finished { self.new.finished ≡ self.old.finished }
        ensures spent { self.new.spent ≡ true }
    {
        if self.spent {
            return Err(OutOfMemory);
        }
        self.spent = true;
        Ok(())
    }

    /// Counts the samples of a block.
    pub fn take(&mut self, count: usize)
        requires room { self.old.position + count < 2 ^ 64 }
        ensures position { self.new.position ≡ self.old.position + count }
        ensures finished { self.new.finished ≡ self.old.finished }
        ensures spent { self.new.spent ≡ false }
    {
        self.position += count as u64;
        self.spent = false;
    }

    /// Gives the rest of a merger's items, once: the samples have ended.
    pub fn finish(
        &mut self,
        alloc: Global,
        merger: &mut Merger,
    ) -> Result<Vec<Candidate>, OutOfMemory>
        ensures rest { IfOk result (λ items. self.old.finished ≡ false → (puts given : List Candidate)
            → MergerStandsFor merger.old puts given → given ++ items.items ≡ merged (in_order puts)) }
        ensures kept { OnOk result (self.old.finished ≡ false → (puts given : List Candidate)
            → MergerStandsFor merger.old puts given → merger.new.items ≡ not_below (2 ^ 64 - 16) (in_order puts)) }
        ensures progress { Finishes self.old self.new result }
    {
        if self.spent {
            return Err(OutOfMemory);
        }
        if self.finished {
            return Ok(Vec::new(alloc));
        }
        self.finished = true;
        self.spent = true;
        merger.finish();
        let rest = merger.take_ready()?;
        self.spent = false;
        Ok(rest)
    }
}
