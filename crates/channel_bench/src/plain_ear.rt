//! What a station hears that reads no blocks.
ghost use Rattle.std.specs.Prelude.{◌≡◌, ◌+◌, ◌-◌, ◌<◌, ◌≤◌, ◌^◌, ◌↔◌, ℕ, ℤ, List, [], ◌++◌, length, IfOk, OnOk};
ghost use Rattle.std.specs.Prelude.{IsTrue, OnErr, true};
ghost use Rattle.std.specs.List.{All};
ghost use Rattle.hdlc_framer.specs.FrameLength.{HasFrameLength};
ghost use Rattle.frame_merge.specs.declared.candidate.Candidate.{Candidate};
ghost use Rattle.frame_merge.specs.Held.{StandsFor as MergerStandsFor};
ghost use Rattle.slicer_bank.specs.Busy.{HearsCarrier};
ghost use Rattle.slicer_bank.specs.MergedItems.{AreMergedBetween};
ghost use Rattle.slicer_bank.specs.Merging.{CanBePut, AreInTime};
ghost use Rattle.channel_bench.specs.Sounding.{mark_of};

use frame_merge::{Candidate, Merger};
use slicer_bank::Bank;
use station::Memory;
use std::alloc::Global;
use tnc_base::OutOfMemory;

/// The lanes of a bank.
const LANES: u8 = 8;

/// How far after the samples the marks of the lanes stand.
const BEHIND: u64 = 7;

/// A bank of slicers, and a merger of what they hear.
#[derive(Drop)]
pub(crate) struct PlainEar {
    bank: Bank,
    merger: Merger,
    /// How many samples it has heard.
    count: u64,
}

impl PlainEar {
    ghost use Rattle.channel_bench.specs.HeldBench.{PlainEarStandsFor};

    /// Nothing is heard.
    pub(crate) fn new(alloc: Global) -> Result<PlainEar, OutOfMemory>
        ensures { IfOk result (λ ear. PlainEarStandsFor ear []) }
    {
        let bank = Bank::new(alloc)?;
        let merger = Merger::new(alloc, LANES)?;
        Ok(PlainEar {
            bank,
            merger,
            count: 0,
        })
    }

    /// Another station is heard.
    pub(crate) fn busy(&self) -> bool
        ensures { (x : List ℤ) → PlainEarStandsFor self.now x → (IsTrue result ↔ HearsCarrier 1 x) }
    {
        self.bank.busy()
    }

    /// Where the marks of the lanes stand.
    pub(crate) fn mark(&self) -> u64
        ensures { (x : List ℤ) → PlainEarStandsFor self.now x → result ≡ mark_of x }
    {
        mark_after(self.count)
    }

    /// Hears samples, and gives the frames that are ready with them.
    pub(crate) fn listen(
        &mut self,
        memory: &mut Memory,
        samples: &[i16],
    ) -> Result<Vec<Candidate>, OutOfMemory>
        requires stands { (x : List ℤ) × PlainEarStandsFor self.old x }
        requires few { self.old.count < 2 ^ 47 }
        requires samples { length samples.now ≡ 96 }
        ensures heard { (x : List ℤ) → PlainEarStandsFor self.old x → IfOk result (λ items.
            PlainEarStandsFor self.new (x ++ samples.now)
            × AreMergedBetween (mark_of x) (mark_of (x ++ samples.now)) (x ++ samples.now) items.items) }
        ensures lengths { IfOk result (λ items. All (λ item. HasFrameLength item.octets) items.items) }
        ensures wanted { OnErr result (memory.new.refused ≡ true) }
    {
        let found = memory.took(self.bank.feed(samples))?;
        put_all(memory, &mut self.merger, found)?;
        self.count += samples.len() as u64;
        let mark = mark_after(self.count);
        self.merger.mark_all(mark);
        let ready = memory.took(self.merger.take_ready())?;
        Ok(ready)
    }
}

/// Where the marks stand after so many samples.
pub(crate) fn mark_after(count: u64) -> u64
    ensures { result ≡ count - 7 }
{
    count.saturating_sub(BEHIND)
}

/// Puts candidates into a merger, in their order.
fn put_all(
    memory: &mut Memory,
    merger: &mut Merger,
    items: Vec<Candidate>,
) -> Result<(), OutOfMemory>
    requires marks { length merger.old.marks ≡ 8 }
    requires items { All CanBePut items.items }
    requires in_time { AreInTime merger.old.marks items.items }
    ensures stands_for { OnOk result ((puts given : List Candidate) → MergerStandsFor merger.old puts given
        → MergerStandsFor merger.new (puts ++ items.items) given) }
    ensures marks { merger.new.marks ≡ merger.old.marks }
    ensures wanted { OnErr result (memory.new.refused ≡ true) }
{
    for item in items {
        memory.took(merger.put_in_time(item))?;
    }
    Ok(())
}
