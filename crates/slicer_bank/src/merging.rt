//! From candidates to the items that are given: each frame once, and in order.

ghost use Rattle.std.specs.Prelude.{◌≡◌, ◌<◌, List, ◌++◌, length, IfOk, OnOk};
ghost use Rattle.std.specs.List.{All, AllPairs};
ghost use Rattle.frame_merge.specs.declared.candidate.Candidate.{Candidate};
ghost use Rattle.frame_merge.specs.Held.{StandsFor};
ghost use Rattle.frame_merge.specs.Merged.{merged};
ghost use Rattle.frame_merge.specs.Order.{standing};
ghost use Rattle.slicer_bank.specs.Merging.{CanBePut, AreInTime};

use frame_merge::{Candidate, Merger};
use std::alloc::Global;
use tnc_base::OutOfMemory;

/// The offsets of a bit, each with a lane of its own.
pub(crate) const OFFSETS: u8 = 8;

/// What is merged from candidates that stand in order.
pub fn merge(alloc: Global, candidates: Vec<Candidate>) -> Result<Vec<Candidate>, OutOfMemory>
    requires items { All CanBePut candidates.items }
    requires order { AllPairs (λ item later. standing item < standing later) candidates.items }
    ensures { IfOk result (λ items. items.items ≡ merged candidates.items) }
{
    let mut merger = Merger::new(alloc, OFFSETS)?;
    put_all(&mut merger, candidates)?;
    merger.finish();
    merger.take_ready()
}

/// Puts candidates into a merger of eight lanes, in their order.
pub(crate) fn put_all(merger: &mut Merger, items: Vec<Candidate>) -> Result<(), OutOfMemory>
    requires marks { length merger.old.marks ≡ 8 }
    requires items { All CanBePut items.items }
    requires in_time { AreInTime merger.old.marks items.items }
    ensures stands_for { OnOk result ((puts given : List Candidate) → StandsFor merger.old puts given
        → StandsFor merger.new (puts ++ items.items) given) }
    ensures marks { merger.new.marks ≡ merger.old.marks }
{
    for item in items {
        merger.put_in_time(item)?;
    }
    Ok(())
}
