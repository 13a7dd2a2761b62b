//! Candidates of all lanes, put into one merger.

ghost use Rattle.std.specs.Prelude.{◌≡◌, List, ◌++◌, length, OnOk};
ghost use Rattle.std.specs.List.{All};
ghost use Rattle.frame_merge.specs.declared.candidate.Candidate.{Candidate};
ghost use Rattle.frame_merge.specs.Held.{StandsFor};
ghost use Rattle.slicer_bank.specs.Merging.{AreInTime};
ghost use Rattle.sensitive_receiver.specs.Found.{CanBePut};

use frame_merge::{Candidate, Merger};
use tnc_base::OutOfMemory;

/// Puts candidates into a merger of 26 lanes, in their order.
pub fn put_all(merger: &mut Merger, items: Vec<Candidate>) -> Result<(), OutOfMemory>
    requires marks { length merger.old.marks ≡ 26 }
    requires items { All CanBePut items.items }
    requires in_time { AreInTime merger.old.marks items.items }
    ensures stands_for { OnOk result ((puts given : List Candidate) → StandsFor merger.old puts given
        → StandsFor merger.new (puts ++ items.items) given) }
    ensures marks { merger.new.marks ≡ merger.old.marks }
{
    for item in items {
        merger.put_in_time(item)?;
    }
    Ok(())
}
