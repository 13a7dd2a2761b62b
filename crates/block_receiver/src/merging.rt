//! From candidates to the items that are given: each frame once, and in order.

ghost use Rattle.std.specs.Prelude.{◌≡◌, ℕ, ◌-◌, ◌^◌, ◌<◌, ◌≤◌, List, ◌++◌, length, replicate, IfOk, OnOk};
ghost use Rattle.std.specs.List.{All};
ghost use Rattle.frame_merge.specs.declared.candidate.Candidate.{Candidate};
ghost use Rattle.frame_merge.specs.Held.{StandsFor};
ghost use Rattle.frame_merge.specs.Merged.{merged, below, not_below};
ghost use Rattle.frame_merge.specs.Order.{in_order};
ghost use Rattle.block_receiver.specs.Hearing.{AreInTime, CanBePut, CanBePutFrom};

use frame_merge::{Candidate, Merger};
use tnc_base::OutOfMemory;

/// Gives candidates to a merger whose lanes are all marked at one position, and marks them at a later one. Tells the
/// items that are settled then.
pub(crate) fn merge_found(
    merger: &mut Merger,
    found: Vec<Candidate>,
    mark: u64,
) -> Result<Vec<Candidate>, OutOfMemory>
    requires marks { (lanes low : ℕ) × (merger.old.marks ≡ replicate lanes low) × (1 ≤ lanes) × (low ≤ mark)
        × All (CanBePutFrom lanes low) found.items }
    ensures merged { IfOk result (λ items. (puts given : List Candidate) → StandsFor merger.old puts given
        → StandsFor merger.new (puts ++ found.items) (given ++ items.items)
        × (given ++ items.items ≡ below mark (merged (in_order (puts ++ found.items))))) }
    ensures kept { OnOk result ((puts given : List Candidate) → StandsFor merger.old puts given
        → merger.new.items ≡ not_below (mark - 15) (in_order (puts ++ found.items))) }
    ensures marks { OnOk result (merger.new.marks ≡ replicate (length merger.old.marks) mark) }
{
    put_all(merger, found)?;
    merger.mark_all(mark);
    let items = merger.take_ready()?;
    Ok(items)
}

/// Puts candidates into a merger, in their order.
fn put_all(merger: &mut Merger, items: Vec<Candidate>) -> Result<(), OutOfMemory>
    requires items { All (CanBePut (length merger.old.marks)) items.items }
    requires in_time { AreInTime merger.old.marks items.items }
    ensures stands_for { OnOk result ((puts given : List Candidate) → StandsFor merger.old puts given
        → StandsFor merger.new (puts ++ items.items) given) }
    ensures marks { merger.new.marks ≡ merger.old.marks }
{
    for item in items {
        merger.put_in_time(item)?;
    }
    Ok(())
}
