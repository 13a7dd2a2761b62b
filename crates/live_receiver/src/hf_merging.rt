//! From what the lanes of short wave hear to the items that are due.

ghost use Rattle.std.specs.Prelude.{◌≡◌, ◌-◌, ◌/◌, ◌^◌, ◌<◌, ◌≤◌, ◌++◌, List, length, replicate, true, false, IfOk, OnOk};
ghost use Rattle.std.specs.List.{All};
ghost use Rattle.frame_merge.specs.declared.candidate.Candidate.{Candidate};
ghost use Rattle.frame_merge.specs.Held.{StandsFor, least};
ghost use Rattle.frame_merge.specs.Merged.{merged, below};
ghost use Rattle.frame_merge.specs.Order.{in_order};
ghost use Rattle.slicer_bank.specs.Merging.{AreInTime};
ghost use Rattle.live_receiver.specs.HeardOnShortWave.{following, lanes_in};
ghost use Rattle.live_receiver.specs.HfTurns.{PutsMore};

use frame_merge::{Candidate, Merger};
use hf_modem::{OFFSETS, SAMPLES_AN_END};
use hf_sensitive::{BEHIND, LANES as ALL_LANES};
use tnc_base::OutOfMemory;

/// How many lanes listen.
pub(crate) fn lanes_in(sensitive: bool) -> u8
    ensures { result ≡ lanes_in sensitive }
{
    if sensitive { ALL_LANES } else { OFFSETS }
}

/// How many fours of samples after its end a frame can still be heard.
fn following(sensitive: bool) -> u64
    ensures { result ≡ following sensitive }
{
    if sensitive { BEHIND } else { 0 }
}

/// Puts what the lanes heard into a merger, in its order.
pub(crate) fn put_all(merger: &mut Merger, items: Vec<Candidate>) -> Result<(), OutOfMemory>
    requires items { All (λ item. (item.offset < length merger.old.marks) × (item.end < 2 ^ 64 - 1)) items.items }
    requires in_time { AreInTime merger.old.marks items.items }
    ensures put { OnOk result (PutsMore merger.old merger.new items.items) }
    ensures marks { merger.new.marks ≡ merger.old.marks }
{
    for item in items {
        merger.put_in_time(item)?;
    }
    Ok(())
}

/// Marks all lanes where they have heard up to a position, and takes the items that are settled, or all that are left if
/// the ring has ended.
pub(crate) fn settle(
    merger: &mut Merger,
    sensitive: bool,
    position: u64,
    ended: bool,
) -> Result<Vec<Candidate>, OutOfMemory>
    requires lanes { length merger.old.marks ≡ lanes_in sensitive }
    requires marks { All (λ mark. mark ≤ position / 4 - following sensitive) merger.old.marks }
    ensures settled { IfOk result (λ items. ended ≡ false → (puts given : List Candidate)
        → StandsFor merger.old puts given → StandsFor merger.new puts (given ++ items.items)
        × (given ++ items.items ≡ below (position / 4 - following sensitive) (merged (in_order puts)))) }
    ensures rest { IfOk result (λ items. ended ≡ true → (puts given : List Candidate)
        → StandsFor merger.old puts given → given ++ items.items ≡ merged (in_order puts)) }
    ensures marks { OnOk result (ended ≡ false
        → merger.new.marks ≡ replicate (lanes_in sensitive) (position / 4 - following sensitive)) }
{
    mark_all(merger, sensitive, position, ended);
    let ready = merger.take_ready()?;
    Ok(ready)
}

/// Marks all lanes where they have heard up to a position, or says that none brings another candidate.
fn mark_all(merger: &mut Merger, sensitive: bool, position: u64, ended: bool)
    requires lanes { length merger.old.marks ≡ lanes_in sensitive }
    requires marks { All (λ mark. mark ≤ position / 4 - following sensitive) merger.old.marks }
    ensures marks { ended ≡ false
        → merger.new.marks ≡ replicate (lanes_in sensitive) (position / 4 - following sensitive) }
    ensures least { ended ≡ true → least merger.new.marks ≡ 2 ^ 64 - 1 }
    ensures stands_for { (puts given : List Candidate) → StandsFor merger.old puts given
        → StandsFor merger.new puts given }
{
    if ended {
        merger.finish();
        return;
    }
    merger.mark_all((position / SAMPLES_AN_END).saturating_sub(following(sensitive)));
}
