//! From what all lanes bring turn by turn to the items that are due.

ghost use Rattle.std.specs.Prelude.{◌≡◌, ℕ, ◌-◌, ◌^◌, ◌<◌, ◌≤◌, List, ◌++◌, length, replicate, slice_index, true};
ghost use Rattle.std.specs.Prelude.{false, IfOk, OnOk};
ghost use Rattle.std.specs.List.{All};
ghost use Rattle.sample_ring.specs.declared.got.Got.{Got};
ghost use Rattle.frame_merge.specs.declared.candidate.Candidate.{Candidate};
ghost use Rattle.frame_merge.specs.Held.{StandsFor, least};
ghost use Rattle.slicer_bank.specs.Merging.{CanBePut as CanBePutOfEight, AreInTime};
ghost use Rattle.sensitive_receiver.specs.Found.{CanBePut};
ghost use Rattle.ring_receiver.specs.AllMerging.{BringsByAll};
ghost use Rattle.ring_receiver.specs.HeardByAll.{AreMergedBy, AreRestBy, settled_position};
ghost use Rattle.ring_receiver.specs.HeldReceiver.{HasMergedBy};

use frame_merge::{Candidate, Merger};
use sensitive_receiver::{LANES, put_all};
use tnc_base::OutOfMemory;

/// How far after the last sample the added lanes hear: no candidate to come of them ends lower.
const BEHIND: u64 = 32;

/// Puts what the eight lanes and the added ones heard in a turn into a merger of all of them, marks each lane, and
/// takes the items that are settled, or all that are left if the ring has ended.
pub(crate) fn merge_all(
    merger: &mut Merger,
    eight: Vec<Candidate>,
    added: Vec<Candidate>,
    positions: &[u64; 8],
    position: u64,
    ended: bool,
) -> Result<Vec<Candidate>, OutOfMemory>
    requires lanes { length merger.old.marks ≡ 26 }
    requires positions { (lane : ℕ) → lane < 8 → slice_index merger.old.marks lane ≤ slice_index positions.now lane }
    requires position { (lane : ℕ) → 8 ≤ lane → lane < 26 → slice_index merger.old.marks lane ≤ position - 32 }
    requires eight { All CanBePutOfEight eight.items }
    requires added { All CanBePut added.items }
    requires eight_in_time { AreInTime merger.old.marks eight.items }
    requires added_in_time { AreInTime merger.old.marks added.items }
    ensures heard { IfOk result (λ items. ended ≡ false → (before now : List (List Got))
        → HasMergedBy true merger.old before
        → BringsByAll before now positions.now position eight.items added.items
        → HasMergedBy true merger.new now
        × AreMergedBy true (settled_position true before) (settled_position true now) now items.items) }
    ensures rest { IfOk result (λ items. ended ≡ true → (before now : List (List Got))
        → HasMergedBy true merger.old before
        → BringsByAll before now positions.now position eight.items added.items
        → AreRestBy true (settled_position true before) now items.items) }
    ensures marks { OnOk result (ended ≡ false → merger.new.marks ≡ positions.now ++ replicate 18 (position - 32)) }
{
    put_all(merger, eight)?;
    put_all(merger, added)?;
    mark_each(merger, positions, position.saturating_sub(BEHIND), ended);
    let ready = merger.take_ready()?;
    Ok(ready)
}

/// Marks each of the eight lanes at its position and the added ones at theirs, or says that no lane brings another
/// candidate.
fn mark_each(merger: &mut Merger, positions: &[u64; 8], position: u64, ended: bool)
    requires lanes { length merger.old.marks ≡ 26 }
    requires positions { (lane : ℕ) → lane < 8 → slice_index merger.old.marks lane ≤ slice_index positions.now lane }
    requires position { (lane : ℕ) → 8 ≤ lane → lane < 26 → slice_index merger.old.marks lane ≤ position }
    ensures marks { ended ≡ false → merger.new.marks ≡ positions.now ++ replicate 18 position }
    ensures least { ended ≡ true → least merger.new.marks ≡ 2 ^ 64 - 1 }
    ensures stands_for { (puts given : List Candidate) → StandsFor merger.old puts given
        → StandsFor merger.new puts given }
{
    if ended {
        merger.finish();
        return;
    }
    for lane in 0..8u8 {
        merger.mark(lane, positions[usize::from(lane)]);
    }
    for lane in 8..LANES {
        merger.mark(lane, position);
    }
}
