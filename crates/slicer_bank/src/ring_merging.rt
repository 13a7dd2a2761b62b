//! From what the lanes of a ring bring turn by turn to the items that a station hears, each once and in order.

ghost use Rattle.std.specs.Prelude.{◌≡◌, ℕ, ◌-◌, ◌^◌, ◌<◌, ◌≤◌, List, [], length, replicate, slice_index, true, false};
ghost use Rattle.std.specs.Prelude.{IfOk, OnOk};
ghost use Rattle.std.specs.List.{All};
ghost use Rattle.sample_ring.specs.declared.got.Got.{Got};
ghost use Rattle.frame_merge.specs.Held.{Held, StandsFor, least};
ghost use Rattle.frame_merge.specs.declared.candidate.Candidate.{Candidate};
ghost use Rattle.slicer_bank.specs.HeardOnRing.{AreMergedOnRing, AreRestOnRing, least_position};
ghost use Rattle.slicer_bank.specs.Merging.{CanBePut, AreInTime};
ghost use Rattle.slicer_bank.specs.RingMerging.{HasMerged};
ghost use Rattle.slicer_bank.specs.RingTurns.{BringsOnRing};

use crate::merging::put_all;
use frame_merge::{Candidate, Merger};
use tnc_base::OutOfMemory;

/// Puts the candidates of a turn into the merger, marks each lane at its position, and takes the items that are
/// settled: those that end below the least position, or all that are left if the ring has ended.
pub fn merge_advance(
    merger: &mut Merger,
    candidates: Vec<Candidate>,
    positions: &[u64; 8],
    ended: bool,
) -> Result<Vec<Candidate>, OutOfMemory>
    requires lanes { length merger.old.marks ≡ 8 }
    requires positions { (lane : ℕ) → lane < 8 → slice_index merger.old.marks lane ≤ slice_index positions.now lane }
    requires items { All CanBePut candidates.items }
    requires in_time { AreInTime merger.old.marks candidates.items }
    ensures heard { IfOk result (λ items. ended ≡ false → (before now : List (List Got)) → HasMerged merger.old before
        → BringsOnRing before now positions.now candidates.items
        → HasMerged merger.new now × AreMergedOnRing (least_position before) (least_position now) now items.items) }
    ensures rest { IfOk result (λ items. ended ≡ true → (before now : List (List Got)) → HasMerged merger.old before
        → BringsOnRing before now positions.now candidates.items
        → AreRestOnRing (least_position before) now items.items) }
    ensures marks { OnOk result (ended ≡ false → merger.new.marks ≡ positions.now) }
{
    put_all(merger, candidates)?;
    mark_each(merger, positions, ended);
    let ready = merger.take_ready()?;
    Ok(ready)
}

/// Marks each lane at its position, or says that no lane brings another candidate.
fn mark_each(merger: &mut Merger, positions: &[u64; 8], ended: bool)
    requires lanes { length merger.old.marks ≡ 8 }
    requires positions { (lane : ℕ) → lane < 8 → slice_index merger.old.marks lane ≤ slice_index positions.now lane }
    ensures marks { ended ≡ false → merger.new.marks ≡ positions.now }
    ensures least { ended ≡ true → least merger.new.marks ≡ 2 ^ 64 - 1 }
    ensures stands_for { (puts given : List Candidate) → StandsFor merger.old puts given
        → StandsFor merger.new puts given }
{
    if ended {
        merger.finish();
        return;
    }
    for lane in 0..8u8 {
        merger.mark(lane, positions[usize::from(lane)]);
    }
}

/// A merger of eight lanes that has taken nothing has merged what lanes heard that have read nothing. A law is the
/// contract of a function that does nothing.
pub fn nothing_is_merged()
    ensures { (merger : Held) → merger.marks ≡ replicate 8 0 → StandsFor merger [] []
        → HasMerged merger (replicate 8 []) }
{}
