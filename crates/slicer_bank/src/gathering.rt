//! The lanes over a block: each hears it by itself, and what they heard becomes one list. So they can work one after
//! another, or on threads.

ghost use Rattle.std.specs.Prelude.{◌≡◌, ℕ, ◌+◌, ◌<◌, ◌≤◌, ◌^◌, ℤ, List, ◌++◌, length, IfOk, OnOk, Some, slice_index_or};
ghost use Rattle.std.specs.List.{All};
ghost use Rattle.frame_merge.specs.declared.candidate.Candidate.{Candidate};
ghost use Rattle.hdlc_framer.specs.Held.{flags_asked};
ghost use Rattle.slicer_bank.specs.Held.{AsksFor, LanesStandFor, last_seven};
ghost use Rattle.slicer_bank.specs.Candidates.{AreCandidatesAfter};
ghost use Rattle.slicer_bank.specs.Heard.{HearsAlone, LanesAreAlike, LanesKeep, LanesKeepFit};
ghost use Rattle.slicer_bank.specs.Merging.{CanBePutPast};

use crate::gate::Gate;
use crate::job::hear_alone;
use crate::lane::Lane;
use crate::seven::keep_last;
use frame_merge::Candidate;
use std::alloc::Global;
use std::thread;
use std::thread::Threads;
use tnc_base::OutOfMemory;

/// The fewest samples of a block of which each thread of four still has more to do than it takes to start one.
const LONG: usize = 16384;

/// How many threads share the lanes over a block of so many samples: two, and four if it is long.
fn threads_for(samples: usize) -> usize
    ensures { (2 ≤ result) × (result ≤ 4) }
{
    if samples < LONG { 2 } else { 4 }
}

/// Gives the lanes, which have taken `position` samples with `recent` as the last seven, a block, and tells what they
/// hear in it.
pub(crate) fn hear_block(
    alloc: Global,
    lanes: &mut [Lane],
    recent: &mut [i16; 7],
    position: u64,
    block: &[i16],
) -> Result<Vec<Candidate>, OutOfMemory>
    requires lanes { length lanes.old ≡ 8 }
    requires room { position + length block.now < 2 ^ 48 }
    ensures lanes { length lanes.new ≡ 8 }
    ensures found { IfOk result (λ found. (x : List ℤ) → length x ≡ position
        → recent.old ≡ last_seven x → LanesStandFor lanes.old x
        → LanesStandFor lanes.new (x ++ block.now) × (recent.new ≡ last_seven (x ++ block.now))
        × AreCandidatesAfter position (x ++ block.now) found.items) }
    ensures bounds { IfOk result (λ found. All (CanBePutPast position) found.items) }
    ensures asks { OnOk result ((flags : ℕ) → All (AsksFor flags) lanes.old → All (AsksFor flags) lanes.new) }
{
    hear_in_turn(alloc, lanes, recent, position, block);
    keep_last(recent, block);
    gather(alloc, lanes)
}

/// Does what [`hear_block`] does, with the lanes on threads. The gate is told as each lane starts.
pub(crate) fn hear_block_threads<R: Threads + Sync, G: Gate>(
    rt: &R,
    alloc: Global,
    lanes: &mut [Lane],
    recent: &mut [i16; 7],
    position: u64,
    block: &[i16],
    gate: &G,
) -> Result<Vec<Candidate>, OutOfMemory>
    requires lanes { length lanes.old ≡ 8 }
    requires room { position + length block.now < 2 ^ 48 }
    ensures lanes { length lanes.new ≡ 8 }
    ensures found { IfOk result (λ found. (x : List ℤ) → length x ≡ position
        → recent.old ≡ last_seven x → LanesStandFor lanes.old x
        → LanesStandFor lanes.new (x ++ block.now) × (recent.new ≡ last_seven (x ++ block.now))
        × AreCandidatesAfter position (x ++ block.now) found.items) }
    ensures bounds { IfOk result (λ found. All (CanBePutPast position) found.items) }
    ensures asks { OnOk result ((flags : ℕ) → All (AsksFor flags) lanes.old → All (AsksFor flags) lanes.new) }
{
    hear_on_threads(rt, alloc, lanes, recent, position, block, gate);
    keep_last(recent, block);
    gather(alloc, lanes)
}

/// Runs the job of each lane, one after another.
fn hear_in_turn(alloc: Global, lanes: &mut [Lane], recent: &[i16; 7], position: u64, block: &[i16])
    requires lanes { length lanes.old ≡ 8 }
    requires room { position + length block.now < 2 ^ 48 }
    ensures lanes { length lanes.new ≡ 8 }
    ensures heard { (offset : ℕ) (d : _) → offset < 8
        → HearsAlone offset position recent.now block.now (slice_index_or lanes.old offset d)
        (slice_index_or lanes.new offset d) }
    ensures bounds { LanesKeepFit position lanes.new }
    ensures asks { (offset : ℕ) (d : _) → offset < 8
        → flags_asked (slice_index_or lanes.new offset d).deframer
        ≡ flags_asked (slice_index_or lanes.old offset d).deframer }
{
    for offset in 0..8u8 {
        let lane = &mut lanes[usize::from(offset)];
        hear_alone(alloc, lane, offset, recent, position, block);
    }
}

/// Runs the job of each lane, the lanes shared out over two threads, or over four if the block is long.
fn hear_on_threads<R: Threads + Sync, G: Gate>(
    rt: &R,
    alloc: Global,
    lanes: &mut [Lane],
    recent: &[i16; 7],
    position: u64,
    block: &[i16],
    gate: &G,
)
    requires lanes { length lanes.old ≡ 8 }
    requires room { position + length block.now < 2 ^ 48 }
    ensures lanes { length lanes.new ≡ 8 }
    ensures heard { (offset : ℕ) (d : _) → offset < 8
        → HearsAlone offset position recent.now block.now (slice_index_or lanes.old offset d)
        (slice_index_or lanes.new offset d) }
    ensures bounds { LanesKeepFit position lanes.new }
    ensures asks { (offset : ℕ) (d : _) → offset < 8
        → flags_asked (slice_index_or lanes.new offset d).deframer
        ≡ flags_asked (slice_index_or lanes.old offset d).deframer }
{
    thread::for_each_mut(
        rt,
        lanes,
        threads_for(block.len()),
        &|index, lane: &mut Lane|
            requires { (index < 8) × (position + length block.now < 2 ^ 48) }
            ensures heard { HearsAlone index position recent.entry.now block.entry.now lane.old lane.new }
            ensures bounds { (items : List Candidate) → lane.new.heard ≡ Some items
                → All (CanBePutPast position) items }
            ensures asks { flags_asked lane.new.deframer ≡ flags_asked lane.old.deframer }
        {
            let offset = index as u8;
            gate.begun(offset);
            hear_alone(alloc, lane, offset, recent, position, block);
        },
    );
}

/// What the lanes heard, as one list in order. Each sample ends the window of one lane, so the ends alone say the
/// order.
fn gather(alloc: Global, lanes: &mut [Lane]) -> Result<Vec<Candidate>, OutOfMemory>
    requires lanes { length lanes.old ≡ 8 }
    ensures lanes { length lanes.new ≡ 8 }
    ensures alike { OnOk result (LanesAreAlike lanes.new lanes.old) }
    ensures kept { OnOk result ((offset : ℕ) (d : _) → offset < 8 → (items : List Candidate)
        × ((slice_index_or lanes.old offset d).heard ≡ Some items)) }
    ensures found { IfOk result (λ found. (position : ℕ) (x : List ℤ) → LanesKeep position x lanes.old
        → AreCandidatesAfter position x found.items) }
    ensures bounds { IfOk result (λ found. (position : ℕ) → LanesKeepFit position lanes.old
        → All (CanBePutPast position) found.items) }
{
    let mut found = Vec::new(alloc);
    for index in 0..8 {
        let mut heard = lanes[index].take_heard()?;
        found.append(&mut heard)?;
    }
    found.sort_unstable_by_key(|item| item.end);
    Ok(found)
}
