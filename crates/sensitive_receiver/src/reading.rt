//! How the banks of added lanes read a line of tones on threads, beside the eight plain lanes.

ghost use Rattle.std.specs.Prelude.{◌≡◌, ◌+◌, ◌<◌, ◌^◌, length, IfOk, OnOk};
ghost use Rattle.std.specs.List.{All};
ghost use Rattle.std.specs.Thread.{IsSync};
ghost use Rattle.slicer_bank.specs.Feeding.{FeedsBlock};
ghost use Rattle.slicer_bank.specs.Merging.{AllPast, CanBePut};
ghost use Rattle.sensitive_receiver.specs.FastLane.{FastReadsLine};
ghost use Rattle.sensitive_receiver.specs.FixedLanes.{FixedReadsLine};
ghost use Rattle.sensitive_receiver.specs.Hearing.{ReadsLine};

use crate::fast_bank::FastBank;
use crate::fixed_bank::FixedBank;
use crate::list_bank::ListBank;
use frame_merge::Candidate;
use slicer_bank::Bank;
use std::thread::{Threads, join_mut};
use tnc_base::OutOfMemory;
use tone_tracking::PlaceTones;

/// What a bank hears.
pub(crate) type Heard = Result<Vec<Candidate>, OutOfMemory>;

/// Has the eight lanes of a bank take a block, and the lane on the fast clock and the lanes of a list read a line, each bank on
/// a thread of its own.
pub(crate) fn read_fast_beside<R: Threads + Sync>(
    rt: &R,
    line: &[PlaceTones],
    fast: &mut FastBank,
    list: &mut ListBank,
    bank: &mut Bank,
    block: &[i16],
) -> (Heard, (Heard, Heard))
    requires fast { fast.old.ring.place + length line.now < 2 ^ 48 }
    requires list { list.old.ring.place + length line.now < 2 ^ 48 }
    requires bank { bank.old.position + length block.now < 2 ^ 48 }
    ensures eight { IfOk result.0 (λ found. FeedsBlock bank.old bank.new block.now found.items) }
    ensures eight_bounds { IfOk result.0 (λ found. All CanBePut found.items) }
    ensures eight_past { IfOk result.0 (λ found. AllPast bank.old.position found.items) }
    ensures eight_position { OnOk result.0 (bank.new.position ≡ bank.old.position + length block.now) }
    ensures fast { IfOk result.1.0 (λ found. FastReadsLine fast.old fast.new line.now found.items) }
    ensures list { IfOk result.1.1 (λ found. ReadsLine list.old list.new line.now found.items) }
{
    join_mut(
        rt,
        &mut || bank.feed(block),
        &mut ||
            requires { IsSync R.row × (fast.now.ring.place + length line.now < 2 ^ 48) × (list.now.ring.place + length line.now < 2 ^ 48) }
        { read_fast(rt, line, fast, list) },
    )
}

/// Has the lane on the fast clock and the lanes of a list read a line, each bank on a thread of its own.
fn read_fast<R: Threads + Sync>(
    rt: &R,
    line: &[PlaceTones],
    fast: &mut FastBank,
    list: &mut ListBank,
) -> (Heard, Heard)
    requires fast { fast.old.ring.place + length line.now < 2 ^ 48 }
    requires list { list.old.ring.place + length line.now < 2 ^ 48 }
    ensures fast { IfOk result.0 (λ found. FastReadsLine fast.old fast.new line.now found.items) }
    ensures list { IfOk result.1 (λ found. ReadsLine list.old list.new line.now found.items) }
{
    join_mut(rt, &mut || fast.feed(line), &mut || list.feed(line))
}

/// Has the lanes of two lists and the lanes at fixed offsets read a line, each bank on a thread of its own.
pub(crate) fn read_lists<R: Threads + Sync>(
    rt: &R,
    line: &[PlaceTones],
    first: &mut ListBank,
    fixed: &mut FixedBank,
    second: &mut ListBank,
) -> (Heard, (Heard, Heard))
    requires first { first.old.ring.place + length line.now < 2 ^ 48 }
    requires fixed { fixed.old.place + length line.now < 2 ^ 48 }
    requires second { second.old.ring.place + length line.now < 2 ^ 48 }
    ensures first { IfOk result.0 (λ found. ReadsLine first.old first.new line.now found.items) }
    ensures fixed { IfOk result.1.0 (λ found. FixedReadsLine fixed.old fixed.new line.now found.items) }
    ensures second { IfOk result.1.1 (λ found. ReadsLine second.old second.new line.now found.items) }
{
    join_mut(
        rt,
        &mut || first.feed(line),
        &mut ||
            requires { IsSync R.row × (fixed.now.place + length line.now < 2 ^ 48) × (second.now.ring.place + length line.now < 2 ^ 48) }
        { read_fixed(rt, line, fixed, second) },
    )
}

/// Has the lanes at fixed offsets and the lanes of a list read a line, each bank on a thread of its own.
fn read_fixed<R: Threads + Sync>(
    rt: &R,
    line: &[PlaceTones],
    fixed: &mut FixedBank,
    list: &mut ListBank,
) -> (Heard, Heard)
    requires fixed { fixed.old.place + length line.now < 2 ^ 48 }
    requires list { list.old.ring.place + length line.now < 2 ^ 48 }
    ensures fixed { IfOk result.0 (λ found. FixedReadsLine fixed.old fixed.new line.now found.items) }
    ensures list { IfOk result.1 (λ found. ReadsLine list.old list.new line.now found.items) }
{
    join_mut(rt, &mut || fixed.feed(line), &mut || list.feed(line))
}
