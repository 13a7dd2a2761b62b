//! The five streams over a block: each hears its part by itself, so they can work one after another, or on threads.

ghost use Rattle.std.specs.Prelude.{◌≡◌, ◌+◌, ◌<◌, ◌≤◌, ◌^◌, ◌/◌, ℕ, ℤ, List, [], ◌++◌, length, map, replicate, IfOk};
ghost use Rattle.std.specs.Prelude.{OnOk, slice_index_or};
ghost use Rattle.std.specs.List.{All};
ghost use Rattle.frame_merge.specs.declared.candidate.Candidate.{Candidate};
ghost use Rattle.frame_merge.specs.Held.{StandsFor as MergerStandsFor};
ghost use Rattle.slicer_bank.specs.Merging.{CanBePut};
ghost use Rattle.wide_input.specs.Candidates.{in_stream};
ghost use Rattle.wide_input.specs.Streams.{least_count};
ghost use Rattle.wide_input.specs.MergedItems.{AreWideMergedBetween};
ghost use Rattle.wide_input.specs.Held.{HeldStream, HearsBlock, KeepsFit, StreamsStandFor, AreAlike, HaveTaken};
ghost use Rattle.wide_input.specs.Held.{HasFound, IsAbreast, TakesPart, IsPastMarks, KeepsInTime, found_by, brought};

use crate::stream::{STREAMS, Stream};
use frame_merge::{Candidate, Merger};
use slicer_bank::Gate;
use std::alloc::Global;
use std::thread;
use std::thread::Threads;
use tnc_base::OutOfMemory;

/// The fewest samples of a block of which each thread of four still has more to do than it takes to start one.
const LONG: usize = 16384;

/// The lanes of a stream, one for each offset of a bit.
pub(crate) const OFFSETS: u8 = 8;

/// The lanes of all streams.
pub(crate) const LANES: u8 = 40;

/// How many threads share the streams over a block of so many samples: two, and four if it is long.
fn threads_for(samples: usize) -> usize
    ensures { (2 ≤ result) × (result ≤ 4) }
{
    if samples < LONG { 2 } else { 4 }
}

/// The five streams, which have taken nothing.
pub(crate) fn new_streams(alloc: Global) -> Result<Vec<Stream>, OutOfMemory>
    ensures count { IfOk result (λ streams. length streams.items ≡ 5) }
    ensures stand_for { IfOk result (λ streams. StreamsStandFor streams.items []) }
    ensures positions { IfOk result (λ streams. All (λ held. held.bank.position ≤ 0) streams.items) }
    ensures abreast { IfOk result (λ streams. All (IsAbreast 0) streams.items) }
{
    let mut streams = Vec::new(alloc);
    for number in 0..STREAMS {
        streams.push(Stream::new(alloc, number as u8)?)?;
    }
    Ok(streams)
}

/// Runs the job of each stream, one after another.
pub(crate) fn hear_in_turn(streams: &mut [Stream], position: u64, block: &[i16])
    requires streams { length streams.old ≡ 5 }
    requires positions { All (λ held. held.bank.position ≤ position) streams.old }
    requires abreast { All (IsAbreast position) streams.old }
    requires room { position + length block.now < 2 ^ 48 }
    ensures streams { length streams.new ≡ 5 }
    ensures heard { (number : ℕ) (d : HeldStream) → number < 5
        → HearsBlock block.now (slice_index_or streams.old number d) (slice_index_or streams.new number d) }
    ensures fits { All KeepsFit streams.new }
    ensures part { All (TakesPart position (length block.now)) streams.new }
    ensures positions { All (λ held. held.bank.position ≤ position + length block.now) streams.new }
{
    for stream in streams.iter_mut() {
        stream.hear(block);
    }
}

/// Runs the job of each stream, on two threads, or on four if the block is long. The gate is told of each lane of a
/// stream as the stream's job starts.
pub(crate) fn hear_on_threads<R: Threads + Sync, G: Gate>(
    rt: &R,
    streams: &mut [Stream],
    position: u64,
    block: &[i16],
    gate: &G,
)
    requires streams { length streams.old ≡ 5 }
    requires positions { All (λ held. held.bank.position ≤ position) streams.old }
    requires abreast { All (IsAbreast position) streams.old }
    requires room { position + length block.now < 2 ^ 48 }
    ensures streams { length streams.new ≡ 5 }
    ensures heard { (number : ℕ) (d : HeldStream) → number < 5
        → HearsBlock block.now (slice_index_or streams.old number d) (slice_index_or streams.new number d) }
    ensures fits { All KeepsFit streams.new }
    ensures part { All (TakesPart position (length block.now)) streams.new }
    ensures positions { All (λ held. held.bank.position ≤ position + length block.now) streams.new }
{
    thread::for_each_mut(
        rt,
        streams,
        threads_for(block.len()),
        &|index, stream: &mut Stream|
            requires { (index < 5) × (stream.old.bank.position + length block.now < 2 ^ 48) }
            ensures heard { HearsBlock block.entry.now stream.old stream.new }
            ensures fits { KeepsFit stream.new }
            ensures part { (from : ℕ) → IsAbreast from stream.old → TakesPart from (length block.entry.now) stream.new }
            ensures position { stream.new.bank.position ≤ stream.old.bank.position + length block.entry.now }
        {
            tell_lanes(gate, index as u8);
            stream.hear(block);
        },
    );
}

/// Tells the gate of the lanes of a stream.
fn tell_lanes<G: Gate>(gate: &G, number: u8)
    requires { number < 5 }
{
    for offset in 0..OFFSETS {
        gate.begun(OFFSETS * number + offset);
    }
}

/// Puts what the streams heard into the lanes of a merger, stream by stream.
pub(crate) fn put_found(streams: &mut [Stream], merger: &mut Merger) -> Result<(), OutOfMemory>
    requires streams { length streams.old ≡ 5 }
    requires fits { All KeepsFit streams.old }
    requires marks { length merger.old.marks ≡ 40 }
    requires in_time { All (KeepsInTime merger.old.marks) streams.old }
    ensures streams { length streams.new ≡ 5 }
    ensures alike { OnOk result ((number : ℕ) (d : HeldStream) → number < 5
        → AreAlike (slice_index_or streams.new number d) (slice_index_or streams.old number d)) }
    ensures kept { OnOk result (All HasFound streams.old) }
    ensures stands_for { OnOk result ((puts given : List Candidate) → MergerStandsFor merger.old puts given
        → MergerStandsFor merger.new (puts ++ brought 0 (map found_by streams.old)) given) }
    ensures marks { merger.new.marks ≡ merger.old.marks }
{
    for number in 0..STREAMS {
        let found = streams[number].take_found()?;
        put_stream(merger, number as u8, found)?;
    }
    Ok(())
}

/// Puts what one stream heard into its lanes.
fn put_stream(merger: &mut Merger, number: u8, found: Vec<Candidate>) -> Result<(), OutOfMemory>
    requires number { number < 5 }
    requires fits { All CanBePut found.items }
    requires marks { length merger.old.marks ≡ 40 }
    requires in_time { All (IsPastMarks merger.old.marks) found.items }
    ensures stands_for { OnOk result ((puts given : List Candidate) → MergerStandsFor merger.old puts given
        → MergerStandsFor merger.new (puts ++ map (in_stream number) found.items) given) }
    ensures marks { merger.new.marks ≡ merger.old.marks }
{
    for heard in found {
        let item = Candidate {
            end: heard.end,
            offset: OFFSETS * number + heard.offset,
            octets: heard.octets,
        };
        merger.put_in_time(item)?;
    }
    Ok(())
}

/// Gives what the streams heard in a block to a merger, whose lanes are then marked where the least stream stands: past
/// `position` samples in all. Tells the items that are settled by the block.
pub(crate) fn merge_found(
    streams: &mut [Stream],
    merger: &mut Merger,
    position: u64,
) -> Result<Vec<Candidate>, OutOfMemory>
    requires streams { length streams.old ≡ 5 }
    requires fits { All KeepsFit streams.old }
    requires room { position < 2 ^ 48 }
    requires lanes { length merger.old.marks ≡ 40 }
    requires marks { All (λ mark. mark ≤ position / 5) merger.old.marks }
    requires in_time { All (KeepsInTime merger.old.marks) streams.old }
    ensures given { IfOk result (λ ready. (before : List HeldStream) (x y : List ℤ) → length (x ++ y) ≡ position
        → ((number : ℕ) (d : HeldStream) → number < 5
        → HearsBlock y (slice_index_or before number d) (slice_index_or streams.old number d))
        → HaveTaken before merger.old x
        → HaveTaken streams.new merger.new (x ++ y)
        × AreWideMergedBetween (least_count x) (least_count (x ++ y)) (x ++ y) ready.items) }
    ensures streams { length streams.new ≡ 5 }
    ensures marks { OnOk result (merger.new.marks ≡ replicate 40 (position / 5)) }
    ensures positions { OnOk result ((most : ℕ) → All (λ held. held.bank.position ≤ most) streams.old
        → All (λ held. held.bank.position ≤ most) streams.new) }
    ensures abreast { OnOk result ((from count : ℕ) → All (TakesPart from count) streams.old
        → All (IsAbreast (from + count)) streams.new) }
{
    put_found(streams, merger)?;
    merger.mark_all(position / STREAMS as u64);
    let ready = merger.take_ready()?;
    Ok(ready)
}
