//! The wide bank: samples at 48,000 a second in blocks in, each frame that is heard in them once and in order out.

ghost use Rattle.std.specs.Prelude.{◌≡◌, ◌+◌, ◌<◌, ◌≤◌, ◌^◌, ◌/◌, ℕ, ℤ, List, [], ◌++◌, length, replicate, true, false};
ghost use Rattle.std.specs.Prelude.{IfOk, OnOk, OnErr, slice_index_or};
ghost use Rattle.std.specs.List.{All};
ghost use Rattle.slicer_bank.specs.Progress.{Finishes, TakesBlock};
ghost use Rattle.wide_input.specs.Streams.{least_count};
ghost use Rattle.wide_input.specs.MergedItems.{AreWideMergedBetween, AreWideRest};
ghost use Rattle.wide_input.specs.Held.{HeldStream, HearsBlock, KeepsFit, TakesPart, HaveTaken, StandsFor, progress};

use crate::stream::{STREAMS, Stream};
use crate::streams::{LANES, hear_in_turn, hear_on_threads, merge_found, new_streams};
use frame_merge::{Candidate, Merger};
use slicer_bank::{Gate, Progress};
use std::alloc::Global;
use std::marker::Model;
use std::thread::Threads;
use tnc_base::OutOfMemory;

/// Five streams of eight lanes each, and a merger of the forty: `new`, then `block` for each block of samples, then
/// `finish`. It keeps what can still be given or repeated, and no samples but the last seven of each stream. After want
/// of memory it is spent: no later call gives items.
///
/// The `end` of an item counts the samples of its stream, and its `offset` is its lane: stream r has the lanes 8r to
/// 8r + 7.
#[derive(Drop)]
pub struct WideBank {
    alloc: Global,
    streams: Vec<Stream>,
    merger: Merger,
    progress: Progress,
}

impl Model for WideBank {
    ghost use Rattle.std.specs.Prelude.{◌≡◌, ◌≤◌, ◌/◌, false, length, replicate, All};
    ghost use Rattle.wide_input.specs.Held.{HeldWide, IsAbreast};

    ghost Value = { HeldWide };

    ghost view = { λ s. record {
      streams = s.streams.items;
      merger = s.merger;
      position = s.progress.position;
      finished = s.progress.finished;
      spent = s.progress.spent;
    } };

    ghost invariant = { λ s. (length s.streams.items ≡ 5)
        × (s.progress.spent ≡ false → s.progress.finished ≡ false
        → All (λ held. held.bank.position ≤ s.progress.position) s.streams.items
        × All (IsAbreast s.progress.position) s.streams.items
        × (s.merger.marks ≡ replicate 40 (s.progress.position / 5))) };
}

impl WideBank {
    /// Forty lanes that have taken nothing.
    pub fn new(alloc: Global) -> Result<WideBank, OutOfMemory>
        ensures stands_for { IfOk result (λ bank. StandsFor bank []) }
        ensures position { IfOk result (λ bank. bank.position ≡ 0) }
        ensures unfinished { IfOk result (λ bank. bank.finished ≡ false) }
    {
        Ok(WideBank {
            alloc,
            streams: new_streams(alloc)?,
            merger: Merger::new(alloc, LANES)?,
            progress: Progress::new(),
        })
    }

    /// Takes a block of samples, and gives the items not given before that end below the number of samples that the
    /// least stream has so far.
    pub fn block(&mut self, block: &[i16]) -> Result<Vec<Candidate>, OutOfMemory>
        requires room { self.old.position + length block.now < 2 ^ 48 }
        requires unfinished { self.old.finished ≡ false }
        ensures given { IfOk result (λ items. (x : List ℤ) → StandsFor self.old x → StandsFor self.new (x ++ block.now)
            × AreWideMergedBetween (least_count x) (least_count (x ++ block.now)) (x ++ block.now) items.items) }
        ensures progress { TakesBlock (progress self.old) (progress self.new) (length block.now) result }
    {
        self.progress.begin()?;
        hear_in_turn(&mut self.streams, self.progress.position, block);
        self.settle(block.len())
    }

    /// Does what [`WideBank::block`] does, with the streams on two threads, or on four if the block is long. The gate is
    /// told once of each of the forty lanes, those of a stream as the job of the stream starts.
    pub fn block_threads<R: Threads + Sync, G: Gate>(
        &mut self,
        rt: &R,
        block: &[i16],
        gate: &G,
    ) -> Result<Vec<Candidate>, OutOfMemory>
        requires room { self.old.position + length block.now < 2 ^ 48 }
        requires unfinished { self.old.finished ≡ false }
        ensures given { IfOk result (λ items. (x : List ℤ) → StandsFor self.old x → StandsFor self.new (x ++ block.now)
            × AreWideMergedBetween (least_count x) (least_count (x ++ block.now)) (x ++ block.now) items.items) }
        ensures progress { TakesBlock (progress self.old) (progress self.new) (length block.now) result }
    {
        self.progress.begin()?;
        hear_on_threads(rt, &mut self.streams, self.progress.position, block, gate);
        self.settle(block.len())
    }

    /// Gives the items that a block of `count` samples settles, which the streams heard. The bank is spent until then.
    fn settle(&mut self, count: usize) -> Result<Vec<Candidate>, OutOfMemory>
        requires room { self.old.position + count < 2 ^ 48 }
        requires fits { All KeepsFit self.old.streams }
        requires part { All (TakesPart self.old.position count) self.old.streams }
        requires spent { self.old.spent ≡ true }
        requires marks { self.old.merger.marks ≡ replicate 40 (self.old.position / 5) }
        requires positions { All (λ held. held.bank.position ≤ self.old.position + count) self.old.streams }
        ensures given { IfOk result (λ items. (before : List HeldStream) (x y : List ℤ) → self.old.finished ≡ false
            → length x ≡ self.old.position → length y ≡ count
            → ((number : ℕ) (d : HeldStream) → number < 5
            → HearsBlock y (slice_index_or before number d) (slice_index_or self.old.streams number d))
            → HaveTaken before self.old.merger x
            → StandsFor self.new (x ++ y)
            × AreWideMergedBetween (least_count x) (least_count (x ++ y)) (x ++ y) items.items) }
        ensures position { OnOk result (self.new.position ≡ self.old.position + count) }
        ensures stays { OnErr result (self.new.position ≡ self.old.position) }
        ensures finished { self.new.finished ≡ self.old.finished }
        ensures spent { OnErr result (self.new.spent ≡ true) }
    {
        let position = self.progress.position + count as u64;
        let items = merge_found(&mut self.streams, &mut self.merger, position)?;
        self.progress.take(count);
        Ok(items)
    }

    /// Gives the rest of the items: the samples have ended.
    pub fn finish(&mut self) -> Result<Vec<Candidate>, OutOfMemory>
        ensures rest { IfOk result (λ items. (x : List ℤ) → StandsFor self.old x
            → AreWideRest (least_count x) x items.items) }
        ensures progress { Finishes (progress self.old) (progress self.new) result }
    {
        self.progress.finish(self.alloc, &mut self.merger)
    }

    /// Whether the samples have ended.
    pub(crate) fn is_finished(&self) -> bool
        ensures { result ≡ self.now.finished }
    {
        self.progress.finished
    }
}
