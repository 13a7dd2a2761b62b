//! The decoder: samples as a sound card has them in, each frame that is heard in them once and in order out.

ghost use Rattle.std.specs.Prelude.{◌≡◌, ◌+◌, ◌<◌, ◌≤◌, ◌^◌, ℤ, List, [], ◌++◌, length, true, false, IfOk, OnOk, OnErr};
ghost use Rattle.std.specs.Prelude.{IsErr};
ghost use Rattle.resampler.specs.Filtered.{filtered};
ghost use Rattle.wide_input.specs.MergedItems.{AreWideMergedBetween, AreWideRest, settled_ends};
ghost use Rattle.wide_input.specs.HeldDecoder.{StandsFor};

use crate::wide_bank::WideBank;
use frame_merge::Candidate;
use resampler::LowPass;
use slicer_bank::Gate;
use std::alloc::Global;
use std::marker::Model;
use std::thread::Threads;
use tnc_base::OutOfMemory;

/// The most samples of a block.
pub(crate) const BLOCK: usize = 2048;

/// The most samples of a block that threads share.
pub(crate) const LONG: usize = 32768;

/// A [`LowPass`] filter before a [`WideBank`]: `new`, then `block` for each block of samples, then `finish`. The filter
/// asks for fifteen samples past a place, so a block settles so much less. After want of memory it is spent: no later
/// call gives items.
///
/// The `end` of an item counts the samples of its stream, and its `offset` is its lane: stream r has the lanes 8r to
/// 8r + 7.
#[derive(Drop)]
pub struct WideDecoder {
    filter: LowPass,
    bank: WideBank,
}

impl Model for WideDecoder {
    ghost use Rattle.wide_input.specs.HeldDecoder.{HeldDecoder};

    ghost Value = { HeldDecoder };

    ghost view = { λ s. record { filter = s.filter; bank = s.bank } };
}

impl WideDecoder {
    /// A decoder that has taken nothing.
    pub fn new(alloc: Global) -> Result<WideDecoder, OutOfMemory>
        ensures stands_for { IfOk result (λ decoder. StandsFor decoder []) }
        ensures position { IfOk result (λ decoder. decoder.bank.position ≡ 0) }
        ensures unfinished { IfOk result (λ decoder. decoder.bank.finished ≡ false) }
    {
        Ok(WideDecoder {
            filter: LowPass::new(),
            bank: WideBank::new(alloc)?,
        })
    }

    /// Takes a block of samples, and gives the items not given before that it settles.
    pub fn block(&mut self, block: &[i16]) -> Result<Vec<Candidate>, OutOfMemory>
        requires few { length block.now ≤ 2048 }
        requires room { self.old.bank.position + length block.now < 2 ^ 48 }
        requires unfinished { self.old.bank.finished ≡ false }
        ensures given { IfOk result (λ items. (x : List ℤ) → StandsFor self.old x → StandsFor self.new (x ++ block.now)
            × AreWideMergedBetween (settled_ends (length x)) (settled_ends (length (x ++ block.now)))
            (filtered (x ++ block.now)) items.items) }
        ensures position { OnOk result (self.new.bank.position ≤ self.old.bank.position + length block.now) }
        ensures unfinished { self.new.bank.finished ≡ false }
        ensures fails { self.old.bank.spent ≡ true → IsErr result }
        ensures spent { OnErr result (self.new.bank.spent ≡ true) }
    {
        let mut part = [0; BLOCK];
        let count = self.filter.feed(block, &mut part);
        self.bank.block(&part[..count])
    }

    /// Does what [`WideDecoder::block`] does, with the streams on threads, as [`WideBank::block_threads`] has them.
    pub fn block_threads<R: Threads + Sync, G: Gate>(
        &mut self,
        rt: &R,
        block: &[i16],
        gate: &G,
    ) -> Result<Vec<Candidate>, OutOfMemory>
        requires few { length block.now ≤ 32768 }
        requires room { self.old.bank.position + length block.now < 2 ^ 48 }
        requires unfinished { self.old.bank.finished ≡ false }
        ensures given { IfOk result (λ items. (x : List ℤ) → StandsFor self.old x → StandsFor self.new (x ++ block.now)
            × AreWideMergedBetween (settled_ends (length x)) (settled_ends (length (x ++ block.now)))
            (filtered (x ++ block.now)) items.items) }
        ensures position { OnOk result (self.new.bank.position ≤ self.old.bank.position + length block.now) }
        ensures unfinished { self.new.bank.finished ≡ false }
        ensures fails { self.old.bank.spent ≡ true → IsErr result }
        ensures spent { OnErr result (self.new.bank.spent ≡ true) }
    {
        let mut part = [0; LONG];
        let count = self.filter.feed(block, &mut part);
        self.bank.block_threads(rt, &part[..count], gate)
    }

    /// Gives the rest of the items: the samples have ended, and zeros follow for the filter.
    pub fn finish(&mut self) -> Result<Vec<Candidate>, OutOfMemory>
        requires room { self.old.bank.position + 15 < 2 ^ 48 }
        ensures rest { IfOk result (λ items. (x : List ℤ) → StandsFor self.old x
            → AreWideRest (settled_ends (length x)) (filtered x) items.items) }
        ensures finished { OnOk result (self.new.bank.finished ≡ true) }
        ensures fails { self.old.bank.spent ≡ true → IsErr result }
    {
        if self.bank.is_finished() {
            return self.bank.finish();
        }
        let mut part = [0; 15];
        let count = self.filter.finish(&mut part);
        let items = self.bank.block(&part[..count])?;
        let rest = self.bank.finish()?;
        join(items, rest)
    }
}

/// The items of one list and then of the other.
pub(crate) fn join(
    first: Vec<Candidate>,
    second: Vec<Candidate>,
) -> Result<Vec<Candidate>, OutOfMemory>
    ensures { IfOk result (λ items. items.items ≡ first.items ++ second.items) }
{
    let mut items = first;
    let mut rest = second;
    items.append(&mut rest)?;
    Ok(items)
}
