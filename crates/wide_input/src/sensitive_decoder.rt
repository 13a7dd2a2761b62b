//! The decoder of all lanes at 48,000 samples a second: a sound card's samples in, each frame that some lane hears in them
//! once and in order out.

ghost use Rattle.std.specs.Prelude.{◌≡◌, ◌+◌, ◌<◌, ◌≤◌, ◌^◌, ℤ, List, [], ◌++◌, length, true, false, IfOk, OnOk, OnErr};
ghost use Rattle.std.specs.Prelude.{IsErr};
ghost use Rattle.resampler.specs.Filtered.{decimated};
ghost use Rattle.sensitive_receiver.specs.MergedItems.{AreMergedBetween};
ghost use Rattle.wide_input.specs.SettledByAll.{settled_by_all};
ghost use Rattle.wide_input.specs.HeldSensitive.{StandsFor};

use crate::wide_decoder::{BLOCK, LONG, join};
use frame_merge::Candidate;
use resampler::Decimator;
use sensitive_receiver::{AllOnThreads, SensitiveDecoder};
use std::alloc::Global;
use std::marker::Model;
use std::thread::Threads;
use tnc_base::OutOfMemory;

/// A [`Decimator`] before a [`SensitiveDecoder`]: `new`, then `block` for each block of samples, then `finish`. One
/// stream is enough for these lanes, since a clock that follows the sender's stands for the samples between. The filter
/// asks for fifteen samples past a place, so a block settles so much less. After want of memory it is spent: no later
/// call gives items.
///
/// The `end` of an item counts the samples of the stream, and its `offset` is its lane.
#[derive(Drop)]
pub struct WideSensitiveDecoder {
    filter: Decimator,
    decoder: SensitiveDecoder,
    ended: bool,
}

impl Model for WideSensitiveDecoder {
    ghost use Rattle.std.specs.Prelude.{◌≡◌, false};
    ghost use Rattle.wide_input.specs.HeldSensitive.{HeldSensitive};

    ghost Value = { HeldSensitive };

    ghost view = { λ s. record { filter = s.filter; decoder = s.decoder; ended = s.ended } };

    ghost invariant = { λ s. s.ended ≡ false → s.decoder.finished ≡ false };
}

impl WideSensitiveDecoder {
    /// A decoder that has taken nothing.
    pub fn new(alloc: Global) -> Result<WideSensitiveDecoder, OutOfMemory>
        ensures stands_for { IfOk result (λ decoder. StandsFor decoder []) }
        ensures position { IfOk result (λ decoder. decoder.decoder.position ≡ 0) }
        ensures unfinished { IfOk result (λ decoder. decoder.decoder.finished ≡ false) }
    {
        Ok(WideSensitiveDecoder {
            filter: Decimator::new(),
            decoder: SensitiveDecoder::new(alloc)?,
            ended: false,
        })
    }

    /// Takes a block of samples, and gives the items not given before that it settles.
    pub fn block(&mut self, block: &[i16]) -> Result<Vec<Candidate>, OutOfMemory>
        requires few { length block.now ≤ 2048 }
        requires room { self.old.decoder.position + length block.now < 2 ^ 48 }
        requires unfinished { self.old.decoder.finished ≡ false }
        ensures given { IfOk result (λ items. (x : List ℤ) → StandsFor self.old x → StandsFor self.new (x ++ block.now)
            × AreMergedBetween (settled_by_all (length x)) (settled_by_all (length (x ++ block.now)))
            (decimated (x ++ block.now)) items.items) }
        ensures position { OnOk result (self.new.decoder.position ≤ self.old.decoder.position + length block.now) }
        ensures unfinished { self.new.decoder.finished ≡ false }
        ensures fails { self.old.decoder.spent ≡ true → IsErr result }
        ensures spent { OnErr result (self.new.decoder.spent ≡ true) }
    {
        let mut part = [0; BLOCK];
        let count = self.filter.feed(block, &mut part);
        self.decoder.block(&part[..count])
    }

    /// Does what [`WideSensitiveDecoder::block`] does, with the lanes as [`AllOnThreads`] has them.
    pub fn block_threads<R: Threads + Sync>(
        &mut self,
        rt: &R,
        block: &[i16],
    ) -> Result<Vec<Candidate>, OutOfMemory>
        requires few { length block.now ≤ 32768 }
        requires room { self.old.decoder.position + length block.now < 2 ^ 48 }
        requires unfinished { self.old.decoder.finished ≡ false }
        ensures given { IfOk result (λ items. (x : List ℤ) → StandsFor self.old x → StandsFor self.new (x ++ block.now)
            × AreMergedBetween (settled_by_all (length x)) (settled_by_all (length (x ++ block.now)))
            (decimated (x ++ block.now)) items.items) }
        ensures position { OnOk result (self.new.decoder.position ≤ self.old.decoder.position + length block.now) }
        ensures unfinished { self.new.decoder.finished ≡ false }
        ensures fails { self.old.decoder.spent ≡ true → IsErr result }
        ensures spent { OnErr result (self.new.decoder.spent ≡ true) }
    {
        let mut part = [0; LONG];
        let count = self.filter.feed(block, &mut part);
        self.decoder.block_by(&AllOnThreads { rt }, &part[..count])
    }

    /// Gives the rest of the items: the samples have ended, and zeros follow for the filter.
    pub fn finish(&mut self) -> Result<Vec<Candidate>, OutOfMemory>
        requires room { self.old.decoder.position + 15 < 2 ^ 48 }
        ensures rest { IfOk result (λ items. (x : List ℤ) → StandsFor self.old x
            → AreMergedBetween (settled_by_all (length x)) (length (decimated x) + 1) (decimated x) items.items) }
        ensures finished { OnOk result (self.new.decoder.finished ≡ true) }
        ensures fails { self.old.decoder.spent ≡ true → IsErr result }
    {
        if self.ended {
            return self.decoder.finish();
        }
        self.ended = true;
        let mut part = [0; 15];
        let count = self.filter.finish(&mut part);
        let items = self.decoder.block(&part[..count])?;
        let rest = self.decoder.finish()?;
        join(items, rest)
    }
}
