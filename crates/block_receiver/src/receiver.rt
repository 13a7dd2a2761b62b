//! The receiver: samples in blocks in, each frame that is heard in them once and in order out.

ghost use Rattle.std.specs.Prelude.{◌≡◌, ◌+◌, ◌<◌, ◌≤◌, ◌^◌, ℤ, List, [], ◌++◌, length, replicate, false, IfOk, OnOk};
ghost use Rattle.block_receiver.specs.Progress.{Finishes, TakesBlock};
ghost use Rattle.block_receiver.specs.HeldReceiver.{StandsFor, progress};
ghost use Rattle.block_receiver.specs.MergedItems.{AreMergedBetween};

use crate::lanes::{Hearer, InTurn, Lanes};
use crate::merging::merge_found;
use crate::progress::Progress;
use frame_merge::{Candidate, Merger};
use std::alloc::Global;
use std::marker::Model;
use tnc_base::OutOfMemory;

/// Lanes and a [`Merger`]: `new`, then `block` for each block of samples, then `finish`. It keeps what can still be
/// given or repeated. After want of memory it is spent: each later `block` or `finish` wants memory, too.
#[derive(Drop)]
pub struct Receiver<L: Lanes> {
    alloc: Global,
    lanes: L,
    merger: Merger,
    progress: Progress,
}

impl<L: Lanes> Model for Receiver<L> {
    ghost use Rattle.std.specs.Prelude.{◌≡◌, false, replicate};
    ghost use Rattle.block_receiver.specs.Hearing.{Hearing};
    ghost use Rattle.block_receiver.specs.HeldReceiver.{Held};

    ghost Value = { Held L };

    ghost view = { λ s. record {
      lanes = s.lanes;
      merger = s.merger;
      position = s.progress.position;
      finished = s.progress.finished;
      spent = s.progress.spent;
    } };

    ghost invariant = { λ s. s.progress.spent ≡ false → s.progress.finished ≡ false
        → L.hearing.IsAt s.lanes s.progress.position
        × (s.merger.marks ≡ replicate L.hearing.lanes (L.hearing.settled s.progress.position)) };
}

impl<L: Lanes> Receiver<L> {
    /// A receiver that has taken nothing.
    pub fn new(alloc: Global) -> Result<Receiver<L>, OutOfMemory>
        ensures stands_for { IfOk result (λ receiver. StandsFor L.hearing receiver []) }
        ensures position { IfOk result (λ receiver. receiver.position ≡ 0) }
        ensures unfinished { IfOk result (λ receiver. receiver.finished ≡ false) }
    {
        L::laws();
        Ok(Receiver {
            alloc,
            lanes: L::start(alloc)?,
            merger: Merger::new(alloc, L::count())?,
            progress: Progress::new(),
        })
    }

    /// Takes a block of samples, and gives the items not given before that are settled by then.
    pub fn block(&mut self, block: &[i16]) -> Result<Vec<Candidate>, OutOfMemory>
        requires room { self.old.position + length block.now < 2 ^ 48 }
        requires unfinished { self.old.finished ≡ false }
        ensures given { IfOk result (λ items. (x : List ℤ) → StandsFor L.hearing self.old x
            → StandsFor L.hearing self.new (x ++ block.now)
            × AreMergedBetween L.hearing.Heard (L.hearing.settled (length x))
            (L.hearing.settled (length (x ++ block.now))) (x ++ block.now) items.items) }
        ensures progress { TakesBlock (progress self.old) (progress self.new) (length block.now) result }
    {
        self.block_by(&InTurn, block)
    }

    /// Does what [`Receiver::block`] does, with the lanes as `hearer` has them.
    pub fn block_by<H: Hearer<L>>(
        &mut self,
        hearer: &H,
        block: &[i16],
    ) -> Result<Vec<Candidate>, OutOfMemory>
        requires can { H.can_hear hearer.now }
        requires room { self.old.position + length block.now < 2 ^ 48 }
        requires unfinished { self.old.finished ≡ false }
        ensures given { IfOk result (λ items. (x : List ℤ) → StandsFor L.hearing self.old x
            → StandsFor L.hearing self.new (x ++ block.now)
            × AreMergedBetween L.hearing.Heard (L.hearing.settled (length x))
            (L.hearing.settled (length (x ++ block.now))) (x ++ block.now) items.items) }
        ensures progress { TakesBlock (progress self.old) (progress self.new) (length block.now) result }
    {
        L::laws();
        self.progress.begin()?;
        let position = self.progress.position;
        let found = hearer.hear(&mut self.lanes, self.alloc, position, block)?;
        let mark = L::settled(position + block.len() as u64);
        let items = merge_found(&mut self.merger, found, mark)?;
        self.progress.take(block.len());
        Ok(items)
    }

    /// Gives the rest of the items: the samples have ended.
    pub fn finish(&mut self) -> Result<Vec<Candidate>, OutOfMemory>
        ensures rest { IfOk result (λ items. (x : List ℤ) → length x < 2 ^ 48 → StandsFor L.hearing self.old x
            → AreMergedBetween L.hearing.Heard (L.hearing.settled (length x)) (L.hearing.past (length x)) x
            items.items) }
        ensures nothing_held { OnOk result ((x : List ℤ) → length x < 2 ^ 48 → StandsFor L.hearing self.old x
            → length self.new.merger.items ≡ 0) }
        ensures progress { Finishes (progress self.old) (progress self.new) result }
    {
        L::laws();
        self.progress.finish(self.alloc, &mut self.merger)
    }

    /// How many candidates it keeps.
    pub fn held(&self) -> usize
        ensures { result ≡ length self.now.merger.items }
    {
        self.merger.held()
    }
}
