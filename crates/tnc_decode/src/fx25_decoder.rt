//! Frames that come plainly and in blocks, as candidates.
ghost use Rattle.std.specs.Prelude.{◌≡◌, ◌<◌, ◌+◌, ◌^◌, ◌++◌, ℤ, List, [], length, map, IfOk, OnOk};
ghost use Rattle.fx25_receiver.specs.declared.heard.Heard.{Heard};
ghost use Rattle.fx25_receiver.specs.Held.{StandsFor};
ghost use Rattle.fx25_receiver.specs.WithoutBlocks.{candidate_of};

use frame_merge::Candidate;
use fx25_receiver::{Fx25Receiver, candidates};
use std::alloc::Global;
use std::marker::Model;
use tnc_base::OutOfMemory;

/// A receiver whose items are candidates.
#[derive(Drop)]
pub(crate) struct Fx25Decoder {
    alloc: Global,
    receiver: Fx25Receiver,
}

impl Model for Fx25Decoder {
    ghost use Rattle.fx25_receiver.specs.Held.{Held};

    ghost Value = { Held };

    ghost view = { λ s. s.receiver };
}

impl Fx25Decoder {
    /// A decoder that has taken nothing.
    pub(crate) fn new(alloc: Global) -> Result<Fx25Decoder, OutOfMemory>
        ensures stands_for { IfOk result (λ decoder. (given : List Heard) × StandsFor decoder [] given) }
        ensures position { IfOk result (λ decoder. decoder.position ≡ 0) }
    {
        Ok(Fx25Decoder {
            alloc,
            receiver: Fx25Receiver::new(alloc)?,
        })
    }

    /// Takes a block of samples, and gives the items that end with them.
    pub(crate) fn block(&mut self, block: &[i16]) -> Result<Vec<Candidate>, OutOfMemory>
        requires room { self.old.position + length block.now < 2 ^ 48 }
        ensures given { IfOk result (λ items. (x : List ℤ) (given : List Heard) → StandsFor self.old x given
            → (heard : List Heard) × StandsFor self.new (x ++ block.now) (given ++ heard)
            × (items.items ≡ map candidate_of heard)) }
        ensures position { OnOk result (self.new.position ≡ self.old.position + length block.now) }
    {
        let heard = self.receiver.block(block)?;
        let items = candidates(self.alloc, &heard)?;
        Ok(items)
    }

    /// At the end of the samples nothing remains to be given.
    pub(crate) fn finish(&self) -> Vec<Candidate>
        ensures { result.items ≡ [] }
    {
        Vec::new(self.alloc)
    }
}
