//! Frames that all lanes hear plainly and in blocks, as candidates.
ghost use Rattle.std.specs.Prelude.{◌≡◌, ◌<◌, ◌+◌, ◌^◌, ◌++◌, ℤ, List, [], length, map, IfOk, OnOk};
ghost use Rattle.fx25_receiver.specs.declared.heard.Heard.{Heard};
ghost use Rattle.fx25_receiver.specs.WithoutBlocks.{candidate_of};
ghost use Rattle.sensitive_blocks.specs.Heard.{AreMerged};
ghost use Rattle.sensitive_blocks.specs.Held.{StandsFor};

use frame_merge::Candidate;
use fx25_receiver::candidates;
use sensitive_blocks::SensitiveBlocksReceiver;
use std::alloc::Global;
use std::marker::Model;
use tnc_base::OutOfMemory;

/// A receiver of all lanes whose items are candidates.
#[derive(Drop)]
pub(crate) struct SensitiveFx25Decoder {
    alloc: Global,
    receiver: SensitiveBlocksReceiver,
}

impl Model for SensitiveFx25Decoder {
    ghost use Rattle.sensitive_blocks.specs.Held.{HeldReceiver};

    ghost Value = { HeldReceiver };

    ghost view = { λ s. s.receiver };
}

impl SensitiveFx25Decoder {
    /// A decoder that has taken nothing.
    pub(crate) fn new(alloc: Global) -> Result<SensitiveFx25Decoder, OutOfMemory>
        ensures stands_for { IfOk result (λ decoder. (given : List Heard) × StandsFor decoder [] given) }
        ensures position { IfOk result (λ decoder. decoder.follower.position ≡ 0) }
    {
        Ok(SensitiveFx25Decoder {
            alloc,
            receiver: SensitiveBlocksReceiver::new(alloc)?,
        })
    }

    /// Takes a block of samples, and gives the items that it settles.
    pub(crate) fn block(&mut self, block: &[i16]) -> Result<Vec<Candidate>, OutOfMemory>
        requires room { self.old.follower.position + length block.now < 2 ^ 48 }
        ensures given { IfOk result (λ items. (x : List ℤ) (given : List Heard) → StandsFor self.old x given
            → (heard : List Heard) × StandsFor self.new (x ++ block.now) (given ++ heard)
            × (items.items ≡ map candidate_of heard)) }
        ensures position { OnOk result (self.new.follower.position ≡ self.old.follower.position + length block.now) }
    {
        let heard = self.receiver.block(block)?;
        let items = candidates(self.alloc, &heard)?;
        Ok(items)
    }

    /// Gives the rest of the items: the samples have ended.
    pub(crate) fn finish(&mut self) -> Result<Vec<Candidate>, OutOfMemory>
        requires room { self.old.follower.position < 2 ^ 48 }
        ensures rest { IfOk result (λ items. (x : List ℤ) (given : List Heard) → StandsFor self.old x given
            → (heard : List Heard) × AreMerged x (given ++ heard) × (items.items ≡ map candidate_of heard)) }
    {
        let heard = self.receiver.finish()?;
        let items = candidates(self.alloc, &heard)?;
        Ok(items)
    }
}
