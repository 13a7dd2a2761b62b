//! The lanes that share a reader of the ring.

ghost use Rattle.std.specs.Prelude.{◌≡◌, ◌≤◌};

use crate::placing::place_all;
use crate::telling::{all_of, rest_of, tell};
use frame_merge::Candidate;
use fx25_receiver::Fx25Receiver;
use sensitive_blocks::SensitiveBlocksReceiver;
use slicer_bank::Bank;
use std::alloc::Global;
use stretch_reader::StretchLanes;
use tnc_base::OutOfMemory;

/// Eight lanes that hear frames plainly and in blocks, or all 26, and eight that listen for flags in a row. All hear the
/// samples since the last gap.
#[derive(Drop)]
pub struct Lanes {
    pub(crate) alloc: Global,
    /// The eight lanes that hear frames, and the blocks that come in.
    pub(crate) receiver: Fx25Receiver,
    /// All lanes, which hear frames in place of the eight if they listen.
    pub(crate) all: Option<SensitiveBlocksReceiver>,
    /// What listens for flags.
    pub(crate) bank: Bank,
    /// For how many flags in a row it listens.
    pub(crate) flags: u8,
    /// The position of the first sample.
    pub(crate) begin: u64,
    ghost some_flags: { 1 ≤ flags },
    ghost few_flags: { flags ≤ 8 },
    ghost asked: { bank.flags ≡ flags },
}

impl Lanes {
    ghost use Rattle.std.specs.Prelude.{◌≡◌, ◌≤◌, ◌↔◌, [], IfOk, IsTrue};
    ghost use Rattle.slicer_bank.specs.Stretches.{Stretch, stretch_at};
    ghost use Rattle.fx25_ring.specs.HeardInBlocks.{HearsStation};
    ghost use Rattle.fx25_ring.specs.Held.{are_sensitive, AreTogether, ListenTo, place_of, StandForStretch};

    /// Lanes that have heard nothing and listen for so many flags in a row, 1 to 8; all of them if they are to be sensitive.
    pub(crate) fn new(alloc: Global, flags: u8, sensitive: bool) -> Result<Lanes, OutOfMemory>
        requires { (1 ≤ flags) × (flags ≤ 8) }
        ensures stand { IfOk result (λ lanes. StandForStretch lanes (stretch_at 0) []) }
        ensures listen { IfOk result (λ lanes. ListenTo lanes (stretch_at 0)) }
        ensures place { IfOk result (λ lanes. place_of lanes ≡ 0) }
        ensures step { IfOk result AreTogether }
        ensures sensitive { IfOk result (λ lanes. are_sensitive lanes ≡ sensitive) }
        ensures flags { IfOk result (λ lanes. lanes.flags ≡ flags) }
    {
        Ok(Lanes {
            alloc,
            receiver: Fx25Receiver::new(alloc)?,
            all: all_of(alloc, sensitive)?,
            bank: Bank::listening(alloc, flags)?,
            flags,
            begin: 0,
        })
    }

    /// Whether another station is heard since the last gap.
    pub(crate) fn busy(&self) -> bool
        ensures { (s : Stretch) → ListenTo self.now s → (IsTrue result ↔ HearsStation self.now.flags s) }
    {
        if self.bank.busy() {
            return true;
        }
        self.receiver.is_block_coming()
    }
}

impl StretchLanes for Lanes {
    ghost use Rattle.fx25_ring.specs.HeardInBlocks.{AreHeardInOne};
    ghost use Rattle.fx25_ring.specs.Held.{are_sensitive, AreTogether, ListenTo, place_of, StandForStretch};

    ghost heard = { AreHeardInOne };

    ghost holds = { StandForStretch };

    ghost listens = { ListenTo };

    ghost comes = { λ sensitive from item. Unit {0} };

    ghost place = { place_of };

    ghost in_step = { AreTogether };

    ghost sensitive = { are_sensitive };

    ghost flags = { λ lanes. lanes.flags };

    fn begin_at(&mut self, position: u64) -> Result<(), OutOfMemory> {
        self.receiver = Fx25Receiver::new(self.alloc)?;
        self.all = all_of(self.alloc, self.all.is_some())?;
        self.bank = Bank::listening(self.alloc, self.flags)?;
        self.begin = position;
        Ok(())
    }

    fn hear(&mut self, samples: &[i16], items: &mut Vec<Candidate>) -> Result<(), OutOfMemory> {
        let heard = self.receiver.block(samples)?;
        self.bank.feed(samples)?;
        let told = tell(&mut self.all, samples, heard)?;
        place_all(self.alloc, self.begin, &told, items)
    }

    fn finish(&mut self, items: &mut Vec<Candidate>) -> Result<(), OutOfMemory> {
        let rest = rest_of(self.alloc, &mut self.all)?;
        place_all(self.alloc, self.begin, &rest, items)
    }
}
