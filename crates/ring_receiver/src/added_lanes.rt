//! The added lanes, which share a reader of the ring.

use crate::moving::add_moved;
use frame_merge::Candidate;
use sensitive_receiver::AddedBank;
use std::alloc::Global;
use stretch_reader::StretchLanes;
use tnc_base::OutOfMemory;

/// The added lanes. All hear the samples since the last gap.
#[derive(Drop)]
pub struct AddedLanes {
    pub(crate) alloc: Global,
    pub(crate) bank: AddedBank,
    /// The position of the first sample.
    pub(crate) begin: u64,
}

impl AddedLanes {
    ghost use Rattle.std.specs.Prelude.{◌≡◌, [], IfOk};
    ghost use Rattle.slicer_bank.specs.Stretches.{stretch_at};
    ghost use Rattle.ring_receiver.specs.HeldReceiver.{HoldStretch, place_of};

    /// Lanes that have heard nothing.
    pub(crate) fn new(alloc: Global) -> Result<AddedLanes, OutOfMemory>
        ensures hold { IfOk result (λ lanes. HoldStretch lanes (stretch_at 0) []) }
        ensures place { IfOk result (λ lanes. place_of lanes ≡ 0) }
    {
        Ok(AddedLanes {
            alloc,
            bank: AddedBank::new(alloc)?,
            begin: 0,
        })
    }
}

impl StretchLanes for AddedLanes {
    ghost use Rattle.std.specs.Prelude.{◌-◌, true};
    ghost use Rattle.sensitive_receiver.specs.Found.{CanBePutFrom};
    ghost use Rattle.stretch_reader.specs.EachHeard.{AreAllIn};
    ghost use Rattle.ring_receiver.specs.AddedOnRing.{IsAddedInOne};
    ghost use Rattle.ring_receiver.specs.HeldReceiver.{HoldStretch, StandsForStretch, place_of};

    ghost heard = { λ sensitive. AreAllIn IsAddedInOne };

    ghost holds = { HoldStretch };

    ghost listens = { StandsForStretch };

    ghost comes = { λ sensitive from. CanBePutFrom (from - 32) };

    ghost place = { place_of };

    ghost in_step = { λ lanes. Unit {0} };

    ghost sensitive = { λ lanes. true };

    ghost flags = { λ lanes. 0 };

    fn begin_at(&mut self, position: u64) -> Result<(), OutOfMemory> {
        self.bank = AddedBank::new(self.alloc)?;
        self.begin = position;
        Ok(())
    }

    fn hear(&mut self, samples: &[i16], items: &mut Vec<Candidate>) -> Result<(), OutOfMemory> {
        let heard = self.bank.feed(samples)?;
        add_moved(items, heard, self.begin)
    }

    /// What a lane hears it gives at once, so nothing is left.
    fn finish(&mut self, _items: &mut Vec<Candidate>) -> Result<(), OutOfMemory> {
        Ok(())
    }
}
