//! The lanes of short wave, which share a reader of the ring.

ghost use Rattle.std.specs.Prelude.{◌≡◌, true, [], IfOk};
ghost use Rattle.hf_sensitive.specs.HeldBanks.{AllStandFor, AreAt};

use crate::hf_placing::{add_moved, hear_each};
use frame_merge::Candidate;
use hf_modem::HfBank;
use hf_sensitive::{TrackingBank, feed_banks, new_banks};
use std::alloc::Global;
use stretch_reader::StretchLanes;
use tnc_base::OutOfMemory;

/// The lanes of short wave. All hear the samples since the last gap.
#[derive(Drop)]
pub struct HfLanes {
    pub(crate) alloc: Global,
    /// Whether the added lanes listen, too.
    pub(crate) sensitive: bool,
    /// The 32 lanes.
    pub(crate) bank: HfBank,
    /// The banks of the added lanes, or none if these do not listen.
    pub(crate) banks: Vec<TrackingBank>,
    /// The position of the first sample.
    pub(crate) begin: u64,
}

impl HfLanes {
    ghost use Rattle.std.specs.Prelude.{◌≤◌};
    ghost use Rattle.slicer_bank.specs.Stretches.{stretch_at};
    ghost use Rattle.live_receiver.specs.HeldHf.{BanksFollow, HoldStretch, place_of};

    /// Lanes that have heard nothing and listen for so many flags in a row, 1 to 8; with the added ones if they are to be
    /// sensitive.
    pub(crate) fn new(alloc: Global, flags: u8, sensitive: bool) -> Result<HfLanes, OutOfMemory>
        requires { (1 ≤ flags) × (flags ≤ 8) }
        ensures hold { IfOk result (λ lanes. HoldStretch lanes (stretch_at 0) []) }
        ensures place { IfOk result (λ lanes. place_of lanes ≡ 0) }
        ensures step { IfOk result BanksFollow }
        ensures flags { IfOk result (λ lanes. lanes.bank.flags ≡ flags) }
        ensures sensitive { IfOk result (λ lanes. lanes.sensitive ≡ sensitive) }
    {
        Ok(HfLanes {
            alloc,
            sensitive,
            bank: HfBank::new(alloc, flags)?,
            banks: banks_of(alloc, sensitive)?,
            begin: 0,
        })
    }
}

impl StretchLanes for HfLanes {
    ghost use Rattle.stretch_reader.specs.EachHeard.{AreAllIn};
    ghost use Rattle.live_receiver.specs.HeardOnShortWave.{IsHeardInOne};
    ghost use Rattle.live_receiver.specs.HeldHf.{BanksFollow, CanCome, HoldStretch, StandsForStretch, place_of};

    ghost heard = { λ sensitive. AreAllIn (IsHeardInOne sensitive) };

    ghost holds = { HoldStretch };

    ghost listens = { StandsForStretch };

    ghost comes = { CanCome };

    ghost place = { place_of };

    ghost in_step = { BanksFollow };

    ghost sensitive = { λ lanes. lanes.sensitive };

    ghost flags = { λ lanes. lanes.bank.flags };

    fn begin_at(&mut self, position: u64) -> Result<(), OutOfMemory> {
        self.bank.restart()?;
        self.banks = banks_of(self.alloc, self.sensitive)?;
        self.begin = position;
        Ok(())
    }

    fn hear(&mut self, samples: &[i16], items: &mut Vec<Candidate>) -> Result<(), OutOfMemory> {
        let position = self.bank.position();
        hear_each(&mut self.bank, self.begin, samples, items)?;
        if !self.sensitive {
            return Ok(());
        }
        let added = feed_banks(self.alloc, &mut self.banks, position, samples)?;
        add_moved(items, added, self.begin)
    }

    /// What a lane hears it gives at once, so nothing is left.
    fn finish(&mut self, _items: &mut Vec<Candidate>) -> Result<(), OutOfMemory> {
        Ok(())
    }
}

/// The banks of added lanes that have heard nothing, or none if these are not to listen.
fn banks_of(alloc: Global, sensitive: bool) -> Result<Vec<TrackingBank>, OutOfMemory>
    ensures at { IfOk result (λ banks. sensitive ≡ true → AreAt 0 banks.items) }
    ensures stand_for { IfOk result (λ banks. sensitive ≡ true → AllStandFor banks.items []) }
{
    if sensitive {
        return new_banks(alloc);
    }
    Ok(Vec::new(alloc))
}
