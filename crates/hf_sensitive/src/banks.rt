//! The nine banks, one after the other.

ghost use Rattle.std.specs.Prelude.{◌≡◌, ◌+◌, ◌<◌, ◌^◌, ℤ, List, [], ◌++◌, length, IfOk, OnOk};
ghost use Rattle.std.specs.List.{All};
ghost use Rattle.hf_tracking.specs.Heard.{places_in};
ghost use Rattle.hf_sensitive.specs.Found.{AreAddedAmong, CanBePutFrom, least_end};
ghost use Rattle.hf_sensitive.specs.HeldBanks.{AllStandFor, AreAt};

use crate::tracking_bank::TrackingBank;
use frame_merge::Candidate;
use hf_tracking::BANKS;
use std::alloc::Global;
use tnc_base::OutOfMemory;

/// The banks, which have taken nothing.
pub fn new_banks(alloc: Global) -> Result<Vec<TrackingBank>, OutOfMemory>
    ensures at { IfOk result (λ banks. AreAt 0 banks.items) }
    ensures stand_for { IfOk result (λ banks. AllStandFor banks.items []) }
{
    let mut banks = Vec::new(alloc);
    for number in 0..BANKS {
        banks.push(TrackingBank::new(alloc, number))?;
    }
    Ok(banks)
}

/// Gives each bank a block of samples after so many, and tells what their lanes hear in it.
pub fn feed_banks(
    alloc: Global,
    banks: &mut Vec<TrackingBank>,
    position: u64,
    block: &[i16],
) -> Result<Vec<Candidate>, OutOfMemory>
    requires at { AreAt position banks.old.items }
    requires room { position + length block.now < 2 ^ 48 }
    ensures at { OnOk result (AreAt (position + length block.now) banks.new.items) }
    ensures stand_for { OnOk result ((x : List ℤ) → AllStandFor banks.old.items x
        → AllStandFor banks.new.items (x ++ block.now)) }
    ensures found { IfOk result (λ found. (x : List ℤ) → AllStandFor banks.old.items x
        → AreAddedAmong (places_in (length x)) (places_in (length (x ++ block.now))) 32 59 (x ++ block.now) found.items) }
    ensures bounds { IfOk result (λ found. All (CanBePutFrom (least_end position)) found.items) }
{
    let mut found = Vec::new(alloc);
    for index in 0..BANKS {
        let bank = &mut banks[usize::from(index)];
        bank.feed(block, &mut found)?;
    }
    Ok(found)
}
