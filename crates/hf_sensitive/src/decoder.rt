//! The decoder: samples in blocks in, each frame that some of the 59 lanes hears in them once and in order out.

ghost use Rattle.hf_sensitive.specs.Hearing.{all_hf_hearing};

use crate::added_frame::LANES;
use crate::banks::{feed_banks, new_banks};
use crate::tracking_bank::TrackingBank;
use block_receiver::{Lanes, Receiver};
use frame_merge::Candidate;
use hf_modem::{HfBank, SAMPLES_AN_END, hear_block};
use std::alloc::Global;
use tnc_base::OutOfMemory;

/// How far after the last sample the added lanes hear, in fours of samples: no candidate to come ends lower.
pub const BEHIND: u64 = 17;

/// The 32 lanes of an [`HfBank`] and those of the nine banks.
#[derive(Drop)]
pub struct AllHfLanes {
    bank: HfBank,
    banks: Vec<TrackingBank>,
}

/// A [`Receiver`] of all 59 lanes. An item's end is a quarter of the place of the first sample after it, rounded down,
/// and its offset is the lane that heard it.
pub type HfSensitiveDecoder = Receiver<AllHfLanes>;

impl Lanes for AllHfLanes {
    ghost hearing = { all_hf_hearing };

    fn laws() {}

    fn count() -> u8 {
        LANES
    }

    fn settled(count: u64) -> u64 {
        (count / SAMPLES_AN_END).saturating_sub(BEHIND)
    }

    fn start(alloc: Global) -> Result<AllHfLanes, OutOfMemory> {
        Ok(AllHfLanes {
            bank: HfBank::new(alloc, 1)?,
            banks: new_banks(alloc)?,
        })
    }

    fn hear(
        &mut self,
        alloc: Global,
        position: u64,
        block: &[i16],
    ) -> Result<Vec<Candidate>, OutOfMemory> {
        let mut found = hear_block(alloc, &mut self.bank, block)?;
        let mut added = feed_banks(alloc, &mut self.banks, position, block)?;
        found.append(&mut added)?;
        Ok(found)
    }
}
