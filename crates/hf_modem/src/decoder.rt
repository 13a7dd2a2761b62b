//! The decoder: samples in blocks in, each frame that is heard in them once and in order out.

ghost use Rattle.hf_modem.specs.Hearing.{hf_hearing};

use crate::bank::{HfBank, SAMPLES_AN_END};
use crate::block_hearing::hear_block;
use block_receiver::{Lanes, Receiver};
use frame_merge::Candidate;
use std::alloc::Global;
use tnc_base::OutOfMemory;

/// The offsets of a bit, each with a lane of its own.
pub const OFFSETS: u8 = 32;

/// A [`Receiver`] of the 32 lanes of an [`HfBank`]. An item's end is a quarter of the place of the first sample after
/// it, rounded down. The decoder keeps no samples but the last 32.
pub type HfDecoder = Receiver<HfBank>;

impl Lanes for HfBank {
    ghost hearing = { hf_hearing };

    fn laws() {}

    fn count() -> u8 {
        OFFSETS
    }

    fn settled(count: u64) -> u64 {
        count / SAMPLES_AN_END
    }

    fn start(alloc: Global) -> Result<HfBank, OutOfMemory> {
        HfBank::new(alloc, 1)
    }

    fn hear(
        &mut self,
        alloc: Global,
        _position: u64,
        block: &[i16],
    ) -> Result<Vec<Candidate>, OutOfMemory> {
        let found = hear_block(alloc, self, block)?;
        Ok(found)
    }
}
