//! The decoder: samples in blocks in, each frame that is heard in them once and in order out.

ghost use Rattle.std.specs.Thread.{IsSync};
ghost use Rattle.slicer_bank.specs.Hearing.{hearing_of_eight};

use crate::bank::Bank;
use crate::gate::OpenGate;
use crate::merging::OFFSETS;
use block_receiver::{Hearer, Lanes, Receiver};
use frame_merge::Candidate;
use std::alloc::Global;
use std::thread::Threads;
use tnc_base::OutOfMemory;

/// A [`Receiver`] of the eight lanes of a [`Bank`]. It keeps no samples but the last seven.
pub type Decoder = Receiver<Bank>;

impl Lanes for Bank {
    ghost hearing = { hearing_of_eight };

    fn laws() {}

    fn count() -> u8 {
        OFFSETS
    }

    fn settled(count: u64) -> u64 {
        count
    }

    fn start(alloc: Global) -> Result<Bank, OutOfMemory> {
        Bank::new(alloc)
    }

    fn hear(
        &mut self,
        _alloc: Global,
        _position: u64,
        block: &[i16],
    ) -> Result<Vec<Candidate>, OutOfMemory> {
        let found = self.feed(block)?;
        Ok(found)
    }
}

/// Has the lanes of a [`Bank`] on threads, as [`Bank::feed_threads`] does.
#[derive(Drop)]
pub struct OnThreads<'a, R: Threads + Sync> {
    /// What starts the threads.
    pub rt: &'a R,
}

impl<'a, R: Threads + Sync> Hearer<Bank> for OnThreads<'a, R> {
    ghost can_hear = { λ _. IsSync R.row };

    fn hear(
        &self,
        lanes: &mut Bank,
        _alloc: Global,
        _position: u64,
        block: &[i16],
    ) -> Result<Vec<Candidate>, OutOfMemory> {
        let found = lanes.feed_threads(self.rt, block, &OpenGate)?;
        Ok(found)
    }
}
