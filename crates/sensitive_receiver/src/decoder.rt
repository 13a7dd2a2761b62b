//! The decoder: samples in blocks in, each frame that some of the 26 lanes hears in them once and in order out.

ghost use Rattle.std.specs.Prelude.{◌≡◌, ◌++◌, IfOk};
ghost use Rattle.std.specs.Thread.{IsSync};
ghost use Rattle.sensitive_receiver.specs.AllHearing.{hearing_of_all};

use crate::added_bank::AddedBank;
use crate::lanes::LANES;
use block_receiver::{Hearer, Lanes, Receiver};
use frame_merge::Candidate;
use slicer_bank::Bank;
use std::alloc::Global;
use std::thread::Threads;
use tnc_base::OutOfMemory;

/// How far after the last sample the added lanes hear: no candidate to come ends lower.
const BEHIND: u64 = 32;

/// The eight lanes of a [`Bank`] and those of an [`AddedBank`].
#[derive(Drop)]
pub struct AllLanes {
    bank: Bank,
    added: AddedBank,
}

/// A [`Receiver`] of all 26 lanes. An item's end is the first sample after its closing flag, and its offset is the lane
/// that heard it.
pub type SensitiveDecoder = Receiver<AllLanes>;

impl Lanes for AllLanes {
    ghost hearing = { hearing_of_all };

    fn laws() {}

    fn count() -> u8 {
        LANES
    }

    fn settled(count: u64) -> u64 {
        count.saturating_sub(BEHIND)
    }

    fn start(alloc: Global) -> Result<AllLanes, OutOfMemory> {
        Ok(AllLanes {
            bank: Bank::new(alloc)?,
            added: AddedBank::new(alloc)?,
        })
    }

    fn hear(
        &mut self,
        _alloc: Global,
        _position: u64,
        block: &[i16],
    ) -> Result<Vec<Candidate>, OutOfMemory> {
        let found = self.bank.feed(block)?;
        let added = self.added.feed(block)?;
        let all = join(found, added)?;
        Ok(all)
    }
}

/// Has all lanes on threads, as [`AddedBank::feed_beside`] does.
#[derive(Drop)]
pub struct AllOnThreads<'a, R: Threads + Sync> {
    /// What starts the threads.
    pub rt: &'a R,
}

impl<'a, R: Threads + Sync> Hearer<AllLanes> for AllOnThreads<'a, R> {
    ghost can_hear = { λ _. IsSync R.row };

    fn hear(
        &self,
        lanes: &mut AllLanes,
        _alloc: Global,
        _position: u64,
        block: &[i16],
    ) -> Result<Vec<Candidate>, OutOfMemory> {
        let (found, added) = lanes.added.feed_beside(self.rt, &mut lanes.bank, block)?;
        let all = join(found, added)?;
        Ok(all)
    }
}

/// The candidates of one list and then of the other.
fn join(first: Vec<Candidate>, second: Vec<Candidate>) -> Result<Vec<Candidate>, OutOfMemory>
    ensures { IfOk result (λ all. all.items ≡ first.items ++ second.items) }
{
    let mut all = first;
    let mut rest = second;
    all.append(&mut rest)?;
    Ok(all)
}
