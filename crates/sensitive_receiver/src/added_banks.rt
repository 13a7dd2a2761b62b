//! The five banks of added lanes, which read each line of tones.

ghost use Rattle.std.specs.Prelude.{◌≡◌, ◌+◌, ◌<◌, ◌^◌, ◌++◌, ℤ, List, length, IfOk, OnOk};
ghost use Rattle.std.specs.List.{All};
ghost use Rattle.std.specs.Thread.{IsSync};
ghost use Rattle.slicer_bank.specs.Feeding.{FeedsBlock};
ghost use Rattle.slicer_bank.specs.Merging.{AllPast, CanBePut};
ghost use Rattle.sensitive_receiver.specs.FiveBanks.{AllReadLine, AreAt, HaveRead, HaveRoom};

use crate::fast_bank::FastBank;
use crate::fixed_bank::FixedBank;
use crate::list_bank::ListBank;
use crate::reading::{read_fast_beside, read_lists};
use frame_merge::Candidate;
use slicer_bank::Bank;
use std::alloc::Global;
use std::marker::Model;
use std::thread::{Threads, join_mut};
use tnc_base::OutOfMemory;
use tone_tracking::{PlaceTones, Reach};

/// One bank for the lanes at fixed offsets, one for the lanes on the slow clock of each list, and one for the lane on the fast
/// clock: `new`, then `read` for each line of tones. After want of memory no clause says what it gives.
#[derive(Drop)]
pub struct AddedBanks {
    fixed: FixedBank,
    near: ListBank,
    far: ListBank,
    fast: FastBank,
    alone: ListBank,
}

impl Model for AddedBanks {
    ghost use Rattle.sensitive_receiver.specs.FiveBanks.{HeldBanks};

    ghost Value = { HeldBanks };

    ghost view = { λ s. record {
      fixed = s.fixed;
      near = s.near;
      far = s.far;
      fast = s.fast;
      alone = s.alone;
    } };
}

impl AddedBanks {
    /// Banks whose lanes have read nothing.
    pub(crate) fn new(alloc: Global) -> Result<AddedBanks, OutOfMemory>
        ensures at { IfOk result (λ banks. AreAt 0 banks) }
        ensures read { IfOk result (λ banks. (x : List ℤ) → HaveRead banks x) }
    {
        Ok(AddedBanks {
            fixed: FixedBank::new(alloc)?,
            near: ListBank::new(alloc, Reach::Near)?,
            far: ListBank::new(alloc, Reach::Far)?,
            fast: FastBank::new(alloc),
            alone: ListBank::new(alloc, Reach::Alone)?,
        })
    }

    /// Has the lanes of each bank read a line, and gives what they hear, bank by bank.
    pub(crate) fn read(&mut self, line: &[PlaceTones]) -> Result<Vec<Candidate>, OutOfMemory>
        requires room { HaveRoom (length line.now) self.old }
        ensures { IfOk result (λ found. AllReadLine self.old self.new line.now found.items) }
    {
        let fixed = self.fixed.feed(line)?;
        let near = self.near.feed(line)?;
        let far = self.far.feed(line)?;
        let fast = self.fast.feed(line)?;
        let alone = self.alone.feed(line)?;
        join_heard(fixed, near, far, fast, alone)
    }

    /// Does what [`AddedBanks::read`] does, and [`Bank::feed`] for eight plain lanes, with each bank on a thread of its own. The
    /// order of the joins is the one that measured best.
    pub(crate) fn read_beside<R: Threads + Sync>(
        &mut self,
        rt: &R,
        line: &[PlaceTones],
        bank: &mut Bank,
        block: &[i16],
    ) -> Result<(Vec<Candidate>, Vec<Candidate>), OutOfMemory>
        requires room { HaveRoom (length line.now) self.old }
        requires bank { bank.old.position + length block.now < 2 ^ 48 }
        ensures eight { IfOk result (λ heard. FeedsBlock bank.old bank.new block.now heard.0.items) }
        ensures eight_bounds { IfOk result (λ heard. All CanBePut heard.0.items) }
        ensures eight_past { IfOk result (λ heard. AllPast bank.old.position heard.0.items) }
        ensures eight_position { OnOk result (bank.new.position ≡ bank.old.position + length block.now) }
        ensures added { IfOk result (λ heard. AllReadLine self.old self.new line.now heard.1.items) }
    {
        let (fixed, near) = (&mut self.fixed, &mut self.near);
        let (far, fast, alone) = (&mut self.far, &mut self.fast, &mut self.alone);
        let ((eight_heard, (fast_heard, alone_heard)), (far_heard, (fixed_heard, near_heard))) =
            join_mut(
                rt,
                &mut ||
                    requires { IsSync R.row × (fast.now.ring.place + length line.now < 2 ^ 48) × (alone.now.ring.place + length line.now < 2 ^ 48) × (bank.now.position + length block.now < 2 ^ 48) }
                { read_fast_beside(rt, line, fast, alone, bank, block) },
                &mut ||
                    requires { IsSync R.row × (far.now.ring.place + length line.now < 2 ^ 48) × (fixed.now.place + length line.now < 2 ^ 48) × (near.now.ring.place + length line.now < 2 ^ 48) }
                { read_lists(rt, line, far, fixed, near) },
            );
        let found = eight_heard?;
        let added = join_heard(
            fixed_heard?,
            near_heard?,
            far_heard?,
            fast_heard?,
            alone_heard?,
        )?;
        Ok((found, added))
    }
}

/// What the banks heard, bank by bank.
fn join_heard(
    fixed: Vec<Candidate>,
    mut near: Vec<Candidate>,
    mut far: Vec<Candidate>,
    mut fast: Vec<Candidate>,
    mut alone: Vec<Candidate>,
) -> Result<Vec<Candidate>, OutOfMemory>
    ensures { IfOk result (λ found. found.items ≡ (((fixed.items ++ near.items) ++ far.items) ++ fast.items)
        ++ alone.items) }
{
    let mut found = fixed;
    found.append(&mut near)?;
    found.append(&mut far)?;
    found.append(&mut fast)?;
    found.append(&mut alone)?;
    Ok(found)
}
