//! How the slots of a line are decided: one after another, or on threads.

ghost use Rattle.std.specs.Prelude.{◌≡◌, ℕ, ◌<◌, ◌≤◌, length, unsigned_abs, slice_index_or, ⊤};
ghost use Rattle.std.specs.List.{All};
ghost use Rattle.std.specs.Thread.{IsSync};
ghost use Rattle.tone_tracking.specs.Slots.{Decides, Fits, HeldSlot};

use crate::slot_tracker::SlotTracker;
use std::thread;
use std::thread::Threads;

/// How many threads share the slots.
const THREADS: usize = 4;

/// A way to decide the eight slots.
pub(crate) trait Deciding {
    /// What it takes to go this way.
    ghost can: { Self → Type 0 };

    /// Has each slot decide its places among levels.
    fn decide(&self, levels: &[i32], slots: &mut [SlotTracker])
        requires can { can self.now }
        requires levels { All (λ level. unsigned_abs level ≤ 262144) levels.now }
        requires slots { length slots.old ≡ 8 }
        requires fits { All (Fits (length levels.now)) slots.old }
        ensures slots { length slots.new ≡ 8 }
        ensures decided { (slot : ℕ) (d : HeldSlot) → slot < 8
            → Decides levels.now (slice_index_or slots.old slot d) (slice_index_or slots.new slot d) };
}

/// One slot after another.
#[derive(Drop)]
pub(crate) struct InTurn;

impl Deciding for InTurn {
    ghost can = { λ _. ⊤ };

    fn decide(&self, levels: &[i32], slots: &mut [SlotTracker]) {
        for index in 0..8 {
            let slot = &mut slots[index];
            slot.decide(levels);
        }
    }
}

/// The slots shared out over threads.
#[derive(Drop)]
pub(crate) struct OnThreads<'a, R> {
    pub(crate) rt: &'a R,
}

impl<R: Threads + Sync> Deciding for OnThreads<'_, R> {
    // The threads share the runtime.
    ghost can = { λ _. IsSync R.row };

    fn decide(&self, levels: &[i32], slots: &mut [SlotTracker]) {
        thread::for_each_mut(
            self.rt,
            slots,
            THREADS,
            &|_, slot: &mut SlotTracker|
                requires { All (λ level. unsigned_abs level ≤ 262144) levels.now × Fits (length levels.now) slot.old }
                ensures { Decides levels.entry.now slot.old slot.new }
            { slot.decide(levels) },
        );
    }
}
