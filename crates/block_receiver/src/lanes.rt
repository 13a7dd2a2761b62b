//! What hears frames in samples: lanes of any kind, and ways to have them hear a block.

ghost use Rattle.std.specs.Prelude.{◌≡◌, ℕ, ◌+◌, ◌<◌, ◌≤◌, ◌^◌, ℤ, List, [], ◌++◌, length, IfOk, OnOk, ⊤};
ghost use Rattle.std.specs.List.{All};
ghost use Rattle.block_receiver.specs.Hearing.{Hearing, IsHearing, HearsBlock, CanBePutFrom};

use frame_merge::Candidate;
use std::alloc::Global;
use tnc_base::OutOfMemory;

/// Lanes that a [`Receiver`](crate::Receiver) gives blocks of samples: `start`, and then `hear` for each block. After
/// want of memory they are of no more use.
pub trait Lanes: Drop {
    /// What the lanes hear, and how soon it is settled.
    ghost hearing: { Hearing Self };

    /// Does nothing. Its contract is what every kind of lanes obeys.
    fn laws()
        ensures { IsHearing hearing };

    /// How many lanes there are.
    fn count() -> u8
        ensures { result ≡ hearing.lanes };

    /// The position below which what is heard of so many samples is settled.
    fn settled(count: u64) -> u64
        ensures { result ≡ hearing.settled count };

    /// Lanes that have taken nothing.
    fn start(alloc: Global) -> Result<Self, OutOfMemory>
        ensures at { IfOk result (λ lanes. hearing.IsAt lanes 0) }
        ensures taken { IfOk result (λ lanes. hearing.HaveTaken lanes []) };

    /// Takes a block of samples after so many, and gives the candidates that it adds, in any order.
    fn hear(
        &mut self,
        alloc: Global,
        position: u64,
        block: &[i16],
    ) -> Result<Vec<Candidate>, OutOfMemory>
        requires at { hearing.IsAt self.old position }
        requires room { position + length block.now < 2 ^ 48 }
        ensures at { OnOk result (hearing.IsAt self.new (position + length block.now)) }
        ensures heard { IfOk result (λ found. HearsBlock hearing self.old self.new block.now found.items) }
        ensures bounds { IfOk result (λ found. All (CanBePutFrom hearing.lanes (hearing.settled position))
            found.items) };
}

/// A way to have lanes hear a block, as on threads.
pub trait Hearer<L: Lanes> {
    /// What it asks for.
    ghost can_hear: { Self → Type 0 };

    /// Does what [`Lanes::hear`] does.
    fn hear(
        &self,
        lanes: &mut L,
        alloc: Global,
        position: u64,
        block: &[i16],
    ) -> Result<Vec<Candidate>, OutOfMemory>
        requires can { can_hear self.now }
        requires at { L.hearing.IsAt lanes.old position }
        requires room { position + length block.now < 2 ^ 48 }
        ensures at { OnOk result (L.hearing.IsAt lanes.new (position + length block.now)) }
        ensures heard { IfOk result (λ found. HearsBlock L.hearing lanes.old lanes.new block.now found.items) }
        ensures bounds { IfOk result (λ found. All (CanBePutFrom L.hearing.lanes (L.hearing.settled position))
            found.items) };
}

/// The lanes hear a block one after another.
#[derive(Clone, Copy)]
pub struct InTurn;

impl<L: Lanes> Hearer<L> for InTurn {
    ghost can_hear = { λ _. ⊤ };

    fn hear(
        &self,
        lanes: &mut L,
        alloc: Global,
        position: u64,
        block: &[i16],
    ) -> Result<Vec<Candidate>, OutOfMemory> {
        lanes.hear(alloc, position, block)
    }
}
