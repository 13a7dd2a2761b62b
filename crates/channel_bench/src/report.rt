//! What the bench answers.

use std::alloc::AllocError;
use std::marker::Model;
use thiserror::Error;
use tnc_base::{Octets, OutOfMemory};

/// A set-up of one side.
#[derive(Debug, Drop)]
pub struct SetUp {
    /// What its host program gave.
    pub given: Octets,
    /// What its host program got.
    pub got: Octets,
}

/// What came to pass in a run that is over.
#[derive(Debug, Drop)]
pub struct BenchReport {
    /// How many ticks it took.
    pub ticks: u64,
    /// How many transmissions began.
    pub transmissions: u64,
    /// How many of them were lost.
    pub lost: u64,
    /// The set-ups of A, in order.
    pub a: Vec<SetUp>,
    /// The set-ups of B, in order.
    pub b: Vec<SetUp>,
}

impl Model for BenchReport {
    ghost use Rattle.channel_bench.specs.Report.{Report};

    ghost Value = { Report };

    ghost view = { λ r. record {
      ticks = r.ticks;
      transmissions = r.transmissions;
      lost = r.lost;
      a = r.a.items;
      b = r.b.items;
    } };
}

/// Why a run is not over.
#[derive(Debug, Drop, Error)]
pub enum BenchFault {
    /// A frame of these octets was heard that matches none that was sent.
    #[error("a stray frame")]
    Stray { octets: Octets },
    /// SABM, SABME or DISC was queued, as the frame of this number, while an earlier one of its station was in flight,
    /// or an answer to one.
    #[error("frame {index} found no quiet channel")]
    NotQuiet { index: u64 },
    /// The run was not over after so many ticks.
    #[error("not over after {ticks} ticks")]
    Spent { ticks: u64 },
    /// Want of memory.
    #[error("out of memory")]
    Memory,
}

impl From<OutOfMemory> for BenchFault {
    ghost use Rattle.std.specs.Prelude.{◌≡◌};
    ghost use Rattle.channel_bench.specs.declared.report.BenchFault.TheVariants.{Memory};

    ghost from_gives = { λ _ fault. fault ≡ Memory };

    fn from(_: OutOfMemory) -> BenchFault {
        BenchFault::Memory
    }
}

impl From<AllocError> for BenchFault {
    ghost use Rattle.std.specs.Prelude.{◌≡◌};
    ghost use Rattle.channel_bench.specs.declared.report.BenchFault.TheVariants.{Memory};

    ghost from_gives = { λ _ fault. fault ≡ Memory };

    fn from(_: AllocError) -> BenchFault {
        BenchFault::Memory
    }
}
