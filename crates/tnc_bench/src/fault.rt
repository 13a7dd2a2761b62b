//! Why `bench` does not end well.
ghost use Rattle.std.specs.Prelude.{◌≡◌};
ghost use Rattle.channel_bench.specs.declared.report.BenchFault.TheVariants.{Memory};
ghost use Rattle.tnc_bench.specs.declared.fault.CommandFault.TheVariants.{Run};

use channel_bench::BenchFault;
use thiserror::Error;
use tnc_base::OutOfMemory;

/// The faults of `bench`.
#[derive(Debug, Drop, Error)]
pub enum CommandFault {
    /// Something ended the run before it was over, or memory was wanted. Nothing was written.
    #[error("no run that is over")]
    Run(BenchFault),
    /// The output failed.
    #[error("the output failed")]
    Write,
}

impl From<BenchFault> for CommandFault {
    ghost from_gives = { λ fault result. result ≡ Run fault };

    fn from(fault: BenchFault) -> CommandFault {
        CommandFault::Run(fault)
    }
}

impl From<OutOfMemory> for CommandFault {
    ghost from_gives = { λ _ result. result ≡ Run Memory };

    fn from(_: OutOfMemory) -> CommandFault {
        CommandFault::Run(BenchFault::Memory)
    }
}
