//! What stops a command before its end.
ghost use Rattle.std.specs.Prelude.{◌≡◌};
ghost use Rattle.tnc_main.specs.Stops.{end_of, end_of_bench, end_of_loop, stop_of_run};

use channel_bench::BenchFault;
use tnc_base::Octets;
use tnc_bench::CommandFault;
use tnc_forms::{Fault, InputFault};
use tnc_loop::LoopFault;

/// Why a command that makes one text of its input does not end well. Refused words are none of these, since then
/// nothing runs.
#[derive(Debug, Drop)]
pub(crate) enum Stop {
    /// The input breaks the rules of its form.
    Input(InputFault),
    /// A loop or a bench heard a frame with these octets that was not sent.
    Stray(Octets),
    /// The frame of this number, which sets a link of a bench up or ends it, found no quiet channel.
    NotQuiet(u64),
    /// A bench was not over after so many ticks.
    Spent(u64),
    /// Memory was wanted and not given.
    Memory,
    /// The input failed.
    Read,
    /// The output failed.
    Write,
}

/// The end of a command that reads and writes.
pub(crate) fn ended(end: Result<(), Fault>) -> Result<(), Stop>
    ensures { result ≡ end_of end }
{
    match end {
        Ok(()) => Ok(()),
        Err(Fault::Input(fault)) => Err(Stop::Input(fault)),
        Err(Fault::Memory) => Err(Stop::Memory),
        Err(Fault::Read) => Err(Stop::Read),
        Err(Fault::Write) => Err(Stop::Write),
    }
}

/// The end of `loop`.
pub(crate) fn ended_loop(end: Result<(), LoopFault>) -> Result<(), Stop>
    ensures { result ≡ end_of_loop end }
{
    match end {
        Ok(()) => Ok(()),
        Err(LoopFault::Stray { octets }) => Err(Stop::Stray(octets)),
        Err(LoopFault::Memory) => Err(Stop::Memory),
        Err(LoopFault::Write) => Err(Stop::Write),
    }
}

/// The end of `bench`.
pub(crate) fn ended_bench(end: Result<(), CommandFault>) -> Result<(), Stop>
    ensures { result ≡ end_of_bench end }
{
    match end {
        Ok(()) => Ok(()),
        Err(CommandFault::Run(fault)) => Err(ended_run(fault)),
        Err(CommandFault::Write) => Err(Stop::Write),
    }
}

/// What ended the run of a bench before it was over.
fn ended_run(fault: BenchFault) -> Stop
    ensures { result ≡ stop_of_run fault }
{
    match fault {
        BenchFault::Stray { octets } => Stop::Stray(octets),
        BenchFault::NotQuiet { index } => Stop::NotQuiet(index),
        BenchFault::Spent { ticks } => Stop::Spent(ticks),
        BenchFault::Memory => Stop::Memory,
    }
}
