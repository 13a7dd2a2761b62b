//! The word bench: from its options to a run of two stations, and to the text that tells of it.
ghost use Rattle.std.specs.Prelude.{◌≡◌, ◌≢◌, ◌++◌, Err, List, ℕ, Some, OnOk, OnErr, IsErrOf};
ghost use Rattle.tnc_base.specs.Faults.{HasRisen};
ghost use Rattle.tnc_base.specs.Streams.{WrotePart};
ghost use Rattle.channel_bench.specs.BenchRun.{IsFaultOf};
ghost use Rattle.channel_bench.specs.declared.report.BenchFault.{BenchFault};
ghost use Rattle.channel_bench.specs.Words.{AreInRange};
ghost use Rattle.tnc_bench.specs.Reported.{IsReportOf, words_of};

use crate::fault::CommandFault;
use crate::reporting::report_text;
use crate::words::bench_words;
use std::alloc::Global;
use tnc_base::Sink;
use tnc_words::BenchOptions;

/// Runs the two stations that the options ask for, and writes the report of the run when it is over. If something ends
/// the run before, that is the fault, and nothing is written.
pub fn bench<O: Sink>(
    alloc: Global,
    options: BenchOptions,
    output: &mut O,
) -> Result<(), CommandFault>
    requires { AreInRange (words_of options) }
    // what is written
    ensures done { (before : List ℕ) → (O.told output.old).written ≡ Some before
        → OnOk result ((text : List ℕ) × IsReportOf options text
        × ((O.told output.new).written ≡ Some (before ++ text))) }
    ensures faultless { OnOk result ((O.told output.new).faults ≡ (O.told output.old).faults) }

    // what ended the run before it was over
    ensures fault { (fault : BenchFault) → IsErrOf result (CommandFault.Run fault)
        → IsFaultOf (words_of options) fault }
    ensures unwritten { (fault : BenchFault) → IsErrOf result (CommandFault.Run fault) → output.new ≡ output.old }

    // a write that failed, and what stands after it
    ensures write { IsErrOf result CommandFault.Write → HasRisen (O.told output.old).faults (O.told output.new).faults }
    ensures cut { (before : List ℕ) → (O.told output.old).written ≡ Some before → IsErrOf result CommandFault.Write
        → (text : List ℕ) × IsReportOf options text × WrotePart before text (O.told output.new).written }
{
    let report = channel_bench::bench(alloc, bench_words(options))?;
    let text = report_text(alloc, &report)?;
    match output.write(text.as_bytes()) {
        Ok(()) => Ok(()),
        Err(_) => Err(CommandFault::Write),
    }
}
