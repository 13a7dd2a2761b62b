//! The command `record`: the last of the sound, until its input ends.
ghost use Rattle.std.specs.Prelude.{◌≡◌, ◌⊎◌, ◌≤◌, ◌<◌, ℕ, List, Some, length};
ghost use Rattle.tnc_base.specs.Faults.{HasRisen};
ghost use Rattle.tnc_forms.specs.Reading.{input_limit};
ghost use Rattle.tnc_main.specs.declared.status.Status.{Status};
ghost use Rattle.tnc_main.specs.EndTold.{IsEndTold};
ghost use Rattle.tnc_main.specs.RecordRuns.{Records, last_line, status_of_end, words_of};
ghost use Rattle.tnc_main.specs.Status.{code_of, IsLiveCode};

use crate::report::{TOO_LONG, told};
use crate::status::Status;
use std::alloc::Global;
use std::sync::Wait;
use std::thread::Threads;
use tnc_base::{Sink, Source};
use tnc_ports::Spawner;
use tnc_record::{RecordEnd, RecordWords};
use tnc_words::RecordOptions;

/// Records the sound until the input ends, tells how that ended, and answers the exit status. It may wait for the
/// input.
pub(crate) fn record<Rt: Threads + Wait + Sync, I: Source + Send, O: Sink, E: Sink, W: Spawner>(
    rt: &Rt,
    alloc: Global,
    words: RecordWords,
    input: &mut I,
    output: &mut O,
    report: &mut E,
    spawner: &mut W,
) -> u8
    requires { (1 ≤ words.keep) × (words.keep ≤ 17280000) }
    ensures recorded { (status : Status) × (result ≡ code_of status)
        × Records words status (I.told input.old) (I.told input.new) (O.told output.old) (O.told output.new)
        (E.told report.old) (E.told report.new) }

    // each status and its cause
    ensures own { IsLiveCode result }
    ensures faultless { result ≡ 0 → ((I.told input.new).faults ≡ (I.told input.old).faults)
        × ((O.told output.new).faults ≡ (O.told output.old).faults)
        × ((E.told report.new).faults ≡ (E.told report.old).faults) }
    ensures read_fault { result ≡ 4 → HasRisen (I.told input.old).faults (I.told input.new).faults }
    ensures write_fault { result ≡ 5
        → HasRisen (O.told output.old).faults (O.told output.new).faults
        ⊎ HasRisen (E.told report.old).faults (E.told report.new).faults }
    ensures no_others { result ≤ 5 }
    ensures complete { (octets : List ℕ) → (I.told input.old).left ≡ Some octets → length octets ≤ input_limit
        → ¬ HasRisen (I.told input.old).faults (I.told input.new).faults
        → ¬ HasRisen (O.told output.old).faults (O.told output.new).faults
        → ¬ HasRisen (E.told report.old).faults (E.told report.new).faults → (result ≡ 0) ⊎ (result ≡ 3) }
{
    let end = tnc_record::record(rt, alloc, words, input, output, report, spawner);
    tell_end(end, report).code()
}

/// The status of an end, with the line that explains it.
fn tell_end<E: Sink>(end: RecordEnd, report: &mut E) -> Status
    ensures { IsEndTold (last_line end) (status_of_end end) result (E.told report.old) (E.told report.new) }
{
    match end {
        RecordEnd::Done => Status::Done,
        RecordEnd::TooLong => told(report, TOO_LONG, Status::BadInput),
        RecordEnd::Memory => Status::Memory,
        RecordEnd::NoThread => Status::Memory,
        RecordEnd::ReadFault => Status::ReadFault,
        RecordEnd::WriteFault => Status::WriteFault,
    }
}

/// What a recording is asked for by its options.
pub(crate) fn record_words(options: RecordOptions) -> RecordWords
    ensures { result ≡ words_of options }
{
    RecordWords {
        keep: options.keep,
        sensitive: options.sensitive,
    }
}
