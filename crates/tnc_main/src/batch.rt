//! The commands that make one text of their input: from the words of a command line to an exit status.
ghost use Rattle.std.specs.Prelude.{◌≡◌, ◌⊎◌, ◌<◌, ◌≤◌, ◌++◌, IfErr, IfOk, IsErrAnd, OnErr, Err, ℕ, List, Some, length};
ghost use Rattle.std.specs.Prelude.{map, string_bytes};
ghost use Rattle.tnc_base.specs.Faults.{HasRisen};
ghost use Rattle.tnc_base.specs.Streams.{WrotePart};
ghost use Rattle.clean_signal.specs.GoodTransmission.{frames_of};
ghost use Rattle.clean_signal.specs.NearSignal.{Received, transmissions_of};
ghost use Rattle.fx25_signal.specs.NearSignal.{ReceivedBlocks, frames_of as frames_in_blocks};
ghost use Rattle.fx25_signal.specs.Units.{SentUnit};
ghost use Rattle.tnc_words.specs.declared.command.DecodeWords.{DecodeWords};
ghost use Rattle.tnc_words.specs.declared.command.BenchOptions.{BenchOptions};
ghost use Rattle.tnc_words.specs.declared.command.LoopWords.{LoopWords};
ghost use Rattle.tnc_words.specs.declared.command.Receiving.{Receiving};
ghost use Rattle.tnc_words.specs.Commands.{Asks, IsBench, IsLoop};
ghost use Rattle.tnc_forms.specs.Reading.{input_limit};
ghost use Rattle.tnc_decode.specs.Audio.{samples_read};
ghost use Rattle.tnc_decode.specs.Modem.{modem_of};
ghost use Rattle.tnc_decode.specs.Printing.{print};
ghost use Rattle.channel_bench.specs.BenchRun.{IsOver};
ghost use Rattle.channel_bench.specs.KeepsOrder.{KeepsOrder};
ghost use Rattle.channel_bench.specs.Report.{Report};
ghost use Rattle.tnc_bench.specs.Reported.{report_text, words_of as bench_words};
ghost use Rattle.tnc_main.specs.declared.live_command.LiveCommand.{LiveCommand};
ghost use Rattle.tnc_main.specs.declared.status.Status.{Status};
ghost use Rattle.tnc_main.specs.declared.stop.Stop.{Stop};
ghost use Rattle.tnc_main.specs.Clean.{CarriesUnits, IsNearButForStretches, IsNearlyClean};
ghost use Rattle.tnc_main.specs.Commands.{FindsNoQuiet, HeardAsMade, IsFaultless, IsSpent, ReadsNothing, Strays};
ghost use Rattle.tnc_main.specs.LiveCommands.{command_of};
ghost use Rattle.tnc_main.specs.Parts.{WritesAtEnd};
ghost use Rattle.tnc_main.specs.Report.{bad_words_line, line_of};
ghost use Rattle.tnc_main.specs.Runs.{AskNothing, IsCaused, Job, Leaves, Tells, Writes};
ghost use Rattle.tnc_main.specs.Status.{code_of};
ghost use Rattle.tnc_main.specs.Stops.{EndsAs, IsTold};

use crate::live_command::LiveCommand;
use crate::performing::perform;
use crate::report::{BAD_WORDS, of_input, of_no_quiet, of_spent, of_stray, told};
use crate::status::Status;
use crate::stop::Stop;
use std::alloc::Global;
use std::thread::Threads;
use tnc_base::{OutOfMemory, Sink, Source};
use tnc_words::{Command, WordsFault, read_words};

/// Does what `words` ask for, unless that is a live command, and answers the exit status. A live command is handed
/// back, and then nothing was done but to read the words.
///
/// It may start threads but has no leave to wait, so it comes to an end: this is proved for each of its loops and for
/// what its threads do.
pub fn run_batch<Rt: Threads + Sync, I: Source, O: Sink, E: Sink>(
    rt: &Rt,
    alloc: Global,
    words: &[String],
    input: &mut I,
    output: &mut O,
    report: &mut E,
) -> Result<u8, LiveCommand>
    // what the words may be
    ensures live { IfErr result (λ live. Asks (map string_bytes words.now) (command_of live)) }
    ensures untouched { OnErr result ((input.new ≡ input.old) × (output.new ≡ output.old)
        × (report.new ≡ report.old)) }
    ensures not_begun { (live : LiveCommand) → Asks (map string_bytes words.now) (command_of live)
        → IfOk result (λ code. (code ≡ 3) × (input.new ≡ input.old) × (output.new ≡ output.old)
        × (report.new ≡ report.old)) }
    ensures bad_words { IfOk result (λ code. code ≡ 1 → AskNothing (map string_bytes words.now)) }
    ensures refused { AskNothing (map string_bytes words.now)
        → IfOk result (λ code. (input.new ≡ input.old) × (output.new ≡ output.old)
        × ((code ≡ 1) ⊎ ((code ≡ 3) ⊎ (code ≡ 5)))) }

    // what a decode hears, and what a bench tells
    ensures heard { IfOk result (λ code. (job : Job (map string_bytes words.now) (I.told input.old).left code)
        → (decode : DecodeWords) → (received : List Received) → (before : List ℕ)
        → job.command ≡ Command.Decode decode
        → IsNearlyClean (modem_of decode job.octets) (samples_read decode job.octets) received
        → (O.told output.old).written ≡ Some before
        → code ≡ 0
        → (O.told output.new).written ≡ Some (before ++ print decode.frames (frames_of (transmissions_of received)))) }
    ensures heard_in_blocks { IfOk result (λ code. (job : Job (map string_bytes words.now) (I.told input.old).left code)
        → (decode : DecodeWords) → (units : List SentUnit) → (before : List ℕ)
        → job.command ≡ Command.Decode decode → decode.receiving ≡ Receiving.Fx25
        → CarriesUnits (samples_read decode job.octets) units
        → (O.told output.old).written ≡ Some before
        → code ≡ 0
        → (O.told output.new).written ≡ Some (before ++ print decode.frames (map (λ unit. unit.octets) units))) }
    ensures repaired { IfOk result (λ code. (job : Job (map string_bytes words.now) (I.told input.old).left code)
        → (decode : DecodeWords) → (received : List ReceivedBlocks) → (before : List ℕ)
        → job.command ≡ Command.Decode decode → decode.receiving ≡ Receiving.Fx25
        → IsNearButForStretches (samples_read decode job.octets) received
        → (O.told output.old).written ≡ Some before
        → code ≡ 0
        → (O.told output.new).written ≡ Some (before ++ print decode.frames (frames_in_blocks received))) }
    ensures benched { IfOk result (λ code. (bench : BenchOptions) → (before : List ℕ)
        → IsBench (map string_bytes words.now) bench → (O.told output.old).written ≡ Some before → code ≡ 0
        → (told : Report) × IsOver (bench_words bench) told × KeepsOrder (bench_words bench) told
        × ((O.told output.new).written ≡ Some (before ++ report_text told))) }

    // what each command reads and writes
    ensures read { IfOk result (λ code. (job : Job (map string_bytes words.now) (I.told input.old).left code)
        → Leaves job.command job.octets job.status (I.told input.new).left) }
    ensures written { IfOk result (λ code. (job : Job (map string_bytes words.now) (I.told input.old).left code)
        → (before : List ℕ) → (O.told output.old).written ≡ Some before → (text : List ℕ)
        × Writes job.command job.octets (I.told input.new).left job.status text
        × ((O.told output.new).written ≡ Some (before ++ text))) }
    ensures unwritten { (command : Command) → Asks (map string_bytes words.now) command → WritesAtEnd command
        → IfOk result (λ code. code ≡ 4 → output.new ≡ output.old) }
    ensures too_long { IfOk result (λ code. (job : Job (map string_bytes words.now) (I.told input.old).left code)
        → WritesAtEnd job.command → input_limit < length job.octets → code ≡ 2 → output.new ≡ output.old) }
    ensures unread { (command : Command) → Asks (map string_bytes words.now) command → ReadsNothing command
        → input.new ≡ input.old }
    ensures looped { (loop : LoopWords) → IsLoop (map string_bytes words.now) loop
        → IfOk result (λ code. code ≡ 0 → HeardAsMade loop) }

    // each status and its cause
    ensures known { IfOk result (λ code. (status : Status) × (code ≡ code_of status)) }
    ensures cause { IfOk result (λ code. (job : Job (map string_bytes words.now) (I.told input.old).left code)
        → IsCaused job.command job.octets job.status) }
    ensures faultless { IfOk result (λ code. code ≡ 0 → ((I.told input.new).faults ≡ (I.told input.old).faults)
        × ((O.told output.new).faults ≡ (O.told output.old).faults)
        × ((E.told report.new).faults ≡ (E.told report.old).faults)) }
    ensures read_fault { IfOk result (λ code. code ≡ 4 → HasRisen (I.told input.old).faults (I.told input.new).faults) }
    ensures write_fault { IfOk result (λ code. code ≡ 5
        → HasRisen (O.told output.old).faults (O.told output.new).faults
        ⊎ HasRisen (E.told report.old).faults (E.told report.new).faults) }
    ensures stray { IfOk result (λ code. code ≡ 6 → (command : Command) × Asks (map string_bytes words.now) command
        × ((frame : List ℕ) × Strays command frame)) }
    ensures not_quiet { IfOk result (λ code. code ≡ 7 → (command : Command)
        × Asks (map string_bytes words.now) command × ((index : ℕ) × FindsNoQuiet command index)) }
    ensures spent { IfOk result (λ code. code ≡ 8 → (command : Command) × Asks (map string_bytes words.now) command
        × ((ticks : ℕ) × IsSpent command ticks)) }
    ensures no_others { IfOk result (λ code. code ≤ 8) }

    // what is told
    ensures silent { IfOk result (λ code. (code ≡ 0) ⊎ ((code ≡ 3) ⊎ (code ≡ 4)) → report.new ≡ report.old) }
    ensures told { IfOk result (λ code. (job : Job (map string_bytes words.now) (I.told input.old).left code)
        → (before : List ℕ) → (E.told report.old).written ≡ Some before → (line : List ℕ)
        × Tells job.command job.octets job.status line × ((E.told report.new).written ≡ Some (before ++ line))) }
    ensures bad_words_told { (before : List ℕ) → AskNothing (map string_bytes words.now)
        → (E.told report.old).written ≡ Some before
        → IfOk result (λ code. (code ≡ 1 → (E.told report.new).written ≡ Some (before ++ bad_words_line))
        × (code ≡ 5 → WrotePart before bad_words_line (E.told report.new).written)) }

    // completeness: good words, an input without a fault, and no fault of the outside
    ensures complete { IfOk result (λ code. (job : Job (map string_bytes words.now) (I.told input.old).left code)
        → IsFaultless job.command job.octets → ¬ HasRisen (I.told input.old).faults (I.told input.new).faults
        → ¬ HasRisen (O.told output.old).faults (O.told output.new).faults
        → ¬ HasRisen (E.told report.old).faults (E.told report.new).faults → (code ≡ 0) ⊎ (code ≡ 3)) }
{
    match read_words(alloc, words) {
        Ok(Command::Serve(options)) => Err(LiveCommand::Serve(options)),
        Ok(Command::Record(options)) => Err(LiveCommand::Record(options)),
        Ok(Command::Call(options)) => Err(LiveCommand::Call(options)),
        Ok(command) => {
            let end = perform(rt, alloc, command, input, output);
            Ok(explained(alloc, end, report).code())
        }
        Err(WordsFault::Refused) => Ok(told(report, BAD_WORDS, Status::BadWords).code()),
        Err(WordsFault::Memory) => Ok(Status::Memory.code()),
    }
}

/// The exit status of a command that has ended, with the line that explains it.
fn explained<E: Sink>(alloc: Global, end: Result<(), Stop>, report: &mut E) -> Status
    ensures ends { EndsAs end result }
    ensures fault { result ≡ Status.WriteFault → (end ≡ Err Stop.Write)
        ⊎ (IsErrAnd end IsTold × HasRisen (E.told report.old).faults (E.told report.new).faults) }

    // what is told
    ensures silent { (result ≡ Status.Done) ⊎ ((result ≡ Status.Memory) ⊎ (result ≡ Status.ReadFault))
        → report.new ≡ report.old }
    ensures told { (before : List ℕ) → (E.told report.old).written ≡ Some before
        → (result ≡ Status.BadInput) ⊎ ((result ≡ Status.Stray)
        ⊎ ((result ≡ Status.NotQuiet) ⊎ (result ≡ Status.Spent)))
        → IfErr end (λ stop. (E.told report.new).written ≡ Some (before ++ line_of stop)) }
    ensures cut { (before : List ℕ) → (E.told report.old).written ≡ Some before
        → result ≡ Status.WriteFault → IfErr end (λ stop. WrotePart before (line_of stop) (E.told report.new).written) }
{
    match end {
        Ok(()) => Status::Done,
        Err(Stop::Input(fault)) => match of_input(alloc, fault) {
            Ok(line) => told(report, &line, Status::BadInput),
            Err(OutOfMemory) => Status::Memory,
        },
        Err(Stop::Stray(octets)) => match of_stray(alloc, octets.as_slice()) {
            Ok(line) => told(report, &line, Status::Stray),
            Err(OutOfMemory) => Status::Memory,
        },
        Err(Stop::NotQuiet(index)) => match of_no_quiet(alloc, index) {
            Ok(line) => told(report, &line, Status::NotQuiet),
            Err(OutOfMemory) => Status::Memory,
        },
        Err(Stop::Spent(ticks)) => match of_spent(alloc, ticks) {
            Ok(line) => told(report, &line, Status::Spent),
            Err(OutOfMemory) => Status::Memory,
        },
        Err(Stop::Memory) => Status::Memory,
        Err(Stop::Read) => Status::ReadFault,
        Err(Stop::Write) => Status::WriteFault,
    }
}
