//! The program as one call: from the words of a command line, over streams that are handed in, to an exit status.
ghost use Rattle.std.specs.Prelude.{◌≡◌, ◌⊎◌, ◌<◌, ◌≤◌, ◌++◌, ℕ, false, List, Some, None, length, map};
ghost use Rattle.std.specs.Prelude.{string_bytes};
ghost use Rattle.tnc_base.specs.Faults.{HasRisen};
ghost use Rattle.tnc_base.specs.Streams.{WrotePart};
ghost use Rattle.clean_signal.specs.GoodTransmission.{frames_of};
ghost use Rattle.clean_signal.specs.NearSignal.{Received, transmissions_of};
ghost use Rattle.fx25_signal.specs.NearSignal.{ReceivedBlocks, frames_of as frames_in_blocks};
ghost use Rattle.fx25_signal.specs.Units.{SentUnit};
ghost use Rattle.key_port.specs.KeyLines.{KeyLine, is_open};
ghost use Rattle.tnc_words.specs.declared.command.DecodeWords.{DecodeWords};
ghost use Rattle.tnc_words.specs.declared.command.BenchOptions.{BenchOptions};
ghost use Rattle.tnc_words.specs.declared.command.LoopWords.{LoopWords};
ghost use Rattle.tnc_words.specs.declared.command.Receiving.{Receiving};
ghost use Rattle.tnc_words.specs.declared.command.CallOptions.{CallOptions};
ghost use Rattle.tnc_words.specs.declared.command.RecordOptions.{RecordOptions};
ghost use Rattle.tnc_words.specs.declared.command.PttOptions.{PttOptions};
ghost use Rattle.tnc_words.specs.declared.command.ServeOptions.{ServeOptions};
ghost use Rattle.tnc_words.specs.Commands.{Asks, IsBench, IsCall, IsLoop, IsRecord, IsServe};
ghost use Rattle.tnc_forms.specs.Reading.{input_limit};
ghost use Rattle.tnc_decode.specs.Audio.{samples_read};
ghost use Rattle.tnc_decode.specs.Modem.{modem_of};
ghost use Rattle.tnc_decode.specs.Printing.{print};
ghost use Rattle.channel_bench.specs.BenchRun.{IsOver};
ghost use Rattle.channel_bench.specs.KeepsOrder.{KeepsOrder};
ghost use Rattle.channel_bench.specs.Report.{Report};
ghost use Rattle.tnc_bench.specs.Reported.{report_text, words_of as bench_words};
ghost use Rattle.tnc_ports.specs.SampledRun.{outside_by};
ghost use Rattle.tnc_main.specs.declared.status.Status.{Status};
ghost use Rattle.tnc_main.specs.Calling.{RunsCall};
ghost use Rattle.tnc_main.specs.RecordRuns.{RunsRecord};
ghost use Rattle.tnc_main.specs.Clean.{CarriesUnits, IsNearButForStretches, IsNearlyClean};
ghost use Rattle.tnc_main.specs.Commands.{FindsNoQuiet, HeardAsMade, IsFaultless, IsSpent, ReadsNothing, Strays};
ghost use Rattle.tnc_main.specs.KeyedRuns.{RunsKeyed};
ghost use Rattle.tnc_main.specs.LiveCommands.{AskNoLive, AskNoPorts};
ghost use Rattle.tnc_main.specs.Parts.{WritesAtEnd};
ghost use Rattle.tnc_main.specs.Report.{bad_words_line};
ghost use Rattle.tnc_main.specs.Runs.{AskNothing, IsCaused, Job, Leaves, Tells, Writes};
ghost use Rattle.tnc_main.specs.Serving.{IsInWant, RunsLive};
ghost use Rattle.tnc_main.specs.Status.{code_of};

use crate::batch::run_batch;
use crate::live_run::run_live;
use host_ports::Ports;
use key_port::KeyPort;
use std::alloc::Global;
use std::net::Net;
use std::sync::Wait;
use std::thread::Threads;
use tnc_base::{Sink, Source};
use tnc_ports::{Live, Spawner};
use tnc_words::Command;

/// Does what `words`, those after the program's name, ask for, and answers the exit status:
///
/// | Status | What happened | What an operator does |
/// |---|---|---|
/// | 0 | The input was read to its end, and all was written. | Nothing. |
/// | 1 | The words ask for nothing. Nothing was read or written. | Corrects the command line. |
/// | 2 | The input breaks the rules of its form. The report names what is wrong, and where. | Corrects the input. |
/// | 3 | Memory ran out, and the output may be cut; or a live station could start no thread, and nothing was read. | Runs it again with more memory, or with fewer threads beside it. |
/// | 4 | The input failed. What had ended in what was read is written. | Looks at where it comes from. |
/// | 5 | The output or the report failed, and may be cut. | Looks at where it goes to. |
/// | 6 | A loop or a bench heard a frame that was not sent. The report names it. | Reports the seed: the receiver was fooled. |
/// | 7 | A frame of a bench that sets a link up or ends it found no quiet channel. The report names it. | Tries another seed. |
/// | 8 | A bench was not over in time. The report says after how many ticks. | Loses less, or adds less noise. |
/// | 10 | A live station could not open its ports. | Ends what listens there, or names other ports. |
/// | 11 | A call found no live station at its port. | Starts one, or names its port. |
/// | 12 | The live station or the called one refused a call. | Looks whether the called station can be heard. |
/// | 13 | The live station of a call was lost. | Looks at why it ended. |
/// | 14 | The live station of a call sent what is no message. | Names the port for AGWPE hosts. |
/// | 15 | A call was not over after its polls. | Allows more polls. |
///
/// A command that makes one text of its input is a `Job`, and the clauses that speak of a job say all of it: they are
/// those of [`run_batch`], which comes to an end in any case. `serve`, `record` and `call` are live commands and no
/// jobs. The clauses that name them speak of each alone; all other clauses hold of all commands, or say of which.
pub fn run<
    Rt: Threads + Wait + Net + Sync,
    I: Source + Send,
    O: Sink,
    E: Sink,
    N: Ports,
    W: Spawner,
    K: KeyPort<O>,
>(
    rt: &Rt,
    alloc: Global,
    words: &[String],
    input: &mut I,
    output: &mut O,
    report: &mut E,
    live: &mut Live<N, W, K>,
) -> u8
    // what a decode hears, what a bench tells, and what a live station, a recording and a call do
    ensures heard { (job : Job (map string_bytes words.now) (I.told input.old).left result) → (decode : DecodeWords)
        → (received : List Received) → (before : List ℕ) → job.command ≡ Command.Decode decode
        → IsNearlyClean (modem_of decode job.octets) (samples_read decode job.octets) received
        → (O.told output.old).written ≡ Some before
        → result ≡ 0
        → (O.told output.new).written ≡ Some (before ++ print decode.frames (frames_of (transmissions_of received))) }
    ensures heard_in_blocks { (job : Job (map string_bytes words.now) (I.told input.old).left result)
        → (decode : DecodeWords) → (units : List SentUnit) → (before : List ℕ)
        → job.command ≡ Command.Decode decode → decode.receiving ≡ Receiving.Fx25
        → CarriesUnits (samples_read decode job.octets) units
        → (O.told output.old).written ≡ Some before
        → result ≡ 0
        → (O.told output.new).written ≡ Some (before ++ print decode.frames (map (λ unit. unit.octets) units)) }
    ensures repaired { (job : Job (map string_bytes words.now) (I.told input.old).left result)
        → (decode : DecodeWords) → (received : List ReceivedBlocks) → (before : List ℕ)
        → job.command ≡ Command.Decode decode → decode.receiving ≡ Receiving.Fx25
        → IsNearButForStretches (samples_read decode job.octets) received
        → (O.told output.old).written ≡ Some before
        → result ≡ 0
        → (O.told output.new).written ≡ Some (before ++ print decode.frames (frames_in_blocks received)) }
    ensures benched { (bench : BenchOptions) → (before : List ℕ) → IsBench (map string_bytes words.now) bench
        → (O.told output.old).written ≡ Some before → result ≡ 0
        → (told : Report) × IsOver (bench_words bench) told × KeepsOrder (bench_words bench) told
        × ((O.told output.new).written ≡ Some (before ++ report_text told)) }
    ensures served { (options : ServeOptions) → IsServe (map string_bytes words.now) options
        → (status : Status) × (result ≡ code_of status)
        × RunsLive options live.old.seed status (I.told input.old) (I.told input.new)
        (outside_by N.told K.told O.told E.told live.old.ports live.old.key output.old report.old)
        (outside_by N.told K.told O.told E.told live.new.ports live.new.key output.new report.new) }

    ensures keyed { (options : ServeOptions) → (ptt : PttOptions) → (was : List KeyLine) → (out : List ℕ)
        → IsServe (map string_bytes words.now) options → options.ptt ≡ Some ptt
        → (K.told live.old.key).lines ≡ Some was → is_open was ≡ false → (O.told output.old).written ≡ Some out
        → (status : Status) × (result ≡ code_of status)
        × RunsKeyed options ptt live.old.seed was out status (I.told input.old) (I.told input.new)
        (outside_by N.told K.told O.told E.told live.old.ports live.old.key output.old report.old)
        (outside_by N.told K.told O.told E.told live.new.ports live.new.key output.new report.new) }
    ensures unkeyed { (options : ServeOptions) → IsServe (map string_bytes words.now) options → options.ptt ≡ None
        → K.told live.new.key ≡ K.told live.old.key }

    ensures recorded { (options : RecordOptions) → IsRecord (map string_bytes words.now) options
        → (status : Status) × (result ≡ code_of status)
        × RunsRecord options status (I.told input.old) (I.told input.new) (O.told output.old) (O.told output.new)
        (E.told report.old) (E.told report.new) }
    ensures called { (options : CallOptions) → (text before : List ℕ) → IsCall (map string_bytes words.now) options
        → (I.told input.old).left ≡ Some text → (O.told output.old).written ≡ Some before
        → (status : Status) × (result ≡ code_of status)
        × RunsCall options text before (O.told output.new).written
        (N.told live.old.ports)
        (N.told live.new.ports) status (E.told report.old) (E.told report.new) }

    // what the words may be: if they ask for nothing, nothing is touched but the report, and no command but a live one
    // has to do with ports or threads that may wait
    ensures bad_words { result ≡ 1 → AskNothing (map string_bytes words.now) }
    ensures refused { AskNothing (map string_bytes words.now) → (input.new ≡ input.old) × (output.new ≡ output.old)
        × ((result ≡ 1) ⊎ ((result ≡ 3) ⊎ (result ≡ 5))) }
    ensures live_alone { AskNoLive (map string_bytes words.now) → live.new ≡ live.old }
    ensures ports_alone { AskNoPorts (map string_bytes words.now) → live.new.ports ≡ live.old.ports }

    // what each command reads and writes
    ensures read { (job : Job (map string_bytes words.now) (I.told input.old).left result)
        → Leaves job.command job.octets job.status (I.told input.new).left }
    ensures written { (job : Job (map string_bytes words.now) (I.told input.old).left result) → (before : List ℕ)
        → (O.told output.old).written ≡ Some before → (text : List ℕ)
        × Writes job.command job.octets (I.told input.new).left job.status text
        × ((O.told output.new).written ≡ Some (before ++ text)) }
    ensures unwritten { (command : Command) → Asks (map string_bytes words.now) command → WritesAtEnd command
        → result ≡ 4 → output.new ≡ output.old }
    ensures too_long { (job : Job (map string_bytes words.now) (I.told input.old).left result)
        → WritesAtEnd job.command → input_limit < length job.octets → result ≡ 2 → output.new ≡ output.old }
    ensures unread { (command : Command) → Asks (map string_bytes words.now) command → ReadsNothing command
        → input.new ≡ input.old }
    ensures looped { (loop : LoopWords) → IsLoop (map string_bytes words.now) loop → result ≡ 0 → HeardAsMade loop }

    // each status and its cause
    ensures known { (status : Status) × (result ≡ code_of status) }
    ensures cause { (job : Job (map string_bytes words.now) (I.told input.old).left result)
        → IsCaused job.command job.octets job.status }
    ensures faultless { result ≡ 0 → ((I.told input.new).faults ≡ (I.told input.old).faults)
        × ((O.told output.new).faults ≡ (O.told output.old).faults)
        × ((E.told report.new).faults ≡ (E.told report.old).faults) }
    ensures read_fault { result ≡ 4 → HasRisen (I.told input.old).faults (I.told input.new).faults }
    ensures write_fault { result ≡ 5
        → HasRisen (O.told output.old).faults (O.told output.new).faults
        ⊎ HasRisen (E.told report.old).faults (E.told report.new).faults }
    ensures stray { result ≡ 6 → (command : Command) × Asks (map string_bytes words.now) command
        × ((frame : List ℕ) × Strays command frame) }
    ensures not_quiet { result ≡ 7 → (command : Command) × Asks (map string_bytes words.now) command
        × ((index : ℕ) × FindsNoQuiet command index) }
    ensures spent { result ≡ 8 → (command : Command) × Asks (map string_bytes words.now) command
        × ((ticks : ℕ) × IsSpent command ticks) }
    ensures no_thread { (options : ServeOptions) → IsServe (map string_bytes words.now) options → result ≡ 3
        → IsInWant options live.old.seed (W.faults live.old.spawner) (W.faults live.new.spawner)
        (I.told input.old) (I.told input.new)
        (outside_by N.told K.told O.told E.told live.old.ports live.old.key output.old report.old)
        (outside_by N.told K.told O.told E.told live.new.ports live.new.key output.new report.new) }
    ensures no_port { result ≡ 10 → (options : ServeOptions) × IsServe (map string_bytes words.now) options
        × HasRisen (N.told live.old.ports).faults (N.told live.new.ports).faults }
    ensures of_call { 11 ≤ result → (options : CallOptions) × IsCall (map string_bytes words.now) options }
    ensures no_host { result ≡ 11 → HasRisen (N.told live.old.ports).faults (N.told live.new.ports).faults }

    // what is told; a live command tells more while it runs
    ensures silent { AskNoLive (map string_bytes words.now) → (result ≡ 0) ⊎ ((result ≡ 3) ⊎ (result ≡ 4))
        → report.new ≡ report.old }
    ensures told { (job : Job (map string_bytes words.now) (I.told input.old).left result) → (before : List ℕ)
        → (E.told report.old).written ≡ Some before → (line : List ℕ) × Tells job.command job.octets job.status line
        × ((E.told report.new).written ≡ Some (before ++ line)) }
    ensures bad_words_told { (before : List ℕ) → AskNothing (map string_bytes words.now)
        → (E.told report.old).written ≡ Some before
        → (result ≡ 1 → (E.told report.new).written ≡ Some (before ++ bad_words_line))
        × (result ≡ 5 → WrotePart before bad_words_line (E.told report.new).written) }

    // completeness: good words, an input without a fault, and no fault of the outside
    ensures complete { (job : Job (map string_bytes words.now) (I.told input.old).left result)
        → IsFaultless job.command job.octets → ¬ HasRisen (I.told input.old).faults (I.told input.new).faults
        → ¬ HasRisen (O.told output.old).faults (O.told output.new).faults
        → ¬ HasRisen (E.told report.old).faults (E.told report.new).faults → (result ≡ 0) ⊎ (result ≡ 3) }
    ensures complete_served { (options : ServeOptions) → IsServe (map string_bytes words.now) options
        → (octets : List ℕ) → (I.told input.old).left ≡ Some octets → length octets ≤ input_limit
        → ¬ HasRisen (I.told input.old).faults (I.told input.new).faults
        → ¬ HasRisen (O.told output.old).faults (O.told output.new).faults
        → ¬ HasRisen (E.told report.old).faults (E.told report.new).faults
        → ¬ HasRisen (N.told live.old.ports).faults (N.told live.new.ports).faults → (result ≡ 0) ⊎ (result ≡ 3) }
    ensures complete_recorded { (options : RecordOptions) → IsRecord (map string_bytes words.now) options
        → (octets : List ℕ) → (I.told input.old).left ≡ Some octets → length octets ≤ input_limit
        → ¬ HasRisen (I.told input.old).faults (I.told input.new).faults
        → ¬ HasRisen (O.told output.old).faults (O.told output.new).faults
        → ¬ HasRisen (E.told report.old).faults (E.told report.new).faults → (result ≡ 0) ⊎ (result ≡ 3) }
{
    match run_batch(rt, alloc, words, input, output, report) {
        Ok(status) => status,
        Err(command) => run_live(rt, alloc, command, input, output, report, live),
    }
}
