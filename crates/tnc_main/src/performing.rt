//! A command that makes one text of its input, done.
ghost use Rattle.std.specs.Prelude.{◌≡◌, ◌+◌, ◌++◌, ◌⊎◌, List, ℕ, Some, None, [], Err, drop, IfErr, OnOk, IsErrOf};
ghost use Rattle.tnc_base.specs.Faults.{HasRisen};
ghost use Rattle.tnc_words.specs.declared.command.LoopWords.{LoopWords};
ghost use Rattle.tnc_forms.specs.declared.fault.InputFault.{InputFault};
ghost use Rattle.tnc_forms.specs.Reading.{input_limit};
ghost use Rattle.tnc_main.specs.Commands.{HeardAsMade, Reads, ReadsNothing, fault_of};
ghost use Rattle.tnc_main.specs.Parts.{WritesAtEnd};
ghost use Rattle.tnc_main.specs.Runs.{Writes};
ghost use Rattle.tnc_main.specs.Stops.{CanRun, IsStopOfRun, status_of};

use crate::printing::print_text;
use crate::stop::{Stop, ended, ended_bench, ended_loop};
use std::alloc::Global;
use std::thread::Threads;
use tnc_base::{Sink, Source};
use tnc_bench::bench;
use tnc_decode::decode;
use tnc_encode::encode;
use tnc_forms::InputFault;
use tnc_loop::loop_back;
use tnc_show::show;
use tnc_words::{Command, help_text, version_line};

/// Does what a command asks for that is not live.
pub(crate) fn perform<R: Threads + Sync, I: Source, O: Sink>(
    rt: &R,
    alloc: Global,
    command: Command,
    input: &mut I,
    output: &mut O,
) -> Result<(), Stop>
    requires { CanRun command }
    ensures not_live { CanRun command }

    // what is read and written
    ensures end { (octets : List ℕ) → Reads command (I.told input.old).left octets
        → OnOk result (Reads command (I.told input.new).left []) }
    ensures stops { (octets : List ℕ) → Reads command (I.told input.old).left octets
        → IsErrOf result (Stop.Input InputFault.TooLong)
        → Reads command (I.told input.new).left (drop (input_limit + 1) octets) }
    ensures unread { ReadsNothing command → input.new ≡ input.old }
    ensures written { (octets before : List ℕ) → Reads command (I.told input.old).left octets
        → (O.told output.old).written ≡ Some before
        → (text : List ℕ) × Writes command octets (I.told input.new).left (status_of result) text
        × ((O.told output.new).written ≡ Some (before ++ text)) }
    ensures unwritten { WritesAtEnd command → (result ≡ Err (Stop.Input InputFault.TooLong)) ⊎ (result ≡ Err Stop.Read)
        → output.new ≡ output.old }
    ensures heard_as_made { (words : LoopWords) → command ≡ Command.Loop words → OnOk result (HeardAsMade words) }

    // each end and its cause
    ensures good { (octets : List ℕ) → Reads command (I.told input.old).left octets
        → OnOk result (fault_of command octets ≡ None) }
    ensures faultless { OnOk result
        (((I.told input.new).faults ≡ (I.told input.old).faults)
        × ((O.told output.new).faults ≡ (O.told output.old).faults)) }
    ensures bad { (octets : List ℕ) → (fault : InputFault) → Reads command (I.told input.old).left octets
        → IsErrOf result (Stop.Input fault) → fault_of command octets ≡ Some fault }
    ensures sent { IfErr result (IsStopOfRun command) }
    ensures read { IsErrOf result Stop.Read → HasRisen (I.told input.old).faults (I.told input.new).faults }
    ensures write { IsErrOf result Stop.Write → HasRisen (O.told output.old).faults (O.told output.new).faults }
{
    match command {
        Command::Decode(words) => ended(decode(rt, alloc, words, input, output)),
        Command::Encode(words) => ended(encode(alloc, words, input, output)),
        Command::Show(words) => ended(show(alloc, words, input, output)),
        Command::Loop(words) => ended_loop(loop_back(rt, alloc, words, output)),
        Command::Bench(options) => ended_bench(bench(alloc, options, output)),
        Command::Serve(_) => unreachable!(),
        Command::Record(_) => unreachable!(),
        Command::Call(_) => unreachable!(),
        Command::Help(topic) => print_text(output, help_text(topic)),
        Command::Version => print_text(output, version_line()),
    }
}
