//! The live commands: from one with its options to an exit status.
ghost use Rattle.std.specs.Prelude.{◌≡◌, ◌⊎◌, ◌≤◌, ℕ, List, Some, length};
ghost use Rattle.tnc_base.specs.Faults.{HasRisen};
ghost use Rattle.tnc_words.specs.declared.command.CallOptions.{CallOptions};
ghost use Rattle.tnc_words.specs.declared.command.RecordOptions.{RecordOptions};
ghost use Rattle.tnc_words.specs.declared.command.ServeOptions.{ServeOptions};
ghost use Rattle.tnc_forms.specs.Reading.{input_limit};
ghost use Rattle.tnc_ports.specs.SampledRun.{outside_by};
ghost use Rattle.tnc_main.specs.declared.status.Status.{Status};
ghost use Rattle.tnc_main.specs.Calling.{Calls, words_of as call_words_of};
ghost use Rattle.tnc_main.specs.RecordRuns.{Records, words_of as record_words_of};
ghost use Rattle.tnc_main.specs.LiveCommands.{CanRunLive};
ghost use Rattle.tnc_main.specs.Serving.{IsServedInWant, Serves, words_of};
ghost use Rattle.tnc_main.specs.Status.{code_of, IsLiveCode};

use crate::calling::{call, call_words};
use crate::live_command::LiveCommand;
use crate::recording::{record, record_words};
use crate::serving::{serve, serve_words};
use host_ports::Ports;
use key_port::KeyPort;
use std::alloc::Global;
use std::net::Net;
use std::sync::Wait;
use std::thread::Threads;
use tnc_base::{Sink, Source};
use tnc_ports::{Live, Spawner};

/// Does a live command, and answers the exit status. It may wait for the input.
pub(crate) fn run_live<
    Rt: Threads + Wait + Net + Sync,
    I: Source + Send,
    O: Sink,
    E: Sink,
    N: Ports,
    W: Spawner,
    K: KeyPort<O>,
>(
    rt: &Rt,
    alloc: Global,
    command: LiveCommand,
    input: &mut I,
    output: &mut O,
    report: &mut E,
    live: &mut Live<N, W, K>,
) -> u8
    requires can_run { CanRunLive command }
    ensures served { (options : ServeOptions) → command ≡ LiveCommand.Serve options
        → (status : Status) × (result ≡ code_of status)
        × Serves (words_of options live.old.seed) status (I.told input.old) (I.told input.new)
        (outside_by N.told K.told O.told E.told live.old.ports live.old.key output.old report.old)
        (outside_by N.told K.told O.told E.told live.new.ports live.new.key output.new report.new) }

    ensures recorded { (options : RecordOptions) → command ≡ LiveCommand.Record options
        → (status : Status) × (result ≡ code_of status)
        × Records (record_words_of options) status (I.told input.old) (I.told input.new)
        (O.told output.old) (O.told output.new) (E.told report.old) (E.told report.new) }
    ensures no_ports { (options : RecordOptions) → command ≡ LiveCommand.Record options
        → live.new.ports ≡ live.old.ports }
    ensures called { (options : CallOptions) → (text before : List ℕ) → command ≡ LiveCommand.Call options
        → (I.told input.old).left ≡ Some text → (O.told output.old).written ≡ Some before
        → (status : Status) × (result ≡ code_of status)
        × Calls (call_words_of options) text before (O.told output.new).written
        (N.told live.old.ports)
        (N.told live.new.ports) status (E.told report.old) (E.told report.new) }

    // each status and its cause
    ensures known { (status : Status) × (result ≡ code_of status) }
    ensures own { IsLiveCode result }
    ensures faultless { result ≡ 0 → ((I.told input.new).faults ≡ (I.told input.old).faults)
        × ((O.told output.new).faults ≡ (O.told output.old).faults)
        × ((E.told report.new).faults ≡ (E.told report.old).faults) }
    ensures read_fault { result ≡ 4 → HasRisen (I.told input.old).faults (I.told input.new).faults }
    ensures write_fault { result ≡ 5
        → HasRisen (O.told output.old).faults (O.told output.new).faults
        ⊎ HasRisen (E.told report.old).faults (E.told report.new).faults }
    ensures want { (options : ServeOptions) → command ≡ LiveCommand.Serve options → result ≡ 3
        → IsServedInWant (words_of options live.old.seed) (W.faults live.old.spawner) (W.faults live.new.spawner)
        (I.told input.old) (I.told input.new)
        (outside_by N.told K.told O.told E.told live.old.ports live.old.key output.old report.old)
        (outside_by N.told K.told O.told E.told live.new.ports live.new.key output.new report.new) }
    ensures no_port { result ≡ 10 → (options : ServeOptions) × (command ≡ LiveCommand.Serve options)
        × HasRisen (N.told live.old.ports).faults (N.told live.new.ports).faults }
    ensures of_call { 11 ≤ result → (options : CallOptions) × (command ≡ LiveCommand.Call options) }
    ensures no_host { result ≡ 11 → HasRisen (N.told live.old.ports).faults (N.told live.new.ports).faults }

    // completeness: an input that is not too long, and no fault of the outside
    ensures complete_recorded { (options : RecordOptions) → command ≡ LiveCommand.Record options
        → (octets : List ℕ) → (I.told input.old).left ≡ Some octets → length octets ≤ input_limit
        → ¬ HasRisen (I.told input.old).faults (I.told input.new).faults
        → ¬ HasRisen (O.told output.old).faults (O.told output.new).faults
        → ¬ HasRisen (E.told report.old).faults (E.told report.new).faults → (result ≡ 0) ⊎ (result ≡ 3) }
    ensures complete_served { (options : ServeOptions) → command ≡ LiveCommand.Serve options
        → (octets : List ℕ) → (I.told input.old).left ≡ Some octets → length octets ≤ input_limit
        → ¬ HasRisen (I.told input.old).faults (I.told input.new).faults
        → ¬ HasRisen (O.told output.old).faults (O.told output.new).faults
        → ¬ HasRisen (E.told report.old).faults (E.told report.new).faults
        → ¬ HasRisen (N.told live.old.ports).faults (N.told live.new.ports).faults → (result ≡ 0) ⊎ (result ≡ 3) }
{
    match command {
        LiveCommand::Serve(options) => {
            let words = serve_words(options, live.seed);
            serve(rt, alloc, words, input, output, report, live)
        }
        LiveCommand::Record(options) => {
            record(
                rt,
                alloc,
                record_words(options),
                input,
                output,
                report,
                &mut live.spawner,
            )
        }
        LiveCommand::Call(options) => {
            call(
                rt,
                alloc,
                call_words(options),
                input,
                output,
                report,
                &mut live.ports,
            )
        }
    }
}
