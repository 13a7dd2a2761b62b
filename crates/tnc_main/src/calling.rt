//! The command `call`: one connected call through a live station, until it is over.
ghost use Rattle.std.specs.Prelude.{◌≡◌, ◌≢◌, ◌⊎◌, ℕ, List, Some};
ghost use Rattle.tnc_base.specs.Faults.{HasRisen};
ghost use Rattle.tnc_main.specs.declared.status.Status.{Status};
ghost use Rattle.tnc_main.specs.Calling.{Calls, line_of_end, status_of_end, words_of};
ghost use Rattle.tnc_main.specs.EndTold.{IsEndToldOrWanted};
ghost use Rattle.tnc_main.specs.Status.{code_of, IsLiveCode};

use crate::report::{
    HOST_LOST, LONG_TEXT, NO_HOST, REFUSED, of_broken_host, of_got, of_long_call, told,
};
use crate::status::Status;
use host_ports::Ports;
use std::alloc::Global;
use std::net::Net;
use tnc_base::{OutOfMemory, Sink, Source};
use tnc_call::{CallEnd, CallWords};
use tnc_words::CallOptions;

/// Makes the call that the words ask for, tells how it ended, and answers the exit status.
pub(crate) fn call<Rt: Net, I: Source, O: Sink, E: Sink, N: Ports>(
    rt: &Rt,
    alloc: Global,
    words: CallWords,
    input: &mut I,
    output: &mut O,
    report: &mut E,
    ports: &mut N,
) -> u8
    ensures called { (text before : List ℕ) → (I.told input.old).left ≡ Some text
        → (O.told output.old).written ≡ Some before
        → (status : Status) × (result ≡ code_of status)
        × Calls words text before (O.told output.new).written (N.told ports.old) (N.told ports.new) status
        (E.told report.old) (E.told report.new) }

    // each status and its cause
    ensures known { (status : Status) × (result ≡ code_of status) }
    ensures own { IsLiveCode result }
    ensures faultless { result ≡ 0 → ((I.told input.new).faults ≡ (I.told input.old).faults)
        × ((O.told output.new).faults ≡ (O.told output.old).faults)
        × ((E.told report.new).faults ≡ (E.told report.old).faults) }
    ensures read_fault { result ≡ 4 → HasRisen (I.told input.old).faults (I.told input.new).faults }
    ensures write_fault { result ≡ 5
        → HasRisen (O.told output.old).faults (O.told output.new).faults
        ⊎ HasRisen (E.told report.old).faults (E.told report.new).faults }
    ensures listens_not { result ≢ 10 }
    ensures no_host { result ≡ 11 → HasRisen (N.told ports.old).faults (N.told ports.new).faults }
{
    let end = tnc_call::call(rt, alloc, words, input, output, ports);
    tell_end(alloc, end, report).code()
}

/// The status of an end, with the line that explains it.
fn tell_end<E: Sink>(alloc: Global, end: CallEnd, report: &mut E) -> Status
    ensures { IsEndToldOrWanted (line_of_end end) (status_of_end end) result (E.told report.old) (E.told report.new) }
{
    match end {
        CallEnd::Done { got } => match of_got(alloc, got) {
            Ok(line) => told(report, &line, Status::Done),
            Err(OutOfMemory) => Status::Memory,
        },
        CallEnd::TooLong => told(report, LONG_TEXT, Status::BadInput),
        CallEnd::Memory => Status::Memory,
        CallEnd::ReadFault => Status::ReadFault,
        CallEnd::WriteFault => Status::WriteFault,
        CallEnd::NoHost => told(report, NO_HOST, Status::NoHost),
        CallEnd::Refused => told(report, REFUSED, Status::Refused),
        CallEnd::HostLost => told(report, HOST_LOST, Status::HostLost),
        CallEnd::Broken { len } => match of_broken_host(alloc, len) {
            Ok(line) => told(report, &line, Status::HostBroke),
            Err(OutOfMemory) => Status::Memory,
        },
        CallEnd::GaveUp { polls } => match of_long_call(alloc, polls) {
            Ok(line) => told(report, &line, Status::GaveUp),
            Err(OutOfMemory) => Status::Memory,
        },
    }
}

/// What a call is asked for by its options.
pub(crate) fn call_words(options: CallOptions) -> CallWords
    ensures { result ≡ words_of options }
{
    CallWords {
        agw: options.agw,
        own: options.own,
        remote: options.remote,
        via: options.via,
        expect: options.expect,
        polls: options.polls,
    }
}
