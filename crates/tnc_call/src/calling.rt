//! A call from its text to its end.
ghost use Rattle.std.specs.Prelude.{◌≡◌, ◌≢◌, ◌≤◌, ◌<◌, ℕ, List, Some, length, IfOk, IfErr, IsErrOf};
ghost use Rattle.tnc_base.specs.Faults.{HasRisen};
ghost use Rattle.agwpe_client.specs.CallRun.{CallPlan};
ghost use Rattle.tnc_call.specs.CallEnding.{IsCalled, plan_of};
ghost use Rattle.tnc_call.specs.CallInput.{text_limit, IsReadingEnd, IsTalkEnd};
ghost use Rattle.tnc_call.specs.HeldTalk.{HasBegun, HasTalked};

use crate::call_end::CallEnd;
use crate::call_words::CallWords;
use crate::reading::read_text;
use crate::talk::Talk;
use host_ports::Ports;
use std::alloc::Global;
use std::net::Net;
use tnc_base::{Sink, Source};

/// Makes one call. The input is read to its end, and then the port is dialed. Each turn offers the host what waits for
/// it and polls once, for at most 100 ms, and prints what comes of the remote station as it comes. The connection to
/// the host is shut at every end. Returns after at most so many polls.
pub fn call<R: Net, I: Source, O: Sink, N: Ports>(
    rt: &R,
    alloc: Global,
    words: CallWords,
    input: &mut I,
    output: &mut O,
    ports: &mut N,
) -> CallEnd
    ensures called { (text before : List ℕ) → (I.told input.old).left ≡ Some text
        → (O.told output.old).written ≡ Some before
        → IsCalled words text before (O.told output.new).written (N.told ports.old) (N.told ports.new) result }
    ensures read { result ≡ CallEnd.ReadFault → HasRisen (I.told input.old).faults (I.told input.new).faults }
    ensures no_read { result ≢ CallEnd.ReadFault → (I.told input.new).faults ≡ (I.told input.old).faults }
    ensures write { result ≡ CallEnd.WriteFault → HasRisen (O.told output.old).faults (O.told output.new).faults }
    ensures no_write { result ≢ CallEnd.WriteFault → (O.told output.new).faults ≡ (O.told output.old).faults }
    ensures no_host { result ≡ CallEnd.NoHost → HasRisen (N.told ports.old).faults (N.told ports.new).faults }
{
    let most = words.polls;
    let agw = words.agw;
    let mut talk = match begin(alloc, words, input) {
        Ok(talk) => talk,
        Err(end) => return end,
    };
    let Ok(id) = ports.dial(rt, agw) else {
        return CallEnd::NoHost;
    };
    let end = converse(rt, &mut talk, id, most, output, ports);
    ports.shut(id);
    end
}

/// Reads the text, and makes the call ready to begin.
fn begin<I: Source>(alloc: Global, words: CallWords, input: &mut I) -> Result<Talk, CallEnd>
    ensures begun { (text : List ℕ) → (I.told input.old).left ≡ Some text
        → IfOk result (λ talk. HasBegun (plan_of words text) talk × (length text ≤ text_limit)) }
    ensures within { IfOk result (λ talk. talk.taken ≤ length talk.sent.items) }
    ensures too_long { (text : List ℕ) → (I.told input.old).left ≡ Some text
        → IsErrOf result CallEnd.TooLong → text_limit < length text }
    ensures only { IfErr result IsReadingEnd }
    ensures read { IsErrOf result CallEnd.ReadFault → HasRisen (I.told input.old).faults (I.told input.new).faults }
    ensures no_read { ¬ IsErrOf result CallEnd.ReadFault → (I.told input.new).faults ≡ (I.told input.old).faults }
{
    let text = read_text(alloc, input)?;
    match Talk::new(alloc, words, &text) {
        Ok(talk) => Ok(talk),
        Err(_) => Err(CallEnd::Memory),
    }
}

/// Makes turns until the call ends, but at most so many.
fn converse<R: Net, O: Sink, N: Ports>(
    rt: &R,
    talk: &mut Talk,
    id: u32,
    most: u32,
    output: &mut O,
    ports: &mut N,
) -> CallEnd
    requires within { talk.old.taken ≤ length talk.old.sent.items }
    ensures talked { (plan : CallPlan) (before : List ℕ) → HasBegun plan talk.old
        → (O.told output.old).written ≡ Some before → HasTalked plan most id before (O.told output.new).written
        (N.told ports.old)
        (N.told ports.new) result }
    ensures only { IsTalkEnd result }
    ensures write { result ≡ CallEnd.WriteFault → HasRisen (O.told output.old).faults (O.told output.new).faults }
    ensures no_write { result ≢ CallEnd.WriteFault → (O.told output.new).faults ≡ (O.told output.old).faults }
{
    for _turn in 0..most {
        if let Some(end) = talk.turn(rt, id, output, ports) {
            return end;
        }
    }
    CallEnd::GaveUp { polls: most }
}
