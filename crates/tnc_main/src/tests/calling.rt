//! `call`: a call over a live station that a script plays.
use super::script::Script;
use super::{NEVER, Outcome, assert_ended, input_of, output_of, split};
use crate::program::run;
use std::alloc::Global;
use std::net::Net;
use std::sync::Wait;
use std::test::Fail;
use std::thread::Threads;

/// The words of each call.
const WORDS: &str = "call --agw 8000 --from N7LEM --to NJ7P";

/// The field of the calling station.
const OWN: &[u8] = b"N7LEM\0\0\0\0\0";

/// That of the called station.
const REMOTE: &[u8] = b"NJ7P\0\0\0\0\0\0";

/// A message of the live station: its kind, the length that its header tells, and its body.
type Message<'a> = (u8, u32, &'a [u8]);

/// The own call is registered.
const REGISTERED: Message<'static> = (b'X', 1, b"\x01");

/// It is not.
const NOT_REGISTERED: Message<'static> = (b'X', 1, b"\x00");

/// The call is answered.
const CONNECTED: Message<'static> = (b'C', 0, b"");

/// The called station sends two octets.
const HI: Message<'static> = (b'D', 2, b"hi");

/// It hangs up, or does not answer the call.
const DISCONNECTED: Message<'static> = (b'd', 0, b"");

/// A call that succeeds.
const WHOLE: &[Message<'static>] = &[REGISTERED, CONNECTED, HI, DISCONNECTED];

/// Appends a message. The reply to a registration names the own call, all others come of the called station.
fn push_message(octets: &mut Vec<u8>, (kind, len, body): Message<'_>) -> Result<(), Fail> {
    let (from, to) = if kind == b'X' {
        (OWN, REMOTE)
    } else {
        (REMOTE, OWN)
    };
    octets.extend_from_slice(&[0, 0, 0, 0, kind, 0, 0, 0])?;
    octets.extend_from_slice(from)?;
    octets.extend_from_slice(to)?;
    octets.extend_from_slice(&len.to_le_bytes())?;
    octets.extend_from_slice(&[0; 4])?;
    octets.extend_from_slice(body)?;
    Ok(())
}

/// What the live station brings, a piece of so many octets a poll.
fn script_of(alloc: Global, messages: &[Message<'_>], piece: usize) -> Result<Script, Fail> {
    let mut octets = Vec::new(alloc);
    for message in messages {
        push_message(&mut octets, *message)?;
    }
    let mut script = Script::new(alloc);
    for piece in octets.chunks(piece.max(1)) {
        script.brings(piece)?;
    }
    Ok(script)
}

/// What comes of a call with the input `abc`. The numbers are those of the read, the write, the report and the call of
/// the ports that fail.
fn run_call<R: Threads + Wait + Net + Sync>(
    rt: &R,
    alloc: Global,
    more: &str,
    script: Script,
    [read, write, told, call]: [u64; 4],
) -> Result<Outcome, Fail> {
    let words = format!(in alloc; "{WORDS} {more}")?;
    let given = split(alloc, &words)?;
    let mut input = input_of(alloc, b"abc", read)?;
    let mut output = output_of(alloc, 200, write)?;
    let mut report = output_of(alloc, 200, told)?;
    let mut live = script.failing(call)?;
    let status = run(
        rt,
        alloc,
        &given,
        &mut input,
        &mut output,
        &mut report,
        &mut *live,
    );
    Ok(Outcome {
        status,
        output: output.written().to_vec(alloc)?,
        report: report.written().to_vec(alloc)?,
        listens: live.ports.listens().len(),
    })
}

// Each row: the rest of the words, what the live station brings, in pieces of how many octets, and the end.
#[test]
fn a_call_ends_by_what_the_station_brings(rt: HostRuntime) -> Result<(), Fail> {
    for (more, messages, piece, end) in [
        ("", WHOLE, 4096, (0, 2, "got 2\n")),
        ("", WHOLE, 37, (0, 2, "got 2\n")),
        ("--expect=3", WHOLE, 1, (0, 2, "got 2\n")),
        ("", &[NOT_REGISTERED], 4096, (12, 0, "tnc: refused\n")),
        (
            "",
            &[REGISTERED, DISCONNECTED],
            4096,
            (12, 0, "tnc: refused\n"),
        ),
        ("--polls 3", &[], 1, (15, 0, "tnc: gave up after 3 polls\n")),
        (
            "--polls=2",
            &[REGISTERED, CONNECTED, HI],
            4096,
            (15, 2, "tnc: gave up after 2 polls\n"),
        ),
        (
            "",
            &[(b'C', 4097, b"")],
            4096,
            (14, 0, "tnc: host broke at length 4097\n"),
        ),
    ] {
        let script = script_of(rt.alloc(), messages, piece)?;
        let got = run_call(&rt, rt.alloc(), more, script, [NEVER; 4])?;
        assert_ended(&rt, more, &got, end);
    }
    Ok(())
}

#[test]
fn a_call_that_loses_its_station_says_so(rt: HostRuntime) -> Result<(), Fail> {
    let mut script = script_of(rt.alloc(), &[REGISTERED, CONNECTED], 4096)?;
    script.leaves()?;
    let got = run_call(&rt, rt.alloc(), "", script, [NEVER; 4])?;
    assert_ended(&rt, WORDS, &got, (13, 0, "tnc: host lost\n"));
    Ok(())
}

// Each row: the read, the write, the report and the call of the ports that fail, and the end. The first call of the
// ports dials, the second one sends.
#[test]
fn a_call_ends_by_what_fails(rt: HostRuntime) -> Result<(), Fail> {
    for (failing, end) in [
        ([NEVER, NEVER, NEVER, 0], (11, 0, "tnc: no host\n")),
        ([NEVER, NEVER, 0, 0], (5, 0, "")),
        ([NEVER, NEVER, NEVER, 1], (13, 0, "tnc: host lost\n")),
        ([0, NEVER, NEVER, NEVER], (4, 0, "")),
        ([NEVER, 0, NEVER, NEVER], (5, 0, "")),
        ([NEVER, NEVER, 0, NEVER], (5, 2, "")),
    ] {
        let script = script_of(rt.alloc(), WHOLE, 4096)?;
        let got = run_call(&rt, rt.alloc(), "", script, failing)?;
        assert_ended(&rt, WORDS, &got, end);
    }
    Ok(())
}
