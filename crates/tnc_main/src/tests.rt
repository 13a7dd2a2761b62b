//! Runs over memory, by their statuses, what they write, and their reports.
use crate::assertions::assert_equal;
use crate::program::run;
use std::alloc::Global;
use std::net::Net;
use std::process::Abort;
use std::sync::Wait;
use std::test::Fail;
use std::thread::Threads;
use tnc_base::{MemSink, MemSource};
use tnc_ports::MemLive;

mod audio;
mod calling;
mod failing;
mod lines;
mod live;
mod recording;
mod script;

/// A SABM with P from N7LEM to NJ7P: the shortest legal frame.
const SHORTEST: &str = "9c946ea04040e09c6e988a9a40613f";

/// The report of words that ask for nothing.
const BAD: &str = "tnc: bad words\n";

/// A bench of no octets.
const BENCH: &str = "bench --seed=7 --octets=0 --full";

/// The number of a call that is never made.
const NEVER: u64 = u64::MAX;

/// What came of a run.
#[derive(Drop)]
struct Outcome {
    status: u8,
    output: Vec<u8>,
    report: Vec<u8>,
    /// How often ports were opened.
    listens: usize,
}

/// The words of a command line.
fn split(alloc: Global, words: &str) -> Result<Vec<String>, Fail> {
    let mut given = Vec::new(alloc);
    for word in words.split_whitespace() {
        given.push(String::from_str(alloc, word)?)?;
    }
    Ok(given)
}

/// An input in pieces of seven octets. The number is that of the read that fails.
fn input_of(alloc: Global, octets: &[u8], read: u64) -> Result<MemSource, Fail> {
    let failing = [read].to_vec(alloc)?;
    Ok(MemSource::new(octets.to_vec(alloc)?, 7, failing))
}

/// An output with room for so many octets. The number is that of the write that fails.
fn output_of(alloc: Global, room: usize, write: u64) -> Result<MemSink, Fail> {
    Ok(MemSink::new(alloc, room, [write].to_vec(alloc)?)?)
}

/// A run over memory whose input comes in pieces of seven octets, and to whose ports no host connects. The numbers are
/// those of the read, the write, the report and the call of the ports that fail.
fn run_live<R: Threads + Wait + Net + Sync>(
    rt: &R,
    alloc: Global,
    words: &str,
    input: &[u8],
    [read, write, told, call]: [u64; 4],
) -> Result<Outcome, Fail> {
    let given = split(alloc, words)?;
    let mut input = input_of(alloc, input, read)?;
    let mut output = output_of(alloc, 200_000, write)?;
    let mut report = output_of(alloc, 200, told)?;
    run_streams(
        rt,
        alloc,
        &given,
        &mut input,
        &mut output,
        &mut report,
        call,
    )
}

/// What comes of these words over these streams. The number is that of the call of the ports that fails.
fn run_streams<R: Threads + Wait + Net + Sync>(
    rt: &R,
    alloc: Global,
    given: &[String],
    input: &mut MemSource,
    output: &mut MemSink,
    report: &mut MemSink,
    call: u64,
) -> Result<Outcome, Fail> {
    let failing = [call].to_vec(alloc)?;
    let mut live = MemLive::new(alloc, Vec::new(alloc), failing);
    let status = run(rt, alloc, given, input, output, report, &mut live);
    let listens = live.ports.listens().len();
    Ok(Outcome {
        status,
        output: output.written().to_vec(alloc)?,
        report: report.written().to_vec(alloc)?,
        listens,
    })
}

/// A run over memory without ports. The numbers are those of the read, the write and the report that fail.
fn run_failing<R: Threads + Wait + Net + Sync>(
    rt: &R,
    alloc: Global,
    words: &str,
    input: &[u8],
    [read, write, told]: [u64; 3],
) -> Result<Outcome, Fail> {
    run_live(rt, alloc, words, input, [read, write, told, NEVER])
}

/// A run over memory in which nothing fails.
fn run_over<R: Threads + Wait + Net + Sync>(
    rt: &R,
    alloc: Global,
    words: &str,
    input: &[u8],
) -> Result<Outcome, Fail> {
    run_failing(rt, alloc, words, input, [NEVER; 3])
}

/// Ends the test unless a run of these words came to this status after so many octets, with this report.
fn assert_ended<R: Abort>(
    rt: &R,
    words: &str,
    got: &Outcome,
    (status, octets, report): (u8, usize, &str),
) {
    assert_equal(
        rt,
        &(words, got.status, got.output.len(), got.report.as_slice()),
        &(words, status, octets, report.as_bytes()),
    );
}

/// The words, the input, what fails, and the end: the status, how many octets are written, and the report.
type Row<'a> = (&'a str, &'a str, [u64; 3], (u8, usize, &'a str));

/// Ends the test unless the run of each row ends so.
fn each_ends<R: Threads + Wait + Net + Sync + Abort>(
    rt: &R,
    alloc: Global,
    rows: &[Row<'_>],
) -> Result<(), Fail> {
    for (words, input, failing, end) in rows {
        let got = run_failing(rt, alloc, words, input.as_bytes(), *failing)?;
        assert_ended(rt, words, &got, *end);
    }
    Ok(())
}

/// Runs of each status.
static STATUSES: [Row<'static>; 15] = [
    ("decode", "odd", [NEVER; 3], (0, 0, "")),
    ("decod", "", [0, 0, NEVER], (1, 0, BAD)),
    ("", "", [NEVER; 3], (1, 0, BAD)),
    ("show --modulo 16", "", [NEVER; 3], (1, 0, BAD)),
    ("loop --seed 7", "", [NEVER; 3], (1, 0, BAD)),
    ("decod", "", [NEVER, NEVER, 0], (5, 0, "")),
    ("decode", "", [0, NEVER, NEVER], (4, 0, "")),
    ("decode", "12345678", [1, 1, 0], (4, 0, "")),
    ("encode", SHORTEST, [2, NEVER, NEVER], (4, 0, "")),
    ("show", SHORTEST, [2, NEVER, NEVER], (4, 0, "")),
    ("decode", "", [NEVER, 0, NEVER], (0, 0, "")),
    ("encode", SHORTEST, [NEVER, 0, NEVER], (5, 0, "")),
    ("encode --wav", SHORTEST, [NEVER, 1, NEVER], (5, 44, "")),
    ("show", SHORTEST, [NEVER, 0, NEVER], (5, 0, "")),
    ("encode", "9c9", [NEVER, NEVER, 0], (5, 0, "")),
];

#[test]
fn each_status_has_its_cause_and_its_line(rt: HostRuntime) -> Result<(), Fail> {
    each_ends(&rt, rt.alloc(), &STATUSES)
}

/// Runs of commands that read nothing, and of an input without frames.
static OTHERS: [Row<'static>; 7] = [
    ("loop --seed=7 --frames=0", "x", [0, 0, NEVER], (5, 0, "")),
    ("loop --seed=7 --frames=0", "x", [0, NEVER, 0], (0, 47, "")),
    ("encode", "", [NEVER, 0, 0], (0, 0, "")),
    ("version", "x", [0, NEVER, 0], (0, 10, "")),
    ("help loop", "x", [0, 0, NEVER], (5, 0, "")),
    (BENCH, "x", [0, NEVER, 0], (0, 128, "")),
    (BENCH, "x", [0, 0, NEVER], (5, 0, "")),
];

#[test]
fn other_commands_have_their_statuses_too(rt: HostRuntime) -> Result<(), Fail> {
    each_ends(&rt, rt.alloc(), &OTHERS)
}

#[test]
fn a_loop_tells_what_it_heard(rt: HostRuntime) -> Result<(), Fail> {
    let got = run_over(&rt, rt.alloc(), "loop --seed 7 --frames=0", b"")?;
    let summary = b"frames 0\nheard 0\nstray 0\nhash cbf29ce484222325\n".as_slice();
    assert_equal(&rt, &got.output.as_slice(), &summary);
    Ok(())
}

#[test]
fn help_tells_of_a_command(rt: HostRuntime) -> Result<(), Fail> {
    let got = run_over(&rt, rt.alloc(), "show --help", b"")?;
    assert!(rt; got.output.starts_with(b"Usage: tnc show [--modulo n]\n"));
    Ok(())
}
