//! A live station over memory, from its first poll to the end of its input.

use super::outcome::{
    ALL, ALL_FX25, ALL_SHORT_WAVE, EIGHT, FX25, Failing, NONE, Outcome, SHORT_WAVE, served,
    served_by, silence,
};
use super::script::Script;
use crate::assertions::assert_equal;
use afsk_modulator::transmission;
use fx25_sender::fx25_transmission;
use hf_sender::hf_transmission;
use host_ports::MemPorts;
use key_port::MemKeyPort;
use live_receiver::Listening;
use station::PortKind;
use station_tests::message;
use std::alloc::Global;
use std::net::Net;
use std::process::Abort;
use std::sync::{OnceToken, Wait};
use std::test::Fail;
use std::thread::Threads;
use tnc_base::{Octets, OutOfMemory};
use tnc_ports::{Live, MemLive, Order, ServeEnd, Spawner, Start};

/// No thread can be started, so the pump runs last.
#[derive(Debug, Drop)]
struct NoThread {
    faults: u64,
}

impl Spawner for NoThread {
    ghost faults = { λ s. s.faults };

    fn order(&self) -> Order {
        Order::PumpLast
    }

    fn await_pump<'a, R: Wait>(&mut self, rt: &R, start: &'a Start) -> OnceToken<'a, bool> {
        start.wait(rt, &mut self.faults)
    }
}

/// Sockets without hosts.
fn no_hosts(alloc: Global) -> Result<Box<MemLive>, OutOfMemory> {
    Script::new(alloc).failing(&[])
}

/// What a station writes of 960 samples of silence.
fn served_silence<R: Threads + Wait + Net + Sync, W: Spawner>(
    rt: &R,
    alloc: Global,
    live: &mut Live<MemPorts, W, MemKeyPort>,
) -> Result<Box<Outcome>, OutOfMemory> {
    let input = silence(alloc, 960)?;
    served(rt, alloc, input, NONE, live)
}

#[test]
fn silence_gives_silence(rt: HostRuntime) -> Result<(), Fail> {
    let alloc = rt.alloc();
    let mut live = no_hosts(alloc)?;
    let served = served_silence(&rt, alloc, &mut live)?;
    let got = (served.end, served.report.len(), live.ports.listens().len());
    assert_equal(&rt, &got, &(ServeEnd::Done, 0, 1));
    assert_equal(&rt, &served.output, &silence(alloc, 960)?);
    Ok(())
}

// The turns give the pump up after ten seconds: nothing is polled, and nothing goes out. The spawner counts it.
#[test]
fn without_a_thread_it_ends(rt: HostRuntime) -> Result<(), Fail> {
    let alloc = rt.alloc();
    let Live {
        ports,
        spawner: _,
        key,
        seed,
    } = Box::into_inner(no_hosts(alloc)?);
    let spawner = NoThread { faults: 0 };
    let live = Live {
        ports,
        spawner,
        key,
        seed,
    };
    let mut live = Box::new(alloc, live)?;
    let served = served_silence(&rt, alloc, &mut live)?;
    let got = (served.end, served.output.len(), served.report.len());
    assert_equal(&rt, &got, &(ServeEnd::NoThread, 0, 0));
    let calls = (live.ports.listens().len(), live.ports.polls().len());
    assert_equal(&rt, &calls, &(1, 0));
    assert_equal(&rt, &live.spawner.faults, &1);
    Ok(())
}

fn line_count(text: &[u8]) -> usize {
    let mut count: usize = 0;
    for octet in text {
        if *octet == b'\n' {
            count = count.saturating_add(1);
        }
    }
    count
}

/// Each row: how it listens, how many samples are missed, and the line of the last.
const MISSED: &[(Listening, usize, &[u8])] = &[
    (EIGHT, 8 * 4464, b"gap 7 4463 4464\n"),
    (ALL, 9 * 4464, b"gap 8 4463 4464\n"),
    (SHORT_WAVE, 4464, b"gap 0 4463 4464\n"),
    (FX25, 4464, b"gap 0 4463 4464\n"),
];

/// Ends the test unless the report has a line for each missed sample, and all of the rest comes out.
fn assert_gaps<R: Abort>(rt: &R, served: &Outcome, gaps: usize, last: &[u8]) {
    let begins = served.report.starts_with(b"gap 0 0 1\ngap 0 1 2\n");
    let ends = served.report.ends_with(last);
    let lines = line_count(&served.report);
    let got = (served.end, served.output.len(), begins, ends, lines);
    assert_equal(rt, &got, &(ServeEnd::Done, 2 * 69_984, true, true, gaps));
}

// The ring keeps 65,536 samples, so each reader misses the first 4464 one by one. The added lanes share the ninth; the
// lanes of short wave have one, and so have those that read blocks.
#[test]
fn overwritten_samples_are_reported(rt: HostRuntime) -> Result<(), Fail> {
    let alloc = rt.alloc();
    for (listening, gaps, last) in MISSED {
        let input = silence(alloc, 70_000)?;
        let mut live = no_hosts(alloc)?;
        let served = served_by(&rt, alloc, *listening, input, NONE, &mut live)?;
        assert_gaps(&rt, &served, *gaps, last);
    }
    Ok(())
}

/// SABM with P from N7LEM to NJ7P.
const SABM: &[u8] = b"\x9c\x94\x6e\xa0\x40\x40\xe0\x9c\x6e\x98\x8a\x9a\x40\x61\x3f";

/// The sound of frames, for a station that listens so. Of frames in blocks 400 samples are lost.
fn sound(alloc: Global, listening: Listening, frames: &[Octets]) -> Result<Vec<i16>, Fail> {
    match listening {
        Listening::Bell202 { .. } => Ok(transmission(alloc, frames, 2, 1)?),
        Listening::ShortWave { .. } => Ok(hf_transmission(alloc, 10_000, frames, 2, 1)?),
        Listening::Fx25 { .. } => {
            let mut samples = fx25_transmission(alloc, 16, 10_000, frames, 2, 1)?;
            for sample in samples.iter_mut().skip(960).take(400) {
                *sample = 0;
            }
            Ok(samples)
        }
    }
}

/// 2 s of silence, and then SABM.
pub(super) fn a_call(alloc: Global, listening: Listening) -> Result<Vec<u8>, Fail> {
    let mut input = silence(alloc, 19_200)?;
    let mut frames = Vec::new(alloc);
    frames.push(Octets::from_slice(alloc, SABM)?)?;
    for sample in sound(alloc, listening, &frames)? {
        input.extend_from_slice(&sample.to_le_bytes())?;
    }
    Ok(input)
}

/// A host registers NJ7P at the first poll.
pub(super) fn with_registration(alloc: Global) -> Result<Script, Fail> {
    let mut script = Script::new(alloc);
    script.joins(0, 1, PortKind::Agw)?;
    script.brings(0, 1, &message(alloc, b'X', ["NJ7P", ""], b"")?)?;
    Ok(script)
}

/// All octets that were sent, of whatever connection.
fn sent(alloc: Global, live: &MemLive) -> Result<Vec<u8>, OutOfMemory> {
    let mut octets = Vec::new(alloc);
    for send in live.ports.sends() {
        octets.extend_from_slice(send.octets.as_slice())?;
    }
    Ok(octets)
}

/// What a host that has registered NJ7P is told of the call: the registration, and the link.
fn told(alloc: Global) -> Result<Vec<u8>, Fail> {
    let mut told = message(alloc, b'X', ["NJ7P", ""], b"\x01")?;
    let text = b"*** CONNECTED To Station N7LEM\r";
    let connected = message(alloc, b'C', ["N7LEM", "NJ7P"], text)?;
    told.extend_from_slice(&connected)?;
    Ok(told)
}

/// What a station writes of the call.
fn served_call<R: Threads + Wait + Net + Sync>(
    rt: &R,
    alloc: Global,
    listening: Listening,
    failing: Failing<'_>,
    live: &mut MemLive,
) -> Result<Box<Outcome>, Fail> {
    let input = a_call(alloc, listening)?;
    Ok(served_by(rt, alloc, listening, input, failing, live)?)
}

/// Ends the test unless the host is told of the call.
fn assert_told<R: Abort>(rt: &R, alloc: Global, live: &MemLive) -> Result<(), Fail> {
    let sent = sent(alloc, live)?;
    let told = told(alloc)?;
    assert_equal(rt, &sent, &told);
    Ok(())
}

/// Each row: how it listens, and how many ticks are made: a bit lasts 8 samples, or 32 on short wave, and a block with its
/// tag has 448 bits.
const CALLED: &[(Listening, usize)] = &[
    (EIGHT, 213),
    (ALL, 213),
    (SHORT_WAVE, 254),
    (ALL_SHORT_WAVE, 254),
    (FX25, 239),
    (ALL_FX25, 239),
];

// Whichever lanes listen, they hear the call, and it is told once.
#[test]
fn a_call_is_heard_and_told(rt: HostRuntime) -> Result<(), Fail> {
    let alloc = rt.alloc();
    for (listening, ticks) in CALLED {
        let mut live = with_registration(alloc)?.failing(&[])?;
        let served = served_call(&rt, alloc, *listening, NONE, &mut live)?;
        let got = (
            served.end,
            served.output.len() / 192,
            live.ports.sends().len(),
        );
        assert_equal(&rt, &got, &(ServeEnd::Done, *ticks, 2));
        let report = b"rx N7LEM>NJ7P SABM cmd f=1\n".as_slice();
        assert_equal(&rt, &served.report.as_slice(), &report);
        assert_told(&rt, alloc, &live)?;
    }
    Ok(())
}

/// Each row: the reads, writes and reports that fail, the calls of the sockets that fail, how it ends, and how many
/// octets come out. A failed poll is no end. A read gives 4096 octets, and a write is a tick of 192.
const FAULTS: &[(Failing<'static>, &[u64], ServeEnd, usize)] = &[
    ([&[], &[], &[]], &[0], ServeEnd::NoPort, 0),
    ([&[], &[], &[]], &[1], ServeEnd::Done, 40_896),
    ([&[1], &[], &[]], &[], ServeEnd::ReadFault, 4032),
    ([&[], &[3], &[]], &[], ServeEnd::WriteFault, 576),
    ([&[], &[], &[0]], &[], ServeEnd::WriteFault, 38_400),
];

#[test]
fn faults_end_it_or_not(rt: HostRuntime) -> Result<(), Fail> {
    let alloc = rt.alloc();
    for (failing, calls, end, octets) in FAULTS {
        let mut live = with_registration(alloc)?.failing(calls)?;
        let served = served_call(&rt, alloc, EIGHT, *failing, &mut live)?;
        let got = (*failing, *calls, served.end, served.output.len());
        assert_equal(&rt, &got, &(*failing, *calls, *end, *octets));
    }
    Ok(())
}

/// How many requests for the version come at once.
const AT_ONCE: usize = 113;

/// So many requests for the version.
fn requests(alloc: Global, count: usize) -> Result<Vec<u8>, Fail> {
    let request = message(alloc, b'R', ["", ""], b"")?;
    let mut octets = Vec::new(alloc);
    for _ in 0..count {
        octets.extend_from_slice(&request)?;
    }
    Ok(octets)
}

/// A host brings so many requests, so often, at the first poll.
fn ask(script: &mut Script, alloc: Global, count: usize, times: usize) -> Result<(), Fail> {
    let octets = requests(alloc, count)?;
    for _ in 0..times {
        script.brings(0, 1, &octets)?;
    }
    Ok(())
}

/// A host that asks so often for the version, and takes nothing.
fn that_takes_nothing(alloc: Global, count: usize) -> Result<Box<MemLive>, Fail> {
    let mut script = Script::new(alloc);
    script.joins(0, 1, PortKind::Agw)?;
    ask(&mut script, alloc, AT_ONCE, count / AT_ONCE)?;
    ask(&mut script, alloc, 1, count % AT_ONCE)?;
    Ok(script.taking(0)?)
}

// 5957 replies of 44 octets fit into 262,144, and one more does not.
#[test]
fn a_host_that_takes_nothing_is_shut(rt: HostRuntime) -> Result<(), Fail> {
    let alloc = rt.alloc();
    for (requests, report) in [(5957, b"".as_slice()), (5958, b"closed 1\n")] {
        let mut live = that_takes_nothing(alloc, requests)?;
        let served = served_silence(&rt, alloc, &mut live)?;
        let got = (requests, served.end, served.report.as_slice());
        assert_equal(&rt, &got, &(requests, ServeEnd::Done, report));
    }
    Ok(())
}
