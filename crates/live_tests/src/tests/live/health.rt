//! What a live station tells of its health.

use super::outcome::{EIGHT, NONE, Outcome, served_as, silence, words};
use super::script::Script;
use super::serving::{a_call, with_registration};
use crate::assertions::assert_equal;
use station::PortKind;
use station_tests::message;
use std::alloc::Global;
use std::net::Net;
use std::sync::Wait;
use std::test::Fail;
use std::thread::Threads;
use tnc_base::OutOfMemory;
use tnc_ports::{MemLive, ServeEnd};

/// What a station tells that counts for so many seconds, or not at all.
fn told<R: Threads + Wait + Net + Sync>(
    rt: &R,
    alloc: Global,
    seconds: Option<u32>,
    input: Vec<u8>,
    live: &mut MemLive,
) -> Result<Box<Outcome>, OutOfMemory> {
    let mut asked = words(false, EIGHT);
    asked.stats = seconds;
    served_as(rt, alloc, asked, input, NONE, live)
}

/// The sample at a place, or 0 if none is told.
fn sample_at(samples: &[(usize, i16)], place: usize) -> i16 {
    for (at, sample) in samples {
        if *at == place {
            return *sample;
        }
    }
    0
}

/// Two seconds of silence, in which these samples stand at these places.
fn with_samples(alloc: Global, samples: &[(usize, i16)]) -> Result<Vec<u8>, OutOfMemory> {
    let mut input = Vec::new(alloc);
    for place in 0..19_200 {
        let sample = sample_at(samples, place);
        input.extend_from_slice(&sample.to_le_bytes())?;
    }
    Ok(input)
}

/// Each row: the samples that are not 0, by their places, and the lines of the two seconds.
const SAMPLES: &[(&[(usize, i16)], &str)] = &[
    (
        &[],
        "stats 100 peak 0 clipped 0 busy 0 heard 0 sent 0 dropped 0 hosts 0 links 0\n\
         stats 200 peak 0 clipped 0 busy 0 heard 0 sent 0 dropped 0 hosts 0 links 0\n",
    ),
    (
        &[(9599, -32_768), (9600, 32_767)],
        "stats 100 peak 32768 clipped 1 busy 0 heard 0 sent 0 dropped 0 hosts 0 links 0\n\
         stats 200 peak 32767 clipped 1 busy 0 heard 0 sent 0 dropped 0 hosts 0 links 0\n",
    ),
    (
        &[(0, -7), (1, 5), (19_199, -32_767)],
        "stats 100 peak 7 clipped 0 busy 0 heard 0 sent 0 dropped 0 hosts 0 links 0\n\
         stats 200 peak 32767 clipped 0 busy 0 heard 0 sent 0 dropped 0 hosts 0 links 0\n",
    ),
];

#[test]
fn samples_are_counted_from_line_to_line(rt: HostRuntime) -> Result<(), Fail> {
    let alloc = rt.alloc();
    for (samples, lines) in SAMPLES {
        let input = with_samples(alloc, samples)?;
        let mut live = Script::new(alloc).failing(&[])?;
        let told = told(&rt, alloc, Some(1), input, &mut live)?;
        assert_equal(&rt, &told.end, &ServeEnd::Done);
        assert_equal(&rt, &told.report.as_slice(), &lines.as_bytes());
    }
    Ok(())
}

/// A KISS frame of 15 octets.
const FRAME: &[u8] = b"\xc0\x00\x9c\x94\x6e\xa0\x40\x40\xe0\x9c\x6e\x98\x8a\x9a\x40\x61\x3f\xc0";

/// The stations that a host calls.
const CALLED: [&str; 5] = ["K1A", "K1B", "K1C", "K1D", "K1E"];

/// 63 hosts give four frames each, and one calls five stations.
fn full(alloc: Global) -> Result<Script, Fail> {
    let mut script = Script::new(alloc);
    for id in 2..65 {
        script.joins(0, id, PortKind::Kiss)?;
        for _ in 0..4 {
            script.brings(0, id, FRAME)?;
        }
    }
    script.joins(0, 1, PortKind::Agw)?;
    script.brings(0, 1, &message(alloc, b'X', ["N7LEM", ""], b"")?)?;
    for call in CALLED {
        script.brings(0, 1, &message(alloc, b'C', ["N7LEM", call], b"")?)?;
    }
    Ok(script)
}

// With 252 frames of hosts four of links have room.
#[test]
fn dropped_frames_are_told_once(rt: HostRuntime) -> Result<(), Fail> {
    let alloc = rt.alloc();
    let mut live = full(alloc)?.failing(&[])?;
    let input = silence(alloc, 28_800)?;
    let told = told(&rt, alloc, None, input, &mut live)?;
    let got = (told.end, told.report.as_slice());
    assert_equal(&rt, &got, &(ServeEnd::Done, b"dropped 1\n".as_slice()));
    Ok(())
}

// A host has registered NJ7P, which N7LEM calls in the third second. A turn is a second here, and at its end nobody is heard any
// more.
#[test]
fn frames_hosts_and_links_are_counted(rt: HostRuntime) -> Result<(), Fail> {
    let alloc = rt.alloc();
    let mut input = a_call(alloc, EIGHT)?;
    input.extend_from_slice(&silence(alloc, 9600)?)?;
    let mut live = with_registration(alloc)?.failing(&[])?;
    let told = told(&rt, alloc, Some(3), input, &mut live)?;
    let lines = "stats 300 peak 10000 clipped 0 busy 0 heard 1 sent 0 dropped 0 hosts 1 links 1\n";
    assert_equal(&rt, &told.end, &ServeEnd::Done);
    assert_equal(&rt, &told.report.as_slice(), &lines.as_bytes());
    Ok(())
}
