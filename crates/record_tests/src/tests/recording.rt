//! The command over memory, from its first sample to the end of its input.
ghost use Rattle.std.specs.Prelude.{◌≤◌};

use super::wave::wave;
use crate::assertions::assert_equal;
use afsk_modulator::transmission;
use std::alloc::Global;
use std::marker::Model;
use std::process::Abort;
use std::sync::{OnceToken, Wait};
use std::test::Fail;
use std::thread::Threads;
use tnc_base::{MemSink, MemSource, Octets, OutOfMemory};
use tnc_ports::{MemSpawner, Order, Spawner, Start};
use tnc_record::{RecordEnd, RecordWords, record};

/// What a recording wrote of an input.
#[derive(Drop)]
struct Outcome {
    end: RecordEnd,
    output: Vec<u8>,
    report: Vec<u8>,
}

// No test needs a fact about an outcome, so its value shows none. Each test is then proved faster.
impl Model for Outcome {
    ghost use Rattle.std.specs.Prelude.{⊤};

    ghost Value = { ⊤ };

    ghost view = { λ _. tt };
}

/// The numbers of the reads, of the writes and of the reports that fail.
type Failing = [&'static [u64]; 3];

const NONE: Failing = [&[], &[], &[]];

/// The streams of a recording.
#[derive(Drop)]
struct Streams {
    source: MemSource,
    output: MemSink,
    report: MemSink,
}

impl Streams {
    /// An input of samples.
    fn new(
        alloc: Global,
        samples: &[i16],
        [reads, writes, reports]: Failing,
    ) -> Result<Box<Streams>, OutOfMemory> {
        let mut input = Vec::new(alloc);
        for sample in samples {
            input.extend_from_slice(&sample.to_le_bytes())?;
        }
        let streams = Streams {
            source: MemSource::new(input, 4096, reads.to_vec(alloc)?),
            output: MemSink::new(alloc, 200_000, writes.to_vec(alloc)?)?,
            report: MemSink::new(alloc, 1_000_000, reports.to_vec(alloc)?)?,
        };
        Ok(Box::new(alloc, streams)?)
    }

    /// What was written, of a recording that ended so.
    fn outcome(&self, alloc: Global, end: RecordEnd) -> Result<Box<Outcome>, OutOfMemory> {
        let outcome = Outcome {
            end,
            output: self.output.written().to_vec(alloc)?,
            report: self.report.written().to_vec(alloc)?,
        };
        Ok(Box::new(alloc, outcome)?)
    }
}

/// What a recording writes of samples of which it keeps so many at most.
fn recorded<R: Threads + Wait + Sync, W: Spawner>(
    rt: &R,
    alloc: Global,
    words: RecordWords,
    samples: &[i16],
    failing: Failing,
    spawner: &mut W,
) -> Result<Box<Outcome>, OutOfMemory>
    requires { (1 ≤ words.keep) × (words.keep ≤ 17280000) }
{
    let mut streams = Streams::new(alloc, samples, failing)?;
    let Streams {
        source,
        output,
        report,
    } = &mut *streams;
    let end = record(rt, alloc, words, source, output, report, spawner);
    streams.outcome(alloc, end)
}

/// SABM with P from N7LEM to NJ7P.
const SABM: &[u8] = b"\x9c\x94\x6e\xa0\x40\x40\xe0\x9c\x6e\x98\x8a\x9a\x40\x61\x3f";

/// The lines that may tell of it. One transmission is heard by several lanes, a few samples apart.
const LINES: &[&[u8]] = &[
    b"frame 1289 9c946ea04040e09c6e988a9a40613f\n",
    b"frame 1290 9c946ea04040e09c6e988a9a40613f\n",
    b"frame 1291 9c946ea04040e09c6e988a9a40613f\n",
    b"frame 1292 9c946ea04040e09c6e988a9a40613f\n",
    b"frame 1293 9c946ea04040e09c6e988a9a40613f\n",
    b"frame 1294 9c946ea04040e09c6e988a9a40613f\n",
    b"frame 1295 9c946ea04040e09c6e988a9a40613f\n",
];

fn is_one_of(lines: &[&[u8]], text: &[u8]) -> bool {
    for line in lines {
        if *line == text {
            return true;
        }
    }
    false
}

const WORDS: RecordWords = RecordWords {
    keep: 576_000,
    sensitive: false,
};

/// The signal of the shortest frame between two flags and one.
fn signal(alloc: Global) -> Result<Vec<i16>, Fail> {
    let mut frames = Vec::new(alloc);
    frames.push(Octets::from_slice(alloc, SABM)?)?;
    Ok(transmission(alloc, &frames, 2, 1)?)
}

/// Ends the test unless the frame is reported, and nothing else, and all samples are written.
fn assert_frame<R: Abort>(
    rt: &R,
    alloc: Global,
    got: &Outcome,
    samples: &[i16],
) -> Result<(), Fail> {
    assert_equal(rt, &got.end, &RecordEnd::Done);
    assert!(*rt; is_one_of(LINES, &got.report));
    assert!(*rt; got.output == wave(alloc, samples)?);
    Ok(())
}

#[test]
fn a_frame_is_reported_beside_its_sound(rt: HostRuntime) -> Result<(), Fail> {
    let alloc = rt.alloc();
    let samples = signal(alloc)?;
    for sensitive in [false, true] {
        let words = RecordWords { sensitive, ..WORDS };
        let got = recorded(&rt, alloc, words, &samples, NONE, &mut MemSpawner::new())?;
        assert_frame(&rt, alloc, &got, &samples)?;
    }
    Ok(())
}

fn line_count(text: &[u8]) -> usize {
    let mut count: usize = 0;
    for octet in text {
        if *octet == b'\n' {
            count = count.saturating_add(1);
        }
    }
    count
}

/// Ends the test unless the recorder lost the first 4464 samples, as each of the eight lanes did, and kept so many.
fn assert_lost<R: Abort>(rt: &R, alloc: Global, got: &Outcome, kept: usize) -> Result<(), Fail> {
    let lines = line_count(&got.report);
    assert_equal(rt, &(got.end, lines), &(RecordEnd::Done, 8 * 4464 + 1));
    assert!(*rt; got.report.ends_with(b"gap 7 4463 4464\nlost 0 4464\n"));
    let silence = vec![in alloc; 0; kept]?;
    assert!(*rt; got.output == wave(alloc, &silence)?);
    Ok(())
}

// The pump comes first, so the ring of 65,536 cells has overwritten the first 4464 samples.
#[test]
fn what_the_ring_has_overwritten_is_lost(rt: HostRuntime) -> Result<(), Fail> {
    let alloc = rt.alloc();
    let samples = vec![in alloc; 0; 70_000]?;
    for (keep, kept) in [(576_000, 65_536), (100, 100)] {
        assert!(rt; keep >= 1 && keep <= 17_280_000);
        let words = RecordWords {
            keep,
            sensitive: false,
        };
        let got = recorded(&rt, alloc, words, &samples, NONE, &mut MemSpawner::new())?;
        assert_lost(&rt, alloc, &got, kept)?;
    }
    Ok(())
}

/// What a recording of 5000 samples comes to if a read or a write fails: how it ends, and how many samples and octets
/// of them are written.
const FAULTS: &[(Failing, RecordEnd, usize)] = &[
    ([&[1], &[], &[]], RecordEnd::ReadFault, 44 + 4096),
    ([&[], &[0], &[]], RecordEnd::WriteFault, 0),
    ([&[], &[2], &[]], RecordEnd::WriteFault, 44 + 8192),
    ([&[], &[], &[0]], RecordEnd::Done, 44 + 10_000),
];

// Nothing is reported of silence, so no report fails. The sound is written 4096 samples at a time, past its head.
#[test]
fn a_fault_leaves_what_was_written(rt: HostRuntime) -> Result<(), Fail> {
    let alloc = rt.alloc();
    let samples = vec![in alloc; 0; 5000]?;
    for (failing, end, size) in FAULTS {
        let got = recorded(
            &rt,
            alloc,
            WORDS,
            &samples,
            *failing,
            &mut MemSpawner::new(),
        )?;
        let got = (got.end, got.output.len(), got.report.len());
        assert_equal(&rt, &got, &(*end, *size, 0));
    }
    Ok(())
}

// The report of the frame fails, so no sound is written.
#[test]
fn a_report_that_fails_ends_the_writing(rt: HostRuntime) -> Result<(), Fail> {
    let alloc = rt.alloc();
    let samples = signal(alloc)?;
    let failing: Failing = [&[], &[], &[0]];
    let got = recorded(&rt, alloc, WORDS, &samples, failing, &mut MemSpawner::new())?;
    let got = (got.end, got.output.len(), got.report.len());
    assert_equal(&rt, &got, &(RecordEnd::WriteFault, 0, 0));
    Ok(())
}

/// No thread can be started, so the pump runs last.
#[derive(Debug, Drop)]
struct NoThread {
    faults: u64,
}

impl Spawner for NoThread {
    ghost faults = { λ s. s.faults };

    fn order(&self) -> Order {
        Order::PumpLast
    }

    fn await_pump<'a, R: Wait>(&mut self, rt: &R, start: &'a Start) -> OnceToken<'a, bool> {
        start.wait(rt, &mut self.faults)
    }
}

// The turns give the pump up after ten seconds.
#[test]
fn without_a_thread_nothing_is_done(rt: HostRuntime) -> Result<(), Fail> {
    let alloc = rt.alloc();
    let samples = signal(alloc)?;
    let got = recorded(
        &rt,
        alloc,
        WORDS,
        &samples,
        NONE,
        &mut NoThread { faults: 0 },
    )?;
    let got = (got.end, got.output.len(), got.report.len());
    assert_equal(&rt, &got, &(RecordEnd::NoThread, 0, 0));
    Ok(())
}
