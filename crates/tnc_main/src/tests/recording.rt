//! `record`: the last of the sound, and the frames in it.
use super::{NEVER, Outcome, SHORTEST, input_of, output_of, run_over, run_streams, split};
use crate::assertions::assert_equal;
use std::alloc::Global;
use std::net::Net;
use std::sync::Wait;
use std::test::Fail;
use std::thread::Threads;

/// Silence of so many samples.
fn silence(alloc: Global, samples: usize) -> Result<Vec<u8>, Fail> {
    let mut octets = Vec::new(alloc);
    octets.resize(samples.saturating_mul(2), 0)?;
    Ok(octets)
}

/// A recording of so much, with room for the line of each gap. The numbers are those of the read, the write and the
/// report that fail.
fn run_record<R: Threads + Wait + Net + Sync>(
    rt: &R,
    alloc: Global,
    words: &str,
    input: &[u8],
    [read, write, told]: [u64; 3],
) -> Result<Outcome, Fail> {
    let given = split(alloc, words)?;
    let mut input = input_of(alloc, input, read)?;
    let mut output = output_of(alloc, 200_000, write)?;
    let mut report = output_of(alloc, 1_000_000, told)?;
    run_streams(
        rt,
        alloc,
        &given,
        &mut input,
        &mut output,
        &mut report,
        NEVER,
    )
}

// The cells of the ring hold 65,536 samples, and in memory the whole input is published before one of them is read.
// Each row: the words, what fails, the status, how many octets are written, and how the report ends. The head of a WAV
// file has 44.
#[test]
fn record_keeps_the_last_samples(rt: HostRuntime) -> Result<(), Fail> {
    let input = silence(rt.alloc(), 70_000)?;
    let lost = "gap 7 4463 4464\nlost 0 4464\n";
    let of_more = "gap 8 4463 4464\nlost 0 4464\n";
    for (words, failing, status, octets, end) in [
        ("record", [NEVER; 3], 0, 131_116, lost),
        ("record --keep 100", [NEVER; 3], 0, 244, lost),
        ("record --keep=100 --sensitive", [NEVER; 3], 0, 244, of_more),
        ("record --keep 100", [1, NEVER, NEVER], 4, 50, ""),
        ("record --keep 100", [NEVER, 0, NEVER], 5, 0, lost),
        ("record --keep 100", [NEVER, NEVER, 0], 5, 0, ""),
    ] {
        let got = run_record(&rt, rt.alloc(), words, &input, failing)?;
        let is_told = got.report.ends_with(end.as_bytes());
        assert_equal(
            &rt,
            &(words, failing, got.status, got.output.len(), is_told),
            &(words, failing, status, octets, true),
        );
    }
    Ok(())
}

/// Whether a report is one line, which tells the frame at one of the places at which it may end.
fn tells_the_frame(alloc: Global, report: &[u8]) -> Result<bool, Fail> {
    for place in 1289..1296 {
        let line = format!(in alloc; "frame {place} {SHORTEST}\n")?;
        if line.as_bytes() == report {
            return Ok(true);
        }
    }
    Ok(false)
}

#[test]
fn record_tells_a_frame_and_keeps_its_sound(rt: HostRuntime) -> Result<(), Fail> {
    let words = "encode --wav --opening=2 --closing=1";
    let sound = run_over(&rt, rt.alloc(), words, SHORTEST.as_bytes())?.output;
    let got = run_over(&rt, rt.alloc(), "record", sound.get(44..).unwrap_or(&[]))?;
    assert!(rt; tells_the_frame(rt.alloc(), &got.report)?);
    assert_equal(
        &rt,
        &(got.status, got.output.as_slice()),
        &(0, sound.as_slice()),
    );
    Ok(())
}
