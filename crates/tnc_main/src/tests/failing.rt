//! Streams that fail: what had ended before stands written.
use super::{NEVER, Outcome, assert_ended, run_failing, run_over};
use crate::assertions::assert_equal;
use std::alloc::Global;
use std::net::Net;
use std::sync::Wait;
use std::test::Fail;
use std::thread::Threads;

/// How many frames an input has.
const FRAMES: u64 = 3;

/// A command, how many octets a frame of its input has, and how many it writes of each.
#[derive(Drop)]
struct Trial<'a> {
    words: &'a str,
    item: u64,
    made: u64,
}

impl Trial<'_> {
    /// Whether it ended with a status after so many frames, without a report.
    fn ended_after(&self, got: &Outcome, status: u8, frames: u64) -> bool {
        let written = frames.saturating_mul(self.made);
        got.status == status && got.output.len() as u64 == written && got.report.is_empty()
    }

    /// The first read whose failing does not end it with status 4, after the frames that ended before. A read gives
    /// seven octets.
    fn wrong_read<R: Threads + Wait + Net + Sync>(
        &self,
        rt: &R,
        alloc: Global,
        input: &[u8],
    ) -> Result<Option<u64>, Fail> {
        let whole = run_over(rt, alloc, self.words, input)?.output;
        for read in 0..input.len() as u64 / 7 {
            let got = run_failing(rt, alloc, self.words, input, [read, NEVER, NEVER])?;
            let ended = read.saturating_mul(7).checked_div(self.item).unwrap_or(0);
            if !self.ended_after(&got, 4, ended) || !whole.starts_with(&got.output) {
                return Ok(Some(read));
            }
        }
        Ok(None)
    }

    /// The first write whose failing does not end it with status 5, after the frames before. A frame is one write.
    fn wrong_write<R: Threads + Wait + Net + Sync>(
        &self,
        rt: &R,
        alloc: Global,
        input: &[u8],
    ) -> Result<Option<u64>, Fail> {
        for write in 0..=FRAMES {
            let got = run_failing(rt, alloc, self.words, input, [NEVER, write, NEVER])?;
            let status = if write < FRAMES { 5 } else { 0 };
            if !self.ended_after(&got, status, write) {
                return Ok(Some(write));
            }
        }
        Ok(None)
    }
}

/// Lines of the shortest frame.
const LINES: &[u8] =
    b"9c946ea04040e09c6e988a9a40613f\n9c946ea04040e09c6e988a9a40613f\n9c946ea04040e09c6e988a9a40613f\n";

/// The shortest frame as a KISS frame.
const ITEM: &[u8] = b"\xc0\0\x9c\x94\x6e\xa0\x40\x40\xe0\x9c\x6e\x98\x8a\x9a\x40\x61\x3f\xc0";

// Each row: the words, and how many octets are written of a line. With --join or --wav nothing is written before the
// end.
#[test]
fn reads_of_lines_fail(rt: HostRuntime) -> Result<(), Fail> {
    for (words, made) in [
        ("encode --opening=2 --closing=1", 2592),
        ("encode --hf --opening=2 --closing=1", 10_368),
        ("encode --join", 0),
        ("encode --wav", 0),
        ("show", 24),
        ("show --modulo=128", 24),
    ] {
        let item = 31;
        let trial = Trial { words, item, made };
        assert_equal(
            &rt,
            &(words, trial.wrong_read(&rt, rt.alloc(), LINES)?),
            &(words, None),
        );
    }
    Ok(())
}

#[test]
fn writes_of_lines_fail(rt: HostRuntime) -> Result<(), Fail> {
    for (words, made) in [
        ("encode --opening=2 --closing=1", 2592),
        ("encode --hf --opening=2 --closing=1", 10_368),
        ("show", 24),
    ] {
        let item = 31;
        let trial = Trial { words, item, made };
        assert_equal(
            &rt,
            &(words, trial.wrong_write(&rt, rt.alloc(), LINES)?),
            &(words, None),
        );
    }
    Ok(())
}

#[test]
fn reads_and_writes_of_kiss_frames_fail(rt: HostRuntime) -> Result<(), Fail> {
    let mut input = Vec::new(rt.alloc());
    for _ in 0..FRAMES {
        input.extend_from_slice(ITEM)?;
    }
    let trial = Trial {
        words: "encode --kiss --opening=2 --closing=1",
        item: 18,
        made: 2592,
    };
    assert_equal(&rt, &trial.wrong_read(&rt, rt.alloc(), &input)?, &None);
    assert_equal(&rt, &trial.wrong_write(&rt, rt.alloc(), &input)?, &None);
    Ok(())
}

// Each row: the words, the read that fails, how many frames had ended before it, and the octets that are written of
// each. So short a sound is one write.
#[test]
fn reads_and_writes_of_sound_fail(rt: HostRuntime) -> Result<(), Fail> {
    let sent = run_over(&rt, rt.alloc(), "encode --opening=2 --closing=1", LINES)?.output;
    for (words, read, frames, made) in [
        ("decode --kiss", 0, 0, 18),
        ("decode --kiss", 300, 0, 18),
        ("decode --kiss", 500, 1, 18),
        ("decode --threads", 500, 1, 31),
        ("decode --rate=9600", 900, 2, 31),
    ] {
        let trial = Trial {
            words,
            item: 2592,
            made,
        };
        let got = run_failing(&rt, rt.alloc(), words, &sent, [read, NEVER, NEVER])?;
        assert!(rt; trial.ended_after(&got, 4, frames), "of {words} at {read}");
        let unwritten = run_failing(&rt, rt.alloc(), words, &sent, [NEVER, 0, NEVER])?;
        assert!(rt; trial.ended_after(&unwritten, 5, 0), "of {words}");
    }
    Ok(())
}

// Each row: the words, the input, and how many octets are written before the report that can't be.
#[test]
fn reports_fail(rt: HostRuntime) -> Result<(), Fail> {
    let bad = "9c946ea04040e09c6e988a9a40613f\nzz\n9c946ea04040e09c6e988a9a40613f\n";
    for (words, input, octets) in [
        ("encode --opening=2 --closing=1", bad, 2592),
        ("encode --wav", bad, 0),
        ("show", bad, 24),
        ("decode --wav", "RIFF", 0),
        ("help serv", "", 0),
    ] {
        let got = run_failing(&rt, rt.alloc(), words, input.as_bytes(), [NEVER, NEVER, 0])?;
        assert_ended(&rt, words, &got, (5, octets, ""));
    }
    Ok(())
}
