//! `call`.
use super::assert_asked;
use arrayvec::ArrayVec;
use ax25_address::Call;
use std::test::Fail;
use tnc_words::{CallOptions, Command};

/// The words that `call` needs.
const LEAST: &str = "call --agw 8000 --from N7LEM --to=nj7p-15";

/// The calls of a list.
fn calls(texts: &[&str]) -> Result<ArrayVec<Call, 8>, Fail> {
    let mut calls = ArrayVec::new();
    for text in texts {
        let _ = calls.try_push(Call::parse(text)?);
    }
    Ok(calls)
}

/// Each row: what stands after the least words, the repeaters, the octets that are awaited, and the polls.
const CALLS: &[(&str, &[&str], u32, u32)] = &[
    ("", &[], 0, 100_000),
    ("--expect 1000000 --polls=1", &[], 1_000_000, 1),
    ("--expect=0 --polls 1000000", &[], 0, 1_000_000),
    ("--via N7LEM-1", &["N7LEM-1"], 0, 100_000),
    ("--via=n7lem-1,W1AW", &["N7LEM-1", "W1AW"], 0, 100_000),
    ("--via A1,A1,A1", &["A1", "A1", "A1"], 0, 100_000),
    (
        "--via A1,B2,C3,D4,E5,F6,G7,H8-8",
        &["A1", "B2", "C3", "D4", "E5", "F6", "G7", "H8-8"],
        0,
        100_000,
    ),
];

/// What a row asks for.
fn wanted(via: &[&str], expect: u32, polls: u32) -> Result<Command, Fail> {
    Ok(Command::Call(CallOptions {
        agw: 8000,
        own: Call::parse("N7LEM")?,
        remote: Call::parse("NJ7P-15")?,
        via: calls(via)?,
        expect,
        polls,
    }))
}

#[test]
fn call_takes_its_way_and_how_long_it_waits(rt: HostRuntime) -> Result<(), Fail> {
    for (line, via, expect, polls) in CALLS {
        let want = wanted(via, *expect, *polls)?;
        assert_asked(&rt, rt.alloc(), LEAST, line, want)?;
    }
    Ok(())
}
