//! The command `bench`. The hashes of texts were computed apart from the program, from words of PCG XSH RR 64/32 and by
//! FNV-1a.
use crate::tests::assertions::assert_equal;
use std::alloc::Global;
use std::process::Abort;
use std::test::Fail;
use tnc_base::MemSink;
use tnc_bench::bench;
use tnc_words::BenchOptions;

/// No octets, and no losses.
const OPTIONS: BenchOptions = BenchOptions {
    seed: 7,
    octets: 0,
    loss: 0,
    noise: 0,
    full: true,
    wide: false,
    checks: None,
};

/// What is told of a run with so many octets of each host, in which so many of a hundred transmissions are lost.
fn told<R: Abort>(rt: &R, alloc: Global, octets: u32, loss: u8) -> Result<Vec<u8>, Fail> {
    assert!(*rt; octets <= 100_000 && loss <= 90);
    let options = BenchOptions {
        octets,
        loss,
        ..OPTIONS
    };
    let mut output = MemSink::new(alloc, 1000, Vec::new(alloc))?;
    bench(alloc, options, &mut output)?;
    Ok(output.written().to_vec(alloc)?)
}

/// Each row: how many octets are given, how many of a hundred transmissions are lost, and what is told. In the first row
/// both stations only call each other and end the link.
const RUNS: &[(u32, u8, &[u8])] = &[
    (
        0,
        0,
        b"ticks 172\n\
        sent 4 lost 0\n\
        A 1 given 0 cbf29ce484222325 got 0 cbf29ce484222325\n\
        B 1 given 0 cbf29ce484222325 got 0 cbf29ce484222325\n",
    ),
    (
        6,
        20,
        b"ticks 1020\n\
        sent 11 lost 3\n\
        A 1 given 6 5fa5b78966bba91a got 6 ce0f0eec67d63017\n\
        B 1 given 6 ce0f0eec67d63017 got 6 5fa5b78966bba91a\n",
    ),
];

#[test]
fn short_runs_are_told(rt: HostRuntime) -> Result<(), Fail> {
    for (octets, loss, want) in RUNS {
        let report = told(&rt, rt.alloc(), *octets, *loss)?;
        assert_equal(&rt, &(*octets, report.as_slice()), &(*octets, *want));
    }
    Ok(())
}

/// The ticks in the first line of a report.
fn ticks_of(report: &[u8]) -> u64 {
    let mut ticks = 0_u64;
    for octet in report.iter().skip(6) {
        if !octet.is_ascii_digit() {
            break;
        }
        ticks = ticks
            .saturating_mul(10)
            .saturating_add(u64::from(octet.saturating_sub(b'0')));
    }
    ticks
}

// 20,000 octets take over 133 seconds at 1200 bits a second, and go in 79 packets each way.
#[test]
fn a_long_run_is_told(rt: HostRuntime) -> Result<(), Fail> {
    let want = b" lost 0\n\
        A 1 given 20000 84f51cfb8f56aa80 got 20000 72e68f561754f47e\n\
        B 1 given 20000 72e68f561754f47e got 20000 84f51cfb8f56aa80\n";
    let report = told(&rt, rt.alloc(), 20_000, 0)?;
    let right = (ticks_of(&report) > 13_333, report.ends_with(want));
    assert_equal(&rt, &right, &(true, true));
    Ok(())
}
