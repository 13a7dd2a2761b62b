//! The bench of two stations: worked runs.
ghost use Rattle.std.specs.Prelude.{◌≤◌};
ghost use Rattle.channel_bench.specs.Words.{AreInRange};

use crate::assertions::assert_equal;
use channel_access::CheckOctets;
use channel_bench::{BenchReport, BenchWords, bench};
use std::test::Fail;

fn words(seed: u64, octets: u32) -> BenchWords
    requires { octets ≤ 100000 }
    ensures { AreInRange result }
{
    BenchWords {
        seed,
        octets,
        loss: 0,
        noise: 0,
        full: true,
        wide: false,
        checks: None,
    }
}

/// How many ticks a run took, and how many transmissions began and were lost.
fn counts(report: &BenchReport) -> (u64, u64, u64) {
    (report.ticks, report.transmissions, report.lost)
}

/// In the last set-up of each side all was got that the other gave, so many octets.
fn is_exchanged(report: &BenchReport, octets: usize) -> bool {
    match (report.a.last(), report.b.last()) {
        (Some(a), Some(b)) => {
            a.got.as_slice() == b.given.as_slice()
                && b.got.as_slice() == a.given.as_slice()
                && a.got.as_slice().len() == octets
        }
        _ => false,
    }
}

// Both stations only call each other and end the link: SABM, DISC and their answers, each in 43 ticks.
#[test]
fn a_link_without_data_takes_172_ticks(rt: HostRuntime) -> Result<(), Fail> {
    let report = bench(rt.alloc(), words(7, 0))?;
    assert_equal(&rt, &counts(&report), &(172, 4, 0));
    assert!(rt; is_exchanged(&report, 0));
    Ok(())
}

#[test]
fn so_does_a_link_modulo_128(rt: HostRuntime) -> Result<(), Fail> {
    let wide = BenchWords {
        wide: true,
        ..words(7, 0)
    };
    let report = bench(rt.alloc(), wide)?;
    assert_equal(&rt, &counts(&report), &(172, 4, 0));
    Ok(())
}

#[test]
fn texts_of_5000_octets_take_3952_ticks(rt: HostRuntime) -> Result<(), Fail> {
    let report = bench(rt.alloc(), words(85, 5000))?;
    assert_equal(&rt, &report.ticks, &3952);
    assert!(rt; is_exchanged(&report, 5000));
    Ok(())
}

// Each frame is sent with 16 check octets around it: the same link takes longer.
#[test]
fn texts_are_exchanged_in_blocks(rt: HostRuntime) -> Result<(), Fail> {
    let blocks = BenchWords {
        checks: Some(CheckOctets::Sixteen),
        ..words(7, 300)
    };
    let report = bench(rt.alloc(), blocks)?;
    assert!(rt; is_exchanged(&report, 300));
    Ok(())
}

// In noise, and with one of ten transmissions lost.
#[test]
fn texts_are_exchanged_in_noise(rt: HostRuntime) -> Result<(), Fail> {
    let noisy = BenchWords {
        loss: 10,
        noise: 1500,
        ..words(7, 300)
    };
    let report = bench(rt.alloc(), noisy)?;
    assert!(rt; is_exchanged(&report, 300));
    Ok(())
}
