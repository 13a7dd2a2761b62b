//! `bench`.
use super::{assert_asked, assert_none_taken};
use std::test::Fail;
use tnc_words::{BenchOptions, CheckOctets, Command};

/// Words that are refused, a line each.
const REFUSED: &str = "\
7
--seed 7 --octets 100001
--seed 7 --loss 91
--seed 7 --noise 2001
--seed 7 --full=true
--seed 7 --window 4
--seed 7 --fx25 48
";

/// What stands after `bench`, and what it asks for.
const BENCH: &[(&str, BenchOptions)] = &[
    (
        "--seed 7",
        BenchOptions {
            seed: 7,
            octets: 2000,
            loss: 0,
            noise: 0,
            full: false,
            wide: false,
            checks: None,
        },
    ),
    (
        "--wide --noise 2000 --fx25 32 --loss=90 --full --octets 100000 --seed 18446744073709551615 --",
        BenchOptions {
            seed: u64::MAX,
            octets: 100_000,
            loss: 90,
            noise: 2000,
            full: true,
            wide: true,
            checks: Some(CheckOctets::ThirtyTwo),
        },
    ),
];

#[test]
fn bench_is_asked_for_with_a_seed(rt: HostRuntime) -> Result<(), Fail> {
    for (line, want) in BENCH {
        assert_asked(&rt, rt.alloc(), "bench", line, Command::Bench(*want))?;
    }
    assert_none_taken(&rt, rt.alloc(), "bench", REFUSED)
}
