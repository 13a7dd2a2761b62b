//! `bench` and its options.
ghost use Rattle.std.specs.Prelude.{◌≡◌, Some, IfOk, IfSome, IsErrOf, IsNone, codes, map, string_bytes};
ghost use Rattle.clap.specs.Words.{found_of, rows_of};
ghost use Rattle.tnc_words.specs.declared.command.BenchOptions.{BenchOptions};
ghost use Rattle.tnc_words.specs.Commands.{HasBenchOptions, IsBench, first_word};

use crate::command::BenchOptions;
use crate::fault::WordsFault;
use crate::modem_words::checks_or_none;
use crate::number::{Bounds, number_found, number_given};
use crate::options::BENCH;
use crate::parsing::{has_flag, parsed, text_of};
use clap::ArgMatches;
use std::alloc::Global;

/// The seeds.
const SEED: Bounds = Bounds {
    least: 0,
    greatest: u64::MAX,
};

/// The octets that each host gives in a set-up.
const OCTETS: Bounds = Bounds {
    least: 0,
    greatest: 100_000,
};

/// The transmissions of a hundred that are lost.
const LOSS: Bounds = Bounds {
    least: 0,
    greatest: 90,
};

/// The most noise of a sample.
const NOISE: Bounds = Bounds {
    least: 0,
    greatest: 2000,
};

/// Parses `bench` and the options after it.
pub(crate) fn read_bench(alloc: Global, words: &[String]) -> Result<BenchOptions, WordsFault>
    requires { first_word (map string_bytes words.now) ≡ Some (codes "bench") }
    ensures taken { IfOk result (IsBench (map string_bytes words.now)) }
    ensures refused { IsErrOf result WordsFault.Refused
        → (bench : BenchOptions) → ¬ IsBench (map string_bytes words.now) bench }
{
    let found = parsed(alloc, "bench", &BENCH, words)?;
    bench_options(&found).ok_or(WordsFault::Refused)
}

/// The options of `bench` among what was found.
fn bench_options(found: &ArgMatches) -> Option<BenchOptions>
    ensures options { IfSome result (HasBenchOptions (rows_of (found_of found.now))) }
    ensures none { IsNone result → (bench : BenchOptions) → ¬ HasBenchOptions (rows_of (found_of found.now)) bench }
{
    Some(BenchOptions {
        seed: number_given(found, "seed", SEED)?,
        octets: number_found(found, "octets", 2000, OCTETS)? as u32,
        loss: number_found(found, "loss", 0, LOSS)? as u8,
        noise: number_found(found, "noise", 0, NOISE)? as u16,
        full: has_flag(found, "full"),
        wide: has_flag(found, "wide"),
        checks: checks_or_none(text_of(found, "fx25"))?,
    })
}
