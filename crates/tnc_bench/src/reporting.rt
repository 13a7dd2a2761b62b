//! The text that tells of a run that is over.
ghost use Rattle.std.specs.Prelude.{◌≡◌, ◌++◌, ℕ, IfOk, length, string_bytes};
ghost use Rattle.channel_bench.specs.declared.report.SetUp.{SetUp};
ghost use Rattle.tnc_bench.specs.Reported.{hash_digits, report_text, set_up_line, set_up_lines};

use channel_bench::{BenchReport, SetUp};
use std::alloc::Global;
use tnc_base::{OutOfMemory, fnv};

/// The lines of a report: its counts, then the set-ups of A and of B.
#[tactic(auto, unfolding(crate::specs::Reported::report_text))]
pub(crate) fn report_text(alloc: Global, report: &BenchReport) -> Result<String, OutOfMemory>
    ensures { IfOk result (λ text. string_bytes text ≡ report_text report.now) }
{
    let ticks = report.ticks;
    let sent = report.transmissions;
    let lost = report.lost;
    let a = set_up_lines(alloc, "A", &report.a)?;
    let b = set_up_lines(alloc, "B", &report.b)?;
    Ok(format!(in alloc; "ticks {ticks}\nsent {sent} lost {lost}\n{a}{b}")?)
}

/// A line for each set-up of a side.
fn set_up_lines(alloc: Global, side: &str, set_ups: &[SetUp]) -> Result<String, OutOfMemory>
    ensures { IfOk result (λ text. string_bytes text ≡ set_up_lines side.now 1 set_ups.now) }
{
    let mut lines = String::new(alloc);
    for (place, set_up) in set_ups.iter().enumerate() {
        let line = set_up_line(alloc, side, place as u64 + 1, set_up)?;
        lines.push_str(&line)?;
    }
    Ok(lines)
}

/// The line of one set-up.
#[tactic(auto, unfolding(crate::specs::Reported::set_up_line))]
fn set_up_line(
    alloc: Global,
    side: &str,
    number: u64,
    set_up: &SetUp,
) -> Result<String, OutOfMemory>
    ensures { IfOk result (λ line. string_bytes line ≡ set_up_line side.now number set_up.now) }
{
    let given = set_up.given.as_slice();
    let got = set_up.got.as_slice();
    let given_hash = hash_digits(alloc, given)?;
    let got_hash = hash_digits(alloc, got)?;
    let given = given.len();
    let got = got.len();
    Ok(format!(in alloc; "{side} {number} given {given} {given_hash} got {got} {got_hash}\n")?)
}

/// The FNV-1a hash of octets, in 16 lower-case hexadecimal digits.
fn hash_digits(alloc: Global, octets: &[u8]) -> Result<String, OutOfMemory>
    ensures { IfOk result (λ digits. string_bytes digits ≡ hash_digits octets.now) }
{
    Ok(hex::encode(alloc, fnv(octets).to_be_bytes())?)
}
