//! The bench: ticks until the run is over.
ghost use Rattle.std.specs.Prelude.{◌≡◌, ◌+◌, ◌<◌, ◌^◌, ℕ, IfOk, IfErr, OnOk};
ghost use Rattle.channel_bench.specs.BenchRun.{IsEndedBy, IsFaultOf, IsOver};
ghost use Rattle.channel_bench.specs.HeldBench.{HasMade, IsGoing};
ghost use Rattle.channel_bench.specs.KeepsOrder.{KeepsOrder};
ghost use Rattle.channel_bench.specs.declared.words.BenchWords.{BenchWords};
ghost use Rattle.channel_bench.specs.Words.{AreInRange, most_ticks};

use crate::report::{BenchFault, BenchReport};
use crate::run::Run;
use crate::trouble::Trouble;
use crate::words::BenchWords;
use std::alloc::Global;

/// Runs two stations joined by sound in one process, as the words say, until A has sent d (AGWPE) and both host
/// programs were told d after it. Then each got in each set-up a first part of what the other gave in the set-up that
/// is its origin, and these come in order ([`bench_law`](crate::bench_law)). Fails if a heard frame matches none that
/// was sent, if SABM, SABME or DISC finds no quiet channel, if the run is not over after the most ticks that it may
/// take, and for want of memory.
pub fn bench(alloc: Global, words: BenchWords) -> Result<BenchReport, BenchFault>
    requires { AreInRange words }
    ensures over { IfOk result (IsOver words) }
    ensures order { IfOk result (KeepsOrder words) }
    ensures fault { IfErr result (IsFaultOf words) }
{
    let mut run = Run::new(alloc, words)?;
    finish(&mut run, words)
}

/// Makes ticks until the run is over, and says what came to pass.
fn finish(run: &mut Run, words: BenchWords) -> Result<BenchReport, BenchFault>
    requires { IsGoing words 0 run.old × AreInRange words }
    ensures over { IfOk result (IsOver words) }
    ensures fault { IfErr result (IsFaultOf words) }
{
    let most = most_ticks(words.octets);
    for _ in 0..most {
        advance(run)?;
        if run.is_over() {
            return Ok(run.report()?);
        }
    }
    Err(BenchFault::Spent { ticks: most })
}

/// Makes a tick, unless something ends the run.
fn advance(run: &mut Run) -> Result<(), BenchFault>
    requires { (w : BenchWords) × (count : ℕ) × IsGoing w count run.old × AreInRange w × (count < 2 ^ 32) }
    ensures made { (w : BenchWords) (count : ℕ) → IsGoing w count run.old
        → OnOk result (HasMade w (count + 1) run.new) }
    ensures fault { (w : BenchWords) (count : ℕ) → IsGoing w count run.old → count < most_ticks w.octets
        → IfErr result (IsFaultOf w) }
{
    run.tick()?;
    match run.shared.trouble.take() {
        Some(trouble) => Err(fault_of(trouble)),
        None => Ok(()),
    }
}

/// The fault that tells of what ended a run.
fn fault_of(trouble: Trouble) -> BenchFault
    ensures { (w : BenchWords) → IsEndedBy w trouble → IsFaultOf w result }
{
    match trouble {
        Trouble::Stray { octets } => BenchFault::Stray { octets },
        Trouble::Unquiet { index } => BenchFault::NotQuiet { index },
    }
}

/// The most ticks that a run may take.
fn most_ticks(octets: u32) -> u64
    ensures { result ≡ most_ticks octets }
{
    60_000 + 3_000 * ((u64::from(octets) + 255) / 256)
}
