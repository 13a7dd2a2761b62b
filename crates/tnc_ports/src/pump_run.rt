//! The pump beside a job that takes from the ring what it publishes there.
ghost use Rattle.std.specs.Prelude.{◌≡◌, Bool, List, [], ◌≤◌, Some, All, IfSome, IsSome, IsNone, is_some};
ghost use Rattle.std.specs.Thread.{IsSync};
ghost use Rattle.sample_ring.specs.Ends.{ring_id, writer_ring, published_by};
ghost use Rattle.sample_ring.specs.declared.ring.Ring.{Ring};
ghost use Rattle.sound_rate.specs.declared.rate.Rate.{Rate};
ghost use Rattle.tnc_base.specs.Streams.{SourceTold};
ghost use Rattle.tnc_ports.specs.PumpRun.{Pumps};
ghost use Rattle.tnc_ports.specs.SampledPump.{IsWriting, IsPumpedIf, HasRun};
ghost use Rattle.tnc_ports.specs.Starts.{CountsUnless, lock_of};

use crate::pumping::{Pumped, pump};
use crate::spawner::{Spawner, beside};
use crate::starting::Start;
use sample_ring::{Ring, Writer};
use sound_rate::Rate;
use std::mem;
use std::sync::{OnceToken, Wait};
use std::thread::Threads;
use tnc_base::Source;

/// The writer of the ring, until the pump has taken it.
#[derive(Drop)]
enum Pumping<'a> {
    Before(Writer),
    After(Option<Pumped>, OnceToken<'a, bool>),
    Nothing,
}

/// Runs the pump beside a job, which is told whether the pump begins. If no thread can be started, it does not: then
/// nothing is read, the spawner has counted a fault, and there is no answer.
pub fn pump_beside<R: Threads + Wait + Sync, I: Source + Send, W: Spawner, J: FnMut(bool)>(
    rt: &R,
    ring: &Ring,
    writer: Writer,
    rate: Rate,
    input: &mut I,
    spawner: &mut W,
    job: &mut J,
) -> Option<Pumped>
    requires ring { writer_ring writer ≡ ring_id ring.now }
    requires new { published_by writer ≡ [] }
    requires job { (begins : Bool) → J.pre job.old begins }
    ensures pumped { IfSome result (λ pumped. Pumps rate ring.now pumped (I.told input.old) (I.told input.new)) }
    ensures unread { IsNone result → I.told input.new ≡ I.told input.old }
    ensures told { J.step job.old (is_some result) tt job.new }
    ensures counted { CountsUnless (is_some result) (W.faults spawner.old) (W.faults spawner.new) }
{
    let start = Start::new();
    let mut pumping = Pumping::Before(writer);
    let mut told = None;
    run(
        rt,
        ring,
        rate,
        &start,
        &mut pumping,
        &mut told,
        input,
        spawner,
        job,
    );
    settle(&start, pumping, told)
}

/// Runs the pump beside the job.
fn run<'a, R: Threads + Wait + Sync, I: Source + Send, W: Spawner, J: FnMut(bool)>(
    rt: &R,
    ring: &Ring,
    rate: Rate,
    start: &'a Start,
    pumping: &mut Pumping<'a>,
    told: &mut Option<OnceToken<'a, bool>>,
    input: &mut I,
    spawner: &mut W,
    job: &mut J,
)
    requires writing { IsWriting ring.now pumping.old }
    requires job { (begins : Bool) → J.pre job.old begins }
    ensures pumped { HasRun (lock_of start.now) rate ring.now pumping.new (I.told input.old) (I.told input.new) }
    ensures told { IfSome told.new (λ token. (token.of ≡ lock_of start.now)
        × J.step job.old token.value tt job.new
        × CountsUnless token.value (W.faults spawner.old) (W.faults spawner.new)) }
    ensures some { IsSome told.new }
{
    let order = spawner.order();
    beside(
        rt,
        order,
        &mut ||
            requires { IsSync R.row × IsWriting ring.now pumping.now }
            ensures { HasRun (lock_of start.entry.now) rate ring.entry.now pumping.exit.now
                (I.told input.entry.now) (I.told input.exit.now) }
        { pump_once(rt, ring, rate, start, pumping, input) },
        &mut ||
            requires { IsSync R.row × ((begins : Bool) → J.pre job.now begins) }
            ensures { IsSome told.exit.now × IfSome told.exit.now (λ token. (token.of ≡ lock_of start.entry.now)
                × J.step job.entry.now token.value tt job.exit.now
                × CountsUnless token.value (W.faults spawner.entry.now) (W.faults spawner.exit.now)) }
        { *told = Some(tell(rt, start, spawner, job)) },
    );
}

/// Calls the job once the pump has begun or is given up.
fn tell<'a, R: Wait, W: Spawner, J: FnMut(bool)>(
    rt: &R,
    start: &'a Start,
    spawner: &mut W,
    job: &mut J,
) -> OnceToken<'a, bool>
    requires { (begins : Bool) → J.pre job.old begins }
    ensures { (result.of ≡ lock_of start.now) × J.step job.old result.value tt job.new
        × CountsUnless result.value (W.faults spawner.old) (W.faults spawner.new) }
{
    let token = spawner.await_pump(rt, start);
    job(start.begins(&token));
    token
}

/// Lets the pump take the writer, and end the ring, unless it is given up.
fn pump_once<'a, R: Wait, I: Source>(
    rt: &R,
    ring: &Ring,
    rate: Rate,
    start: &'a Start,
    pumping: &mut Pumping<'a>,
    input: &mut I,
)
    requires { IsWriting ring.now pumping.old }
    ensures { HasRun (lock_of start.now) rate ring.now pumping.new (I.told input.old) (I.told input.new) }
{
    match mem::replace(pumping, Pumping::Nothing) {
        Pumping::Before(writer) => {
            let token = start.begin(rt);
            let pumped = pump_if(start.begins(&token), ring, writer, rate, input);
            *pumping = Pumping::After(pumped, token);
        }
        Pumping::After(_pumped, _token) => {}
        Pumping::Nothing => {}
    }
}

/// Pumps if the pump begins.
fn pump_if<I: Source>(
    begins: bool,
    ring: &Ring,
    writer: Writer,
    rate: Rate,
    input: &mut I,
) -> Option<Pumped>
    requires ring { writer_ring writer ≡ ring_id ring.now }
    requires new { published_by writer ≡ [] }
    ensures { IsPumpedIf begins rate ring.now result (I.told input.old) (I.told input.new) }
{
    if begins {
        Some(pump(input, ring, writer, rate))
    } else {
        None
    }
}

/// What was pumped, once both have ended.
fn settle<'a>(
    start: &'a Start,
    pumping: Pumping<'a>,
    told: Option<OnceToken<'a, bool>>,
) -> Option<Pumped>
    requires ran { (rate : Rate) × (ring : Ring) × (input : SourceTold) × (left : SourceTold)
        × HasRun (lock_of start.now) rate ring pumping input left }
    requires told { IsSome told × IfSome told (λ token. token.of ≡ lock_of start.now) }
    ensures pumped { (rate : Rate) (ring : Ring) (input left : SourceTold)
        → HasRun (lock_of start.now) rate ring pumping.entry input left
        → IsPumpedIf (is_some result) rate ring result input left }
    ensures told { IfSome told.entry (λ token. token.value ≡ is_some result) }
{
    match (pumping, told) {
        (Pumping::After(pumped, token), Some(other)) => {
            token.agrees(&other);
            pumped
        }
        (Pumping::After(_pumped, _token), None) => unreachable!(),
        (Pumping::Before(_writer), _) => unreachable!(),
        (Pumping::Nothing, _) => unreachable!(),
    }
}
