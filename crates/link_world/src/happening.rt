//! One event at an end, and what it changes there and on the way to the partner.
ghost use Rattle.std.specs.Prelude.{◌≡◌, ◌+◌, ◌&&◌, ◌==◌, not, IfOk, OnErr};
ghost use Rattle.link_world.specs.declared.event.Event.TheVariants.{Hear, Lose};
ghost use Rattle.link_world.specs.declared.end.End.{End as AnyEnd};
ghost use Rattle.link_world.specs.World.{World as State};
ghost use Rattle.link_world.specs.Faults.{near_cause, cause};
ghost use Rattle.link_world.specs.Held.{event_of, IsSide, AreSides, StandForBoth, MadeStep, MadeStepOf, IsAnswered, IsKept};
ghost use Rattle.link_world.specs.Held.{Flew};

use crate::end::End;
use crate::event::Event;
use crate::fault::WorldFault;
use crate::flight::asks;
use crate::request::Request;
use crate::side::Side;
use link_machine::{Acts, Told};
use std::alloc::Global;
use tnc_base::OutOfMemory;

/// Lets the event with this number happen at its end.
pub(crate) fn happen(
    alloc: Global,
    a: &mut Side,
    b: &mut Side,
    event: Event,
    number: u64,
) -> Result<Vec<Told>, WorldFault>
    requires { AreSides a.old b.old }
    ensures step { (w : State) → StandForBoth a.old b.old w
        → IfOk result (λ told. MadeStepOf event w a.new b.new told.items) }
    ensures answered { (w : State) → StandForBoth a.old b.old w → IsAnswered (cause number w event) result }
    ensures kept { OnErr result (IsKept a.old b.old a.new b.new) }
    ensures formed { AreSides a.new b.new }
{
    match event.end() {
        End::A => happen_near(alloc, a, b, event, number),
        End::B => happen_near(alloc, b, a, event, number),
    }
}

/// Lets the event happen at the end `near`, whose partner is `far`.
fn happen_near(
    alloc: Global,
    near: &mut Side,
    far: &mut Side,
    event: Event,
    number: u64,
) -> Result<Vec<Told>, WorldFault>
    requires { AreSides near.old far.old }
    ensures step { (w : State) → StandForBoth near.old far.old w
        → IfOk result (λ told. MadeStep event w near.new far.new told.items) }
    ensures answered { (w : State) → StandForBoth near.old far.old w → IsAnswered (near_cause number event w) result }
    ensures kept { OnErr result (IsKept near.old far.old near.new far.new) }
    ensures formed { AreSides near.new far.new }
{
    match event {
        Event::Connect(_) => take(near, far, Request::Connect, number),
        Event::Send(_, packet) => take(near, far, Request::Send(packet), number),
        Event::Disconnect(_) => take(near, far, Request::Disconnect, number),
        Event::Tick(_, waiting) => take(near, far, Request::Tick(waiting), number),
        Event::Seize(_, last, full) => take(near, far, Request::Seize(last, full), number),
        Event::Hear(_) => hear(alloc, near, far, number),
        Event::Lose(_, index) => lose(alloc, near, far, index, number),
    }
}

/// Lets the end's link take a request or a tick. A copy takes it, and becomes the link once its frames are on their
/// way.
fn take(
    near: &mut Side,
    far: &mut Side,
    request: Request,
    number: u64,
) -> Result<Vec<Told>, WorldFault>
    requires { AreSides near.old far.old }
    ensures step { (w : State) (end : AnyEnd) → StandForBoth near.old far.old w
        → IfOk result (λ told. MadeStep (event_of request end) w near.new far.new told.items) }
    ensures answered { (w : State) (end : AnyEnd) → StandForBoth near.old far.old w
        → IsAnswered (near_cause number (event_of request end) w) result }
    ensures kept { OnErr result (IsKept near.old far.old near.new far.new) }
    ensures formed { AreSides near.new far.new }
{
    if let Some(fault) = request.refusal(&near.link) {
        return Err(WorldFault::from(fault));
    }
    if is_noisy(request.asks(&near.link), far.asking(), near.answering(0)) {
        return Err(WorldFault::NotQuiet { index: number });
    }
    let mut link = near.link.copy()?;
    let acts = request.ask(&mut link)?;
    let told = deliver(far, acts, false)?;
    near.link = link;
    Ok(told)
}

/// Loses a frame in flight towards the end.
fn lose(
    alloc: Global,
    near: &mut Side,
    far: &Side,
    index: usize,
    number: u64,
) -> Result<Vec<Told>, WorldFault>
    requires { AreSides near.old far.now }
    ensures step { (w : State) (end : AnyEnd) → StandForBoth near.old far.now w
        → IfOk result (λ told. MadeStep (Lose end index) w near.new far.now told.items) }
    ensures answered { (w : State) (end : AnyEnd) → StandForBoth near.old far.now w
        → IsAnswered (near_cause number (Lose end index) w) result }
    ensures kept { OnErr result (IsKept near.old far.now near.new far.now) }
    ensures formed { IsSide near.new }
{
    if near.towards.remove(index).is_none() {
        return Err(WorldFault::NothingThere);
    }
    Ok(Vec::new(alloc))
}

/// Lets the end hear the frame at the front, as its link reads it; one that it refuses is passed over. A copy of the
/// link hears it, and becomes the link once its frames are on their way.
fn hear(
    alloc: Global,
    near: &mut Side,
    far: &mut Side,
    number: u64,
) -> Result<Vec<Told>, WorldFault>
    requires { AreSides near.old far.old }
    ensures step { (w : State) (end : AnyEnd) → StandForBoth near.old far.old w
        → IfOk result (λ told. MadeStep (Hear end) w near.new far.new told.items) }
    ensures answered { (w : State) (end : AnyEnd) → StandForBoth near.old far.old w
        → IsAnswered (near_cause number (Hear end) w) result }
    ensures kept { OnErr result (IsKept near.old far.old near.new far.new) }
    ensures formed { AreSides near.new far.new }
{
    let coming = near.answering(1);
    let Some(heard) = near.towards.front() else {
        return Err(WorldFault::NothingThere);
    };
    if is_noisy(heard.asks_when_heard(&near.link), far.asking(), coming) {
        return Err(WorldFault::NotQuiet { index: number });
    }
    let Some(frame) = heard.read_in(alloc, near.link.modulus())? else {
        let _ = near.towards.pop_front();
        return Ok(Vec::new(alloc));
    };
    let mut link = near.link.copy()?;
    let acts = link.frame(&frame)?;
    let told = deliver(far, acts, asks(&frame.kind))?;
    let _ = near.towards.pop_front();
    near.link = link;
    Ok(told)
}

/// Whether a SABM, SABME or DISC of an end, which it sends if it `asks`, would enter a channel that is not quiet: that
/// many earlier ones are in flight towards its partner, and that many answers to one are coming.
fn is_noisy(asks: bool, earlier: usize, coming: usize) -> bool
    ensures { result ≡ (asks && not (earlier + coming == 0)) }
{
    asks && earlier.saturating_add(coming) > 0
}

/// Sends what a link sent on its way to `far`.
fn deliver(far: &mut Side, acts: Acts, on_ask: bool) -> Result<Vec<Told>, OutOfMemory>
    ensures flew { IfOk result (λ told.
        Flew acts on_ask far.old.towards.items far.new.towards.items told.items) }
    ensures towards { OnErr result (far.new.towards.items ≡ far.old.towards.items) }
    ensures link { far.new.link ≡ far.old.link }
{
    far.make_room(acts.frames.len())?;
    far.append(acts.frames, on_ask);
    Ok(acts.told)
}
