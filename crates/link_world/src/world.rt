//! Two links and the frames in flight between them.
ghost use Rattle.std.specs.Prelude.{◌≡◌, ℕ, ◌+◌, ◌-◌, ◌^◌, ◌⊎◌, ◌↔◌, ◌≤◌, min, length, false, Ok, Err, Some, None};
ghost use Rattle.std.specs.Prelude.{IfOk, IfErr, OnOk, OnErr};
ghost use Rattle.std.specs.Result.{IsErrOf};
ghost use Rattle.link_machine.specs.Params.{HasWindows, IsRefusedWindow};
ghost use Rattle.link_world.specs.Held.{stop_of};

use crate::end::End;
use crate::event::Event;
use crate::fault::WorldFault;
use crate::happening::happen;
use crate::side::Side;
use link_machine::{NewFault, Params, Told};
use selective_reject::{BadWindow, check_window};
use std::alloc::Global;
use std::marker::Model;

/// Two links, whose ends are called A and B, and the frames in flight towards each.
#[derive(Drop)]
pub struct World {
    alloc: Global,
    a: Side,
    b: Side,
    // How many calls of `apply` there were.
    calls: u64,
    // The number of the one at which the world stopped.
    stopped: Option<u64>,
}

impl Model for World {
    ghost use Rattle.link_world.specs.StandsFor.{HeldWorld};
    ghost use Rattle.link_world.specs.Held.{AreSides};

    ghost Value = { HeldWorld };

    ghost view = { λ w. record { a = w.a; b = w.b; calls = w.calls; stopped = w.stopped } };

    ghost invariant = { λ w. AreSides w.a w.b };
}

impl World {
    ghost use Rattle.link_world.specs.StandsFor.{IsAlike};
    ghost use Rattle.link_world.specs.World.{World as State, first_world, step, told_by, towards, end_of};
    ghost use Rattle.link_world.specs.Faults.{cause_in, is_there, refused_at};
    ghost use Rattle.link_world.specs.StandsFor.{StandsFor};
    ghost use Rattle.link_world.specs.declared.fault.WorldFault.{WorldFault};
    ghost use Rattle.link_machine.specs.declared.fault.LinkFault.{LinkFault};

    /// Two idle links, and nothing in flight. Refused if a window is 0, over 7 with REJ or over 4 with SREJ (AX.25
    /// 2.2 section 6.4); that of A is told first.
    pub fn new(alloc: Global, a: Params, b: Params) -> Result<World, NewFault>
        ensures stands_for { IfOk result (λ world. StandsFor world (first_world a b)) }
        ensures running { IfOk result (λ world. (world.calls ≡ 0) × (world.stopped ≡ None)) }
        ensures bad_window { (window : ℕ) → IsErrOf result (NewFault.BadWindow window)
            ↔ IsRefusedWindow a window ⊎ (HasWindows a × IsRefusedWindow b window) }
    {
        if let Err(BadWindow { window }) = check_windows(&a) {
            return Err(NewFault::BadWindow { window });
        }
        if let Err(BadWindow { window }) = check_windows(&b) {
            return Err(NewFault::BadWindow { window });
        }
        let Ok(a) = Side::new(alloc, a, End::A.path()) else {
            return Err(NewFault::Memory);
        };
        let Ok(b) = Side::new(alloc, b, End::B.path()) else {
            return Err(NewFault::Memory);
        };
        Ok(World {
            alloc,
            a,
            b,
            calls: 0,
            stopped: None,
        })
    }

    /// Makes an event of one end, and answers what the end was told. The refusals come in the order of [`WorldFault`],
    /// all but the last before memory is taken, and each leaves both links and all frames in flight as they were. Once
    /// the channel was not quiet the world has stopped, and refuses every event alike.
    pub fn apply(&mut self, event: Event) -> Result<Vec<Told>, WorldFault>
        // If the links and the frames stand for a world, the event is the step of that world.
        ensures stands_for { (w : State) → StandsFor self.old w → OnOk result (StandsFor self.new (step w event)) }
        ensures told { (w : State) → StandsFor self.old w → IfOk result (λ told. told.items ≡ told_by w event) }
        ensures unchanged { (w : State) → StandsFor self.old w → OnErr result (StandsFor self.new w) }

        // What is refused leaves the links, the frames in flight and the one to be heard as they were.
        ensures kept { OnErr result (IsAlike self.old self.new) }

        // If there is a cause, that is the answer; if there is none, it is refused for want of memory at most.
        ensures refused { (w : State) (fault : WorldFault) → StandsFor self.old w
            → cause_in self.old.stopped self.new.calls w event ≡ Some fault → result ≡ Err fault }
        ensures fault { (w : State) → StandsFor self.old w
            → IfErr result (λ fault. (fault ≡ WorldFault.Memory)
            ⊎ (cause_in self.old.stopped self.new.calls w event ≡ Some fault)) }
        ensures nothing_there { (w : State) → StandsFor self.old w → self.old.stopped ≡ None
            → is_there event (length (towards (end_of event) w)) ≡ false → result ≡ Err WorldFault.NothingThere }
        ensures link_refuses { (w : State) (fault : LinkFault) → StandsFor self.old w → self.old.stopped ≡ None
            → refused_at event w ≡ Some fault → result ≡ Err (WorldFault.Link fault) }
        ensures stopped { (index : ℕ) → self.old.stopped ≡ Some index → result ≡ Err (WorldFault.NotQuiet index) }

        // All calls are counted, and the number of the one at which the world stops is kept.
        ensures calls { self.new.calls ≡ min (self.old.calls + 1) (2 ^ 64 - 1) }
        ensures stops { (index : ℕ) → (self.new.stopped ≡ Some index) ↔ (result ≡ Err (WorldFault.NotQuiet index)) }
    {
        self.calls = self.calls.saturating_add(1);
        if let Some(index) = self.stopped {
            return Err(WorldFault::NotQuiet { index });
        }
        let outcome = happen(self.alloc, &mut self.a, &mut self.b, event, self.calls);
        self.stopped = stop_of(&outcome);
        outcome
    }

    /// How many frames are in flight towards the end.
    pub fn flight(&self, end: End) -> usize
        ensures { (w : State) → StandsFor self.now w → result ≡ length (towards end w) }
    {
        match end {
            End::A => self.a.towards.len(),
            End::B => self.b.towards.len(),
        }
    }
}

/// Refuses the first window of an end that does not fit its modulus.
fn check_windows(params: &Params) -> Result<(), BadWindow>
    ensures windows { OnOk result (HasWindows params.now) }
    ensures bad_window { (window : ℕ) → IsErrOf result (record { window = window })
        ↔ IsRefusedWindow params.now window }
{
    check_window(8, params.window, params.mode)?;
    check_window(128, params.wide_window, params.wide_mode)
}

/// The number of the event that found the channel not quiet, by what it answered.
fn stop_of(outcome: &Result<Vec<Told>, WorldFault>) -> Option<u64>
    ensures { result ≡ stop_of outcome.now }
{
    match outcome {
        Err(WorldFault::NotQuiet { index }) => Some(*index),
        _ => None,
    }
}
