//! What a link keeps, and the acts that change it without a word.
ghost use Rattle.std.specs.Prelude.{◌≡◌, ℕ, ◌%◌, ◌<◌, ◌≤◌, ◌↔◌, ◌==◌, true, Bool, IfOk, OnOk};
ghost use Rattle.std.specs.Result.{IsErrOf};
ghost use Rattle.ax25_frames.specs.ControlField.{numbers};
ghost use Rattle.selective_reject.specs.Numbers.{IsModulus};
ghost use Rattle.link_machine.specs.Params.{HasWindows, IsRefusedWindow};
ghost use Rattle.link_machine.specs.StandsFor.{StandsFor};
ghost use Rattle.link_machine.specs.Machine.{Machine as State, fresh, emptied, in_modulus, narrowed, unquit, is_valid};
ghost use Rattle.link_machine.specs.Machine.{named, modulus_named, new_machine};
ghost use Rattle.link_machine.specs.Turn.{Turn, changing};
ghost use Rattle.link_machine.specs.Acts.{acknowledged, gone_back, none_again, picked_out, polled, recover};
ghost use Rattle.link_machine.specs.Step.{settled};
ghost use Rattle.link_machine.specs.Held.{IsLink, IsWhole, Holds, Shows, frames_to_close};
ghost use Rattle.link_machine.specs.Room.{frames_left};
ghost use Rattle.link_machine.specs.declared.room.Room.{Room};

use crate::control::Control;
use crate::fault::{LinkFault, NewFault};
use crate::params::{FittingParams, Params};
use crate::room::Room as EventRoom;
use crate::state::LinkState;
use ax25_address::Path;
use ax25_frames::Modulus;
use selective_reject::{BadWindow, InStore, OutStore};
use std::alloc::Global;
use tnc_base::OutOfMemory;

/// What a link keeps: its path and its variables. Numbers are kept modulo the modulus.
#[derive(Drop)]
pub struct Machine {
    /// From this side to the other.
    pub path: Path,
    /// What the link was made with.
    pub params: FittingParams,
    /// The state, the conditions, the retries and the timers.
    pub control: Control,
    /// V(A), V(S) and the packets that are not acknowledged.
    pub outgoing: OutStore,
    /// V(R), the packets that came before their turn, the modulus, k, and how lost frames are asked for.
    pub incoming: InStore,
}

/// How many sequence numbers a modulus has.
fn numbers(modulus: Modulus) -> u8
    ensures value { result ≡ numbers modulus }
    ensures known { IsModulus result }
{
    match modulus {
        Modulus::Eight => 8,
        Modulus::OneTwentyEight => 128,
    }
}

impl Machine {
    /// An idle link on a path.
    pub(crate) fn new(alloc: Global, params: Params, path: Path) -> Result<Machine, NewFault>
        ensures stands_for { IfOk result (λ machine. StandsFor machine (new_machine path params)) }
        ensures whole { IfOk result IsWhole }
        ensures windows { OnOk result (HasWindows params) }
        ensures bad_window { (window : ℕ) → IsErrOf result (NewFault.BadWindow window)
            ↔ IsRefusedWindow params window }
    {
        let fitting = match FittingParams::check(params) {
            Ok(fitting) => fitting,
            Err(BadWindow { window }) => return Err(NewFault::BadWindow { window }),
        };
        let Ok(incoming) = InStore::new(alloc, 8, params.window, params.mode) else {
            return Err(NewFault::Memory);
        };
        let Ok(outgoing) = OutStore::new(alloc) else {
            return Err(NewFault::Memory);
        };
        let hops = path.repeaters.len() as u8;
        Ok(Machine {
            path,
            params: fitting,
            control: Control::idle(hops, params),
            outgoing,
            incoming,
        })
    }

    /// The same machine, in memory of its own.
    pub(crate) fn copy(&self, alloc: Global) -> Result<Machine, OutOfMemory>
        ensures { IfOk result (λ copy. copy ≡ self.now) }
    {
        Ok(Machine {
            path: self.path.with_role(self.path.role),
            params: self.params.copy(),
            control: self.control,
            outgoing: self.outgoing.copy(alloc)?,
            incoming: self.incoming.copy(alloc)?,
        })
    }

    /// The refusal of a request in this state.
    pub(crate) fn wrong_state(&self) -> LinkFault
        ensures { result ≡ LinkFault.WrongState self.now.control.state self.now.control.quit }
    {
        LinkFault::WrongState {
            state: self.control.state,
            quit: self.control.quit,
        }
    }

    /// Whether numbers are modulo 128.
    pub(crate) fn is_wide(&self) -> bool
        ensures { result ≡ (self.now.incoming.modulus == 128) }
    {
        self.incoming.modulus() == 128
    }

    /// The modulus of its numbers.
    pub(crate) fn modulus(&self) -> Modulus
        ensures { result ≡ modulus_named self.now.incoming.modulus }
    {
        if self.is_wide() {
            Modulus::OneTwentyEight
        } else {
            Modulus::Eight
        }
    }

    /// Counts in a modulus from here on, in its window, and asks for lost frames as in that modulus. V(R) is 0, and
    /// nothing is stored or asked for.
    pub(crate) fn count_in(&mut self, modulus: Modulus)
        ensures holds { (m : State) → Holds self.old m → Holds self.new (in_modulus (numbers modulus) m) }
        ensures control { self.new.control ≡ self.old.control }
    {
        let window = self.params.window_in(modulus);
        let mode = self.params.mode_in(modulus);
        self.incoming.begin(numbers(modulus), window, mode);
    }

    /// Counts modulo 8, as a link that is not there does.
    pub(crate) fn narrow(&mut self)
        ensures holds { (m : State) → Holds self.old m → Holds self.new (narrowed m) }
        ensures control { self.new.control ≡ self.old.control }
    {
        self.count_in(Modulus::Eight);
    }

    /// The numbers, conditions and timers of a set-up that begins. What was given to be sent stays, and so do the
    /// modulus and a wish to disconnect.
    pub(crate) fn begin(&mut self)
        ensures { (m : State) → Holds self.old m → Holds self.new (fresh m) }
    {
        self.control.begin(&self.params);
        self.outgoing.restart();
        self.incoming.clear();
    }

    /// Forgets what was given to be sent, and a wish to disconnect.
    pub(crate) fn empty(&mut self)
        ensures holds { (m : State) → Holds self.old m → Holds self.new (emptied m) }
        ensures control { self.new.control ≡ unquit self.old.control }
    {
        self.control.quit = false;
        self.outgoing.clear();
    }

    /// Takes a valid N(R) as an acknowledgement.
    pub(crate) fn acknowledge(&mut self, nr: u8)
        requires { nr < self.old.incoming.modulus }
        ensures holds { (m : State) → Holds self.old m → is_valid nr m ≡ true
            → Holds self.new (acknowledged (named nr m) m) }
        ensures formed { IsLink self.old → IsLink self.new }
        ensures incoming { self.new.incoming ≡ self.old.incoming }
    {
        if let Ok(count) = self.outgoing.acknowledge(self.incoming.modulus(), nr) {
            let all = !self.outgoing.is_waiting();
            self.control.acknowledge(count > 0, all);
        }
    }

    /// Sends again from V(A) on, unless numbers that SREJ asked for since the poll are still to be sent.
    pub(crate) fn go_back(&mut self)
        ensures holds { (m : State) → Holds self.old m → Holds self.new (gone_back m) }
        ensures incoming { self.new.incoming ≡ self.old.incoming }
    {
        let kept = self.control.picked && self.outgoing.first_again().is_some();
        self.control.picked = false;
        if !kept {
            self.outgoing.go_back();
        }
    }

    /// Sends no number by itself again, since all is sent again.
    pub(crate) fn pick_none(&mut self)
        ensures holds { (m : State) → Holds self.old m → Holds self.new (none_again m) }
        ensures incoming { self.new.incoming ≡ self.old.incoming }
    {
        self.outgoing.unask_again();
    }

    /// Is to send again the number that an SREJ asks for, if it was sent.
    pub(crate) fn pick_out(&mut self, nr: u8)
        requires { nr < self.old.incoming.modulus }
        ensures { (m : State) → Holds self.old m → Holds self.new (picked_out (named nr m) m) }
    {
        if self.outgoing.ask_again(self.incoming.modulus(), nr) {
            self.control.picked = true;
        }
    }

    /// Is to answer a command with P = 1, and to ask anew for what is missing.
    pub(crate) fn hear_poll(&mut self, asks: bool)
        ensures { (room : Room) (t : Turn) → Shows self.old room t → Shows self.new room (polled asks t) }
    {
        if asks {
            self.control.answer = true;
            self.incoming.unask();
        }
    }

    /// Takes a response with F = 1 as the answer to a poll, if one is awaited.
    pub(crate) fn recover(&mut self, answers: bool)
        ensures { (room : Room) (t : Turn) → Shows self.old room t → Shows self.new room (recover answers t) }
    {
        if self.control.poll && answers {
            self.control.recover(0);
            self.go_back();
        }
    }

    /// Releases the link if it is up, a disconnect was asked for and no packet waits: what each event ends with.
    pub(crate) fn settle(&mut self, room: &mut EventRoom)
        requires { frames_to_close self.old ≤ frames_left room.old }
        ensures shows { (t : Turn) → Shows self.old room.old t → Shows self.new room.new (settled t) }
    {
        let closes = self.control.quit && self.outgoing.is_empty();
        if matches!(self.control.state, LinkState::Up) && closes {
            self.release(room);
        }
    }
}
