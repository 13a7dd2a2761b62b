//! How a link begins and ends.
ghost use Rattle.std.specs.Prelude.{◌≡◌, ℕ, ◌≤◌, Bool};
ghost use Rattle.link_machine.specs.Machine.{unquit};
ghost use Rattle.link_machine.specs.Turn.{Turn};
ghost use Rattle.ax25_frames.specs.ControlField.{numbers};
ghost use Rattle.link_machine.specs.Acts.{calling_frame, send_call, call, reset, release, releasing};
ghost use Rattle.link_machine.specs.Requests.{connect};
ghost use Rattle.link_machine.specs.Frames.{stopped_t1, stopped, call_narrow, end_call, leave, open_called};
ghost use Rattle.link_machine.specs.Frames.{open_answered, open_again, end_by_disc, end_by_dm};
ghost use Rattle.link_machine.specs.Room.{frames_left, told_left, Uses};
ghost use Rattle.link_machine.specs.Held.{Shows};
ghost use Rattle.link_machine.specs.declared.room.Room.{Room as AnyRoom};

use crate::acts::{Told, Why};
use crate::machine::Machine;
use crate::room::Room;
use crate::state::LinkState;
use ax25_frames::{Modulus, U};

/// The frame that calls.
fn calling_frame(wide: bool) -> U
    ensures { result ≡ calling_frame wide }
{
    if wide { U::Sabme } else { U::Sabm }
}

impl Machine {
    /// Sends SABM, or SABME if numbers are modulo 128.
    pub(crate) fn send_call(&self, room: &mut Room)
        requires { 1 ≤ frames_left room.old }
        ensures shows { (t : Turn) → Shows self.now room.old t → Shows self.now room.new (send_call t) }
        ensures uses { Uses room.old room.new 1 0 }
    {
        self.send_setup(room, calling_frame(self.is_wide()), true);
    }

    /// Calls and awaits the answer.
    pub(crate) fn call(&mut self, room: &mut Room)
        requires { 1 ≤ frames_left room.old }
        ensures shows { (t : Turn) → Shows self.old room.old t → Shows self.new room.new (call t) }
        ensures uses { Uses room.old room.new 1 0 }
    {
        self.control.call();
        self.send_call(room);
    }

    /// Goes on calling modulo 8, since the other side does not know SABME.
    pub(crate) fn call_narrow(&mut self, room: &mut Room)
        requires { 1 ≤ frames_left room.old }
        ensures shows { (t : Turn) → Shows self.old room.old t → Shows self.new room.new (call_narrow t) }
        ensures uses { Uses room.old room.new 1 0 }
    {
        self.narrow();
        self.control.call_anew();
        self.send_setup(room, U::Sabm, true);
    }

    /// Calls as the layer above asks.
    pub(crate) fn connect(&mut self, room: &mut Room)
        requires { 1 ≤ frames_left room.old }
        ensures shows { (t : Turn) → Shows self.old room.old t → Shows self.new room.new (connect t) }
        ensures uses { Uses room.old room.new 1 0 }
    {
        self.begin();
        let modulus = self.params.called_modulus();
        self.count_in(modulus);
        self.call(room);
    }

    /// Ends the set-up after an error, and calls anew.
    pub(crate) fn reset(&mut self, room: &mut Room)
        requires frames { 1 ≤ frames_left room.old }
        requires told { 1 ≤ told_left room.old }
        ensures shows { (t : Turn) → Shows self.old room.old t → Shows self.new room.new (reset t) }
        ensures uses { Uses room.old room.new 1 1 }
    {
        self.tell(room, Told::Ended { why: Why::Reset });
        self.begin();
        self.empty();
        self.call(room);
    }

    /// Sends DISC and awaits its answer.
    pub(crate) fn release(&mut self, room: &mut Room)
        requires { 1 ≤ frames_left room.old }
        ensures shows { (t : Turn) → Shows self.old room.old t → Shows self.new room.new (release t) }
        ensures control { self.new.control ≡ releasing self.old.control }
        ensures uses { Uses room.old room.new 1 0 }
    {
        self.control.release();
        self.send_setup(room, U::Disc, true);
    }

    /// Ends a call or a release.
    pub(crate) fn end_call(&mut self, room: &mut Room, why: Why)
        requires { 1 ≤ told_left room.old }
        ensures shows { (t : Turn) → Shows self.old room.old t → Shows self.new room.new (end_call why t) }
        ensures control { self.new.control ≡ stopped_t1 (unquit self.old.control) }
        ensures uses { Uses room.old room.new 0 1 }
    {
        self.empty();
        self.narrow();
        self.control.end_call();
        self.tell(room, Told::Ended { why });
    }

    /// Leaves a set-up.
    pub(crate) fn leave(&mut self)
        ensures shows { (room : AnyRoom) (t : Turn) → Shows self.old room t → Shows self.new room (leave t) }
        ensures control { self.new.control ≡ stopped (unquit self.old.control) }
    {
        self.empty();
        self.narrow();
        self.control.leave();
    }

    /// Opens the other side's set-up.
    pub(crate) fn open_called(&mut self, room: &mut Room, modulus: Modulus, flag: bool)
        requires frames { 1 ≤ frames_left room.old }
        requires told { 1 ≤ told_left room.old }
        ensures shows { (t : Turn) → Shows self.old room.old t
            → Shows self.new room.new (open_called (numbers modulus) flag t) }
        ensures uses { Uses room.old room.new 1 1 }
    {
        self.begin();
        self.empty();
        self.count_in(modulus);
        self.control.state = LinkState::Up;
        self.send_setup(room, U::Ua, flag);
        self.tell(room, Told::Opened { ours: false });
    }

    /// Opens this side's set-up.
    pub(crate) fn open_answered(&mut self, room: &mut Room)
        requires { 1 ≤ told_left room.old }
        ensures shows { (t : Turn) → Shows self.old room.old t → Shows self.new room.new (open_answered t) }
        ensures uses { Uses room.old room.new 0 1 }
    {
        let wide = self.is_wide();
        self.begin();
        self.control.state = LinkState::Up;
        self.control.to_ask(wide);
        self.tell(room, Told::Opened { ours: true });
    }

    /// Ends the set-up and opens another, since the other side begins anew.
    pub(crate) fn open_again(&mut self, room: &mut Room, modulus: Modulus, flag: bool)
        requires frames { 1 ≤ frames_left room.old }
        requires told { 2 ≤ told_left room.old }
        ensures shows { (t : Turn) → Shows self.old room.old t
            → Shows self.new room.new (open_again (numbers modulus) flag t) }
        ensures uses { Uses room.old room.new 1 2 }
    {
        self.tell(room, Told::Ended { why: Why::Reset });
        self.open_called(room, modulus, flag);
    }

    /// Ends the set-up as the other side asks.
    pub(crate) fn end_by_disc(&mut self, room: &mut Room, flag: bool)
        requires frames { 1 ≤ frames_left room.old }
        requires told { 1 ≤ told_left room.old }
        ensures shows { (t : Turn) → Shows self.old room.old t → Shows self.new room.new (end_by_disc flag t) }
        ensures uses { Uses room.old room.new 1 1 }
    {
        self.send_setup(room, U::Ua, flag);
        self.leave();
        self.tell(room, Told::Ended { why: Why::Peer });
    }

    /// Ends the set-up, which the other side does not know.
    pub(crate) fn end_by_dm(&mut self, room: &mut Room)
        requires { 1 ≤ told_left room.old }
        ensures shows { (t : Turn) → Shows self.old room.old t → Shows self.new room.new (end_by_dm t) }
        ensures uses { Uses room.old room.new 0 1 }
    {
        self.leave();
        self.tell(room, Told::Ended { why: Why::Peer });
    }
}
