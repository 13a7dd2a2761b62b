//! A tick of 10 ms, and the timers that run out with it.
ghost use Rattle.std.specs.Prelude.{◌≡◌, ℕ, false, ◌+◌, ◌≤◌, ◌<◌, Bool, IsTrue};
ghost use Rattle.link_machine.specs.declared.state.LinkState.TheVariants.{Idle};
ghost use Rattle.link_machine.specs.Machine.{Machine as State, falls_back};
ghost use Rattle.link_machine.specs.Negotiation.{asks_in};
ghost use Rattle.link_machine.specs.Turn.{Turn};
ghost use Rattle.link_machine.specs.Ticks.{fall_back, call_again, poll_again, release_again, t1_out, t3_out, tick_t3};
ghost use Rattle.link_machine.specs.Ticks.{tick_t1, tick};
ghost use Rattle.link_machine.specs.declared.room.Room.{Room as AnyRoom};
ghost use Rattle.link_machine.specs.Room.{frames_left, told_left, Uses};
ghost use Rattle.link_machine.specs.Held.{IsLink, IsWhole, Holds, Shows, Makes};
ghost use Rattle.link_machine.specs.Timers.{outs, out_of, quits};

use crate::acts::{Acts, Told, Why};
use crate::machine::Machine;
use crate::room::Room;
use crate::state::LinkState;
use ax25_frames::U;
use std::alloc::Global;
use tnc_base::OutOfMemory;

/// Whether a timer runs out with the next tick, as a count of what may be sent for it.
fn out_of(timer: Option<u32>) -> usize
    ensures count { result ≡ out_of timer }
    ensures small { result ≤ 1 }
{
    match timer {
        Some(left) if left <= 1 => 1,
        _ => 0,
    }
}

impl Machine {
    /// A tick; `still` says whether T1 stands still in it.
    pub(crate) fn tick(&mut self, alloc: Global, still: bool) -> Result<Acts, OutOfMemory>
        requires { IsWhole self.old }
        ensures { Makes (tick still) self.old self.new result }
    {
        if self.asks_xid(still) {
            return self.ask_xid(alloc);
        }
        let outs = out_of(self.control.t1);
        let mut room = Room::new(alloc, outs + usize::from(self.control.quit), outs)?;
        self.tick_timers(&mut room, still);
        self.settle(&mut room);
        Ok(room.finish())
    }

    /// Ticks the timers of a link that does not ask by XID in this tick.
    fn tick_timers(&mut self, room: &mut Room, still: bool)
        requires formed { IsWhole self.old }
        requires asks_none { (m : State) → Holds self.old m → asks_in m.control.state still m ≡ false }
        requires frames { outs self.old.control ≤ frames_left room.old }
        requires told { outs self.old.control ≤ told_left room.old }
        ensures shows { (t : Turn) → Shows self.old room.old t → Shows self.new room.new (tick still t) }
        ensures uses { Uses room.old room.new (outs self.old.control) (outs self.old.control) }
        ensures quit { quits self.new.control ≤ quits self.old.control }
    {
        match self.control.state {
            LinkState::Idle => {}
            LinkState::Up => {
                self.control.tick_tm201(still);
                self.tick_t1(room, still);
            }
            _ => self.tick_t1(room, still),
        }
    }

    fn tick_t1(&mut self, room: &mut Room, still: bool)
        requires formed { IsWhole self.old }
        requires frames { outs self.old.control ≤ frames_left room.old }
        requires told { outs self.old.control ≤ told_left room.old }
        ensures shows { (t : Turn) → Shows self.old room.old t → Shows self.new room.new (tick_t1 still t) }
        ensures uses { Uses room.old room.new (outs self.old.control) (outs self.old.control) }
        ensures quit { quits self.new.control ≤ quits self.old.control }
    {
        let Some(left) = self.control.t1 else {
            return self.tick_t3();
        };
        if still || self.wants() {
            return;
        }
        if left > 1 {
            self.control.t1 = Some(left - 1);
            return;
        }
        self.control.t1 = None;
        self.t1_out(room);
    }

    /// T1 runs out: what awaits an answer is sent once more.
    fn t1_out(&mut self, room: &mut Room)
        requires frames { 1 ≤ frames_left room.old }
        requires told { 1 ≤ told_left room.old }
        ensures shows { (t : Turn) → Shows self.old room.old t
            → Shows self.new room.new (t1_out t.now.control.state t) }
        ensures uses { Uses room.old room.new 1 1 }
        ensures quit { quits self.new.control ≤ quits self.old.control }
    {
        match self.control.state {
            LinkState::Idle => {}
            LinkState::Calling => self.call_again(room),
            LinkState::Up => self.poll_again(room),
            LinkState::Releasing => self.release_again(room),
        }
    }

    fn call_again(&mut self, room: &mut Room)
        requires frames { 1 ≤ frames_left room.old }
        requires told { 1 ≤ told_left room.old }
        ensures shows { (t : Turn) → Shows self.old room.old t → Shows self.new room.new (call_again t) }
        ensures uses { Uses room.old room.new 1 1 }
        ensures quit { quits self.new.control ≤ quits self.old.control }
    {
        if self.control.is_spent() {
            self.end_call(room, Why::Failed);
        } else if self.falls_back() {
            self.fall_back(room);
        } else {
            self.control.retry();
            self.send_call(room);
        }
    }

    /// Whether a call modulo 128 was retried in vain, and goes on modulo 8.
    fn falls_back(&self) -> bool
        ensures { (m : State) → Holds self.now m → result ≡ falls_back m }
    {
        self.is_wide() && self.control.rc == self.control.wide_retries()
    }

    /// Goes on calling modulo 8, since the other side may not know SABME.
    fn fall_back(&mut self, room: &mut Room)
        requires retries { self.old.control.rc < 255 }
        requires frames { 1 ≤ frames_left room.old }
        ensures shows { (t : Turn) → Shows self.old room.old t → Shows self.new room.new (fall_back t) }
        ensures uses { Uses room.old room.new 1 0 }
        ensures quit { quits self.new.control ≤ quits self.old.control }
    {
        self.control.retry();
        self.narrow();
        self.send_call(room);
    }

    fn poll_again(&mut self, room: &mut Room)
        requires frames { 1 ≤ frames_left room.old }
        requires told { 1 ≤ told_left room.old }
        ensures shows { (t : Turn) → Shows self.old room.old t → Shows self.new room.new (poll_again t) }
        ensures uses { Uses room.old room.new 1 1 }
        ensures quit { quits self.new.control ≤ quits self.old.control }
    {
        if self.control.is_spent() {
            self.send_setup(room, U::Dm, false);
            self.leave();
            self.tell(room, Told::Ended { why: Why::Failed });
        } else {
            self.control.ask_again();
        }
    }

    fn release_again(&mut self, room: &mut Room)
        requires frames { 1 ≤ frames_left room.old }
        requires told { 1 ≤ told_left room.old }
        ensures shows { (t : Turn) → Shows self.old room.old t → Shows self.new room.new (release_again t) }
        ensures uses { Uses room.old room.new 1 1 }
        ensures quit { quits self.new.control ≤ quits self.old.control }
    {
        if self.control.is_spent() {
            self.end_call(room, Why::Failed);
        } else {
            self.control.retry();
            self.send_setup(room, U::Disc, true);
        }
    }

    fn tick_t3(&mut self)
        ensures shows { (room : AnyRoom) (t : Turn) → Shows self.old room t → Shows self.new room (tick_t3 t) }
        ensures quit { self.new.control.quit ≡ self.old.control.quit }
    {
        let Some(left) = self.control.t3 else {
            return;
        };
        if left > 1 {
            self.control.t3 = Some(left - 1);
            return;
        }
        self.control.t3 = None;
        self.t3_out();
    }

    /// T3 runs out: a side that was silent is to be polled.
    fn t3_out(&mut self)
        ensures shows { (room : AnyRoom) (t : Turn) → Shows self.old room t
            → Shows self.new room (t3_out t.now.control.state t) }
        ensures quit { self.new.control.quit ≡ self.old.control.quit }
    {
        if let LinkState::Up = self.control.state {
            self.control.break_silence();
        }
    }
}
