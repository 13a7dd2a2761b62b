//! The frame that a link gives when the channel takes one.
ghost use Rattle.std.specs.Option.{option_copied};
ghost use Rattle.std.specs.Prelude.{◌≡◌, ℕ, min, true, slice_get, ◌+◌, ◌-◌, ◌%◌, ◌<◌, ◌≤◌, Some, if◌then◌else◌, IfOk};
ghost use Rattle.selective_reject.specs.Incoming.{next_missing};
ghost use Rattle.selective_reject.specs.Outgoing.{Outgoing, back, first_again};
ghost use Rattle.link_machine.specs.declared.state.LinkState.TheVariants.{Up};
ghost use Rattle.link_machine.specs.Machine.{Machine as State, with_control};
ghost use Rattle.link_machine.specs.Sent.Sent.{InfoSent};
ghost use Rattle.link_machine.specs.Turn.{Turn, changing, sending};
ghost use Rattle.link_machine.specs.Wants.{wants, sending_window, may_send_info, can_send_info, has_more};
ghost use Rattle.link_machine.specs.Seizing.{send_rej, send_srej, send_answer, send_poll, send_again, send_next};
ghost use Rattle.link_machine.specs.Seizing.{send_info, send_frame, seize, polls, polled_packet, short_packet, left_with};
ghost use Rattle.link_machine.specs.Room.{frames_left, Uses};
ghost use Rattle.link_machine.specs.Held.{IsLink, IsWhole, Holds, Shows, Makes, carried};

use crate::acts::Acts;
use crate::control::Control;
use crate::machine::Machine;
use crate::room::Room;
use crate::state::LinkState;
use ax25_address::Role;
use ax25_frames::{Kind, S};
use selective_reject::Packet;
use std::alloc::Global;
use tnc_base::OutOfMemory;

/// The most octets of an I frame that goes out as a poll.
const MOST_POLLED: usize = 128;

/// A copy of a packet, if there is one.
fn copy_of(alloc: Global, packet: Option<&Packet>) -> Result<Option<Packet>, OutOfMemory>
    ensures { IfOk result (λ copy. copy ≡ option_copied packet.entry) }
{
    match packet {
        Some(packet) => Ok(Some(packet.copy(alloc)?)),
        None => Ok(None),
    }
}

/// The packet, if a poll may carry it.
fn short_packet(packet: Option<&Packet>) -> Option<&Packet>
    ensures { option_copied result ≡ short_packet (option_copied packet.entry) }
{
    match packet {
        Some(packet) if packet.octets.len() <= MOST_POLLED => Some(packet),
        _ => None,
    }
}

impl Machine {
    /// Whether the link wants to send.
    pub(crate) fn wants(&self) -> bool
        requires { IsWhole self.now }
        ensures { (m : State) → Holds self.now m → result ≡ wants m }
    {
        let owes = self.control.owes() || self.incoming.is_missing() || self.can_send_info();
        matches!(self.control.state, LinkState::Up) && owes
    }

    /// k of what this side sends.
    fn sending_window(&self) -> u8
        ensures { (m : State) → Holds self.now m → result ≡ sending_window m }
    {
        self.window_with(&self.control)
    }

    /// The same, with these conditions.
    fn window_with(&self, control: &Control) -> u8
        ensures { (m : State) → Holds self.now m → result ≡ min m.incoming.window control.now.most_sent }
    {
        self.incoming.window().min(control.most_sent)
    }

    /// Whether a further I frame may go.
    fn may_send_info(&self) -> bool
        ensures { (m : State) → Holds self.now m → result ≡ may_send_info m }
    {
        let free = !self.control.busy && !self.control.poll;
        free && self.outgoing.may_send(self.sending_window())
    }

    /// Whether an I frame can go.
    fn can_send_info(&self) -> bool
        ensures { (m : State) → Holds self.now m → result ≡ can_send_info m }
    {
        self.outgoing.first_again().is_some() || self.may_send_info()
    }

    /// Whether packets wait that may go out now or later.
    fn has_more(&self) -> bool
        ensures { (m : State) → Holds self.now m → result ≡ has_more m }
    {
        usize::from(self.outgoing.sent()) < self.outgoing.len()
            || self.outgoing.first_again().is_some()
    }

    /// Gives one frame to the channel, if the link is up and wants to send.
    pub(crate) fn seize(
        &mut self,
        alloc: Global,
        last: bool,
        full: bool,
    ) -> Result<Acts, OutOfMemory>
        requires { IsWhole self.old }
        ensures { Makes (seize last full) self.old self.new result }
    {
        match self.control.state {
            LinkState::Up => self.seize_up(alloc, last, full),
            _ => Ok(Room::new(alloc, 0, 0)?.finish()),
        }
    }

    fn seize_up(&mut self, alloc: Global, last: bool, full: bool) -> Result<Acts, OutOfMemory>
        requires formed { IsWhole self.old }
        requires state { self.old.control.state ≡ Up }
        ensures { Makes (seize last full) self.old self.new result }
    {
        let mut control = self.control;
        let goes_back = control.notice_passed(full, self.outgoing.first_again().is_some());
        let packet = self.packet_to_send(alloc, &control, goes_back)?;
        let mut room = Room::new(alloc, 2, 0)?;
        self.notice(control, goes_back);
        self.send_frame(&mut room, last, full, packet);
        self.settle(&mut room);
        Ok(room.finish())
    }

    /// Has these conditions, and goes back to V(A) if it is to.
    fn notice(&mut self, control: Control, goes_back: bool)
        ensures holds { (m : State) → Holds self.old m
            → Holds self.new (left_with (if goes_back then back m.outgoing else m.outgoing) (with_control control m)) }
        ensures control { self.new.control ≡ control }
    {
        self.control = control;
        if goes_back {
            self.outgoing.go_back();
        }
    }

    /// A copy of the packet that goes out, with these conditions and after V(S) has perhaps gone back.
    fn packet_to_send(
        &self,
        alloc: Global,
        control: &Control,
        goes_back: bool,
    ) -> Result<Option<Packet>, OutOfMemory>
        requires { IsLink self.now }
        ensures { IfOk result (λ packet. (m : State) → Holds self.now m → packet
            ≡ carried (left_with (if goes_back then back m.outgoing else m.outgoing)
            (with_control control.now m))) }
    {
        if control.rej || self.incoming.is_missing() || control.answer {
            return Ok(None);
        }
        let sent = if goes_back { 0 } else { self.outgoing.sent() };
        if control.ask {
            let sent_some = self.outgoing.is_waiting() && !control.busy;
            let first = if sent_some {
                self.outgoing.packet(0)
            } else {
                None
            };
            return copy_of(alloc, short_packet(first));
        }
        let again = if goes_back {
            None
        } else {
            self.outgoing.first_again()
        };
        if let Some(place) = again {
            return copy_of(alloc, self.outgoing.packet(usize::from(place)));
        }
        if !control.busy && !control.poll && sent < self.window_with(control) {
            return copy_of(alloc, self.outgoing.packet(usize::from(sent)));
        }
        Ok(None)
    }

    /// Sends the first frame that applies; if it is an I frame, with this packet.
    fn send_frame(&mut self, room: &mut Room, last: bool, full: bool, packet: Option<Packet>)
        requires formed { IsLink self.old }
        requires room { 1 ≤ frames_left room.old }
        ensures shows { (t : Turn) → Shows self.old room.old t → packet ≡ carried t.now
            → Shows self.new room.new (send_frame last full t) }
        ensures uses { Uses room.old room.new 1 0 }
        ensures quit { self.new.control.quit ≡ self.old.control.quit }
    {
        if self.control.rej {
            self.send_rej(room);
        } else if self.incoming.is_missing() {
            self.send_srej(room);
        } else if self.control.answer {
            self.send_answer(room);
        } else if self.control.ask {
            self.send_poll(room, full, packet);
        } else if let Some(place) = self.outgoing.first_again() {
            self.send_again(room, last, full, place, packet);
        } else if self.may_send_info() {
            self.send_next(room, last, full, packet);
        } else if self.control.due {
            self.control.due = false;
            self.send_super(room, S::Rr, false, self.incoming.vr(), false);
        }
    }

    /// REJ, which answers a poll too.
    fn send_rej(&mut self, room: &mut Room)
        requires { 1 ≤ frames_left room.old }
        ensures shows { (t : Turn) → Shows self.old room.old t → Shows self.new room.new (send_rej t) }
        ensures uses { Uses room.old room.new 1 0 }
        ensures quit { self.new.control.quit ≡ self.old.control.quit }
    {
        let answer = self.control.answer;
        self.control.rej = false;
        self.control.answer = false;
        self.control.due = false;
        self.send_super(room, S::Rej, false, self.incoming.vr(), answer);
    }

    /// SREJ for the lowest number that is missing.
    fn send_srej(&mut self, room: &mut Room)
        requires formed { IsLink self.old }
        requires room { 1 ≤ frames_left room.old }
        ensures shows { (t : Turn) → Shows self.old room.old t
            → Shows self.new room.new (send_srej (next_missing t.now.incoming) t) }
        ensures uses { Uses room.old room.new 1 0 }
        ensures quit { self.new.control.quit ≡ self.old.control.quit }
    {
        if let Some(nr) = self.incoming.ask_next() {
            self.send_super(room, S::Srej, false, nr, false);
        }
    }

    /// RR with F = 1.
    fn send_answer(&mut self, room: &mut Room)
        requires { 1 ≤ frames_left room.old }
        ensures shows { (t : Turn) → Shows self.old room.old t → Shows self.new room.new (send_answer t) }
        ensures uses { Uses room.old room.new 1 0 }
        ensures quit { self.new.control.quit ≡ self.old.control.quit }
    {
        self.control.answer = false;
        self.control.due = false;
        self.send_super(room, S::Rr, false, self.incoming.vr(), true);
    }

    /// A poll: the I frame V(A) with this packet, or RR.
    fn send_poll(&mut self, room: &mut Room, full: bool, packet: Option<Packet>)
        requires { 1 ≤ frames_left room.old }
        ensures shows { (t : Turn) → Shows self.old room.old t → packet ≡ polled_packet t.now
            → Shows self.new room.new (send_poll full t) }
        ensures uses { Uses room.old room.new 1 0 }
        ensures quit { self.new.control.quit ≡ self.old.control.quit }
    {
        match packet {
            Some(packet) => {
                let ns = self.outgoing.number(self.incoming.modulus(), 0);
                self.send_packet(room, ns, true, packet);
                self.control.poll(!full);
            }
            None => {
                self.send_super(room, S::Rr, true, self.incoming.vr(), true);
                self.control.poll(false);
            }
        }
    }

    /// The lowest number that SREJ asked for, which stands so many places after V(A).
    fn send_again(
        &mut self,
        room: &mut Room,
        last: bool,
        full: bool,
        place: u8,
        packet: Option<Packet>,
    )
        requires formed { IsLink self.old }
        requires place { place < 128 }
        requires room { 1 ≤ frames_left room.old }
        ensures shows { (t : Turn) → Shows self.old room.old t → first_again t.now.outgoing ≡ Some place → packet
            ≡ slice_get t.now.outgoing.packets place
            → Shows self.new room.new (send_again last full (first_again t.now.outgoing) t) }
        ensures uses { Uses room.old room.new 1 0 }
        ensures quit { self.new.control.quit ≡ self.old.control.quit }
    {
        let ns = self.outgoing.number(self.incoming.modulus(), place);
        self.outgoing.take_again();
        self.send_info(room, ns, last, full, packet);
    }

    /// Number V(S), which rises.
    fn send_next(&mut self, room: &mut Room, last: bool, full: bool, packet: Option<Packet>)
        requires formed { IsLink self.old }
        requires room { 1 ≤ frames_left room.old }
        ensures shows { (t : Turn) → Shows self.old room.old t → may_send_info t.now ≡ true → packet
            ≡ slice_get t.now.outgoing.packets (t.now.outgoing.vs - t.now.outgoing.va)
            → Shows self.new room.new (send_next last full t) }
        ensures uses { Uses room.old room.new 1 0 }
        ensures quit { self.new.control.quit ≡ self.old.control.quit }
    {
        let modulus = self.incoming.modulus();
        let window = self.incoming.window();
        let Some(ns) = self.outgoing.next(modulus, window) else {
            return;
        };
        self.send_info(room, ns, last, full, packet);
    }

    /// An I frame with the number `ns`, which has left what waits, and what becomes of the timers.
    fn send_info(&mut self, room: &mut Room, ns: u8, last: bool, full: bool, packet: Option<Packet>)
        requires { 1 ≤ frames_left room.old }
        ensures shows { (t : Turn) (place : ℕ) (left : Outgoing)
            → Shows self.old room.old (changing (left_with left) t) → ns
            ≡ (t.now.outgoing.va + place) % self.old.incoming.modulus → packet
            ≡ slice_get t.now.outgoing.packets place → Shows self.new room.new (send_info last full place left t) }
        ensures uses { Uses room.old room.new 1 0 }
        ensures quit { self.new.control.quit ≡ self.old.control.quit }
    {
        let poll = self.polls(last, full);
        self.control.send_info(poll);
        if let Some(packet) = packet {
            self.send_packet(room, ns, poll, packet);
        }
    }

    /// P of an I frame that has left what waits: 1 in half duplex if it is the last that can go now and more wait.
    fn polls(&self, last: bool, full: bool) -> bool
        ensures { (m : State) → Holds self.now m → result ≡ polls last full m }
    {
        let ends = last || !self.can_send_info();
        !full && ends && self.has_more()
    }

    /// Sends an I frame with the number `ns`.
    fn send_packet(&self, room: &mut Room, ns: u8, poll: bool, packet: Packet)
        requires { 1 ≤ frames_left room.old }
        ensures shows { (t : Turn) (n : ℕ) → Shows self.now room.old t → ns ≡ n % self.now.incoming.modulus
            → Shows self.now room.new (sending (InfoSent n t.now.incoming.vr poll packet) t) }
        ensures uses { Uses room.old room.new 1 0 }
    {
        let kind = Kind::Info {
            ns,
            nr: self.incoming.vr(),
            poll,
            pid: packet.pid,
            octets: packet.octets,
        };
        self.send(room, Role::Command, kind);
    }
}
