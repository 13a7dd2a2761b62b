//! How packets come in.
ghost use Rattle.std.specs.Prelude.{◌≡◌, ℕ, ◌+◌, ◌%◌, ◌≤◌, ◌<◌, ◌==◌, true, false, Bool, [], ◌∷◌, ◌++◌, length, map};
ghost use Rattle.std.specs.Prelude.{if◌then◌else◌};
ghost use Rattle.std.specs.Option.{option_to_list};
ghost use Rattle.selective_reject.specs.Incoming.{Incoming, IsIncoming, StandsForIncoming, taken, after_take};
ghost use Rattle.selective_reject.specs.Places.{is_full};
ghost use Rattle.link_machine.specs.Machine.{ahead_of_vr};
ghost use Rattle.link_machine.specs.Turn.{Turn};
ghost use Rattle.link_machine.specs.Acts.{run, moved_on, give};
ghost use Rattle.link_machine.specs.Frames.{take_selected, hear_info_by_rej, hear_info_by_srej, hear_info_by};
ghost use Rattle.link_machine.specs.Room.{told_left, Uses};
ghost use Rattle.link_machine.specs.Held.{IsLink, Shows};

use crate::acts::Told;
use crate::machine::Machine;
use crate::room::Room;
use selective_reject::{InStore, Mode, Packet, Took};

/// Gives the packet with number V(R), if it is there.
fn give_next(incoming: &mut InStore, room: &mut Room)
    requires { 1 ≤ told_left room.old }
    ensures told { room.new.told.items ≡ room.old.told.items ++ map Told.Given (option_to_list (taken incoming.old)) }
    ensures frames { room.new.frames ≡ room.old.frames }
    ensures stands_for { (store : Incoming) → StandsForIncoming incoming.old store
        → StandsForIncoming incoming.new (after_take store) }
    ensures formed { IsIncoming incoming.new }
    ensures uses { Uses room.old room.new 0 1 }
{
    if let Some(packet) = incoming.take() {
        room.tell(Told::Given { packet });
    }
}

/// Gives the packets from number V(R) on, up to the first that is not there.
fn give_run(incoming: &mut InStore, room: &mut Room)
    requires formed { IsIncoming incoming.old }
    requires room { incoming.old.window ≤ told_left room.old }
    ensures told { room.new.told.items ≡ room.old.told.items ++ map Told.Given (run incoming.old.places) }
    ensures frames { room.new.frames ≡ room.old.frames }
    ensures stands_for { (store : Incoming) → StandsForIncoming incoming.old store
        → StandsForIncoming incoming.new (moved_on (length (run store.places)) store) }
    ensures formed { IsIncoming incoming.new }
    ensures next { is_full incoming.new.places 0 ≡ false }
    ensures uses { Uses room.old room.new 0 incoming.old.window }
{
    while let Some(packet) = incoming.take() {
        room.tell(Told::Given { packet });
    }
}

impl Machine {
    /// Takes an I frame by REJ: gives its packet if it is the next, and tells whether it is.
    fn receive_in_sequence(&mut self, room: &mut Room, ns: u8, packet: Packet) -> bool
        requires formed { IsLink self.old }
        requires number { ns < self.old.incoming.modulus }
        requires room { 1 ≤ told_left room.old }
        ensures next { (t : Turn) → Shows self.old room.old t → t.now.incoming.mode ≡ Mode.Rej → result
            ≡ (ahead_of_vr ns t.now == 0) }
        ensures shows { (t : Turn) → Shows self.old room.old t → t.now.incoming.mode ≡ Mode.Rej
            → Shows self.new room.new (if result then give (packet ∷ []) t else t) }
        ensures uses { Uses room.old room.new 0 1 }
    {
        match self.incoming.accept(ns, packet) {
            Took::Next => {
                give_next(&mut self.incoming, room);
                true
            }
            _ => false,
        }
    }

    /// Takes an I frame by REJ.
    fn take_by_rej(&mut self, room: &mut Room, ns: u8, packet: Packet)
        requires formed { IsLink self.old }
        requires number { ns < self.old.incoming.modulus }
        requires room { 1 ≤ told_left room.old }
        ensures shows { (t : Turn) → Shows self.old room.old t → t.now.incoming.mode ≡ Mode.Rej
            → Shows self.new room.new (hear_info_by_rej ns packet t) }
        ensures uses { Uses room.old room.new 0 1 }
    {
        let lies_ahead = self.incoming.lies_ahead(ns);
        if self.receive_in_sequence(room, ns, packet) {
            self.control.rej = false;
            self.control.due = true;
        } else {
            self.control.hear_out_of_sequence(lies_ahead);
        }
    }

    /// Takes an I frame by SREJ: gives its packet if it is the next, with those that follow, or stores it.
    fn receive_selected(&mut self, room: &mut Room, ns: u8, packet: Packet)
        requires formed { IsLink self.old }
        requires mode { self.old.incoming.mode ≡ Mode.Srej }
        requires number { ns < self.old.incoming.modulus }
        requires told { self.old.incoming.window ≤ told_left room.old }
        ensures shows { (t : Turn) → Shows self.old room.old t
            → Shows self.new room.new (take_selected (ahead_of_vr ns t.now) packet t) }
        ensures uses { Uses room.old room.new 0 self.old.incoming.window }
    {
        if let Took::Next = self.incoming.accept(ns, packet) {
            give_run(&mut self.incoming, room);
        }
    }

    /// Takes an I frame by SREJ.
    fn take_by_srej(&mut self, room: &mut Room, ns: u8, packet: Packet)
        requires formed { IsLink self.old }
        requires mode { self.old.incoming.mode ≡ Mode.Srej }
        requires number { ns < self.old.incoming.modulus }
        requires told { self.old.incoming.window ≤ told_left room.old }
        ensures shows { (t : Turn) → Shows self.old room.old t
            → Shows self.new room.new (hear_info_by_srej ns packet t) }
        ensures uses { Uses room.old room.new 0 self.old.incoming.window }
    {
        self.receive_selected(room, ns, packet);
        self.control.due = true;
    }

    /// Takes an I frame as lost ones are asked for.
    pub(crate) fn take_by_mode(&mut self, room: &mut Room, ns: u8, packet: Packet)
        requires formed { IsLink self.old }
        requires number { ns < self.old.incoming.modulus }
        requires told { self.old.incoming.window ≤ told_left room.old }
        ensures shows { (t : Turn) → Shows self.old room.old t
            → Shows self.new room.new (hear_info_by t.now.incoming.mode ns packet t) }
        ensures uses { Uses room.old room.new 0 self.old.incoming.window }
    {
        match self.incoming.mode() {
            Mode::Rej => self.take_by_rej(room, ns, packet),
            Mode::Srej => self.take_by_srej(room, ns, packet),
        }
    }
}
