//! The frames that a link hears while it is up.
ghost use Rattle.std.specs.Prelude.{◌≡◌, ℕ, ◌≤◌, ◌<◌, ◌&&◌, not, true, Bool};
ghost use Rattle.ax25_frames.specs.ControlField.{IsNumbered, numbers};
ghost use Rattle.ax25_frames.specs.FrameOctets.{control_of};
ghost use Rattle.link_machine.specs.declared.state.LinkState.TheVariants.{Up};
ghost use Rattle.link_machine.specs.declared.room.Room.{Room as AnyRoom};
ghost use Rattle.link_machine.specs.Machine.{Machine as State, is_valid, named, modulus_named};
ghost use Rattle.link_machine.specs.Turn.{Turn, nothing};
ghost use Rattle.link_machine.specs.Acts.{reset};
ghost use Rattle.link_machine.specs.Frames.{open_again, end_by_disc, end_by_dm, hear_rr, hear_rnr, hear_rej, hear_srej};
ghost use Rattle.link_machine.specs.Frames.{hear_supervisory, acknowledged_by_srej, hear_info, hear_up};
ghost use Rattle.link_machine.specs.Room.{told_left, Uses};
ghost use Rattle.link_machine.specs.Held.{IsLink, IsWhole, Holds, Shows, Makes, hear_numbered, hear_supervisory_of};

use crate::acts::Acts;
use crate::machine::Machine;
use crate::room::Room;
use ax25_frames::{Kind, Modulus, S, U, W};
use selective_reject::Packet;
use std::alloc::Global;
use tnc_base::{Octets, OutOfMemory};

/// Whether an S frame asks for an answer: a command with P = 1.
fn is_asking(command: bool, flag: bool) -> bool
    ensures { result ≡ (command && flag) }
{
    command && flag
}

/// Whether an S frame may be the answer to a poll: a response with F = 1.
fn is_answering(command: bool, flag: bool) -> bool
    ensures { result ≡ (not command && flag) }
{
    !command && flag
}

impl Machine {
    /// Hears a frame if the link is up.
    pub(crate) fn hear_up(
        &mut self,
        alloc: Global,
        command: bool,
        kind: &Kind,
    ) -> Result<Acts, OutOfMemory>
        requires formed { IsWhole self.old }
        requires state { self.old.control.state ≡ Up }
        requires numbers { IsNumbered (modulus_named self.old.incoming.modulus) (control_of kind.now) }
        ensures { Makes (hear_up command kind.now) self.old self.new result }
    {
        match kind {
            Kind::Setup { which, flag } => match which {
                U::Sabm => self.hear_call(alloc, Modulus::Eight, *flag),
                U::Sabme => self.hear_call(alloc, Modulus::OneTwentyEight, *flag),
                U::Disc => self.hear_disc(alloc, *flag),
                U::Dm => self.hear_dm(alloc),
                U::Ua => self.hear_nothing(alloc),
            },
            Kind::Info {
                ns,
                nr,
                poll,
                pid,
                octets,
            } => self.hear_info(alloc, *ns, *nr, *poll, *pid, octets),
            Kind::Super { which, nr, flag } => {
                self.hear_super(alloc, *which, *nr, command, *flag)
            }
            Kind::Other { which: W::Frmr, .. } => self.hear_error(alloc),
            Kind::Other {
                which: W::Xid,
                flag,
                octets,
            } => self.hear_xid(alloc, command, *flag, octets),
            Kind::Ui { .. } | Kind::Other { .. } => self.hear_nothing(alloc),
        }
    }

    /// SABM, or SABME if the modulus is 128.
    fn hear_call(
        &mut self,
        alloc: Global,
        modulus: Modulus,
        flag: bool,
    ) -> Result<Acts, OutOfMemory>
        requires formed { IsWhole self.old }
        requires state { self.old.control.state ≡ Up }
        ensures { Makes (open_again (numbers modulus) flag) self.old self.new result }
    {
        let mut room = Room::new(alloc, 1, 2)?;
        self.open_again(&mut room, modulus, flag);
        Ok(room.finish())
    }

    fn hear_disc(&mut self, alloc: Global, flag: bool) -> Result<Acts, OutOfMemory>
        requires formed { IsWhole self.old }
        ensures { Makes (end_by_disc flag) self.old self.new result }
    {
        let mut room = Room::new(alloc, 1, 1)?;
        self.end_by_disc(&mut room, flag);
        Ok(room.finish())
    }

    fn hear_dm(&mut self, alloc: Global) -> Result<Acts, OutOfMemory>
        requires formed { IsWhole self.old }
        ensures { Makes end_by_dm self.old self.new result }
    {
        let mut room = Room::new(alloc, 0, 1)?;
        self.end_by_dm(&mut room);
        Ok(room.finish())
    }

    /// A frame that says nothing to a link that is up.
    fn hear_nothing(&mut self, alloc: Global) -> Result<Acts, OutOfMemory>
        requires formed { IsWhole self.old }
        ensures { Makes nothing self.old self.new result }
    {
        let mut room = Room::new(alloc, 1, 0)?;
        self.settle(&mut room);
        Ok(room.finish())
    }

    /// An error of the protocol.
    fn hear_error(&mut self, alloc: Global) -> Result<Acts, OutOfMemory>
        requires formed { IsWhole self.old }
        ensures { Makes reset self.old self.new result }
    {
        let mut room = Room::new(alloc, 1, 1)?;
        self.reset(&mut room);
        Ok(room.finish())
    }

    /// An S frame.
    fn hear_super(
        &mut self,
        alloc: Global,
        which: S,
        nr: u8,
        command: bool,
        flag: bool,
    ) -> Result<Acts, OutOfMemory>
        requires formed { IsWhole self.old }
        requires number { nr < self.old.incoming.modulus }
        ensures { Makes (hear_numbered nr (hear_supervisory_of which command flag)) self.old self.new result }
    {
        if !self.is_valid(nr) {
            return self.hear_error(alloc);
        }
        let mut room = Room::new(alloc, 1, 0)?;
        self.take_super(which, nr, command, flag);
        self.settle(&mut room);
        Ok(room.finish())
    }

    /// Whether N(R) names a number from V(A) to the top.
    pub(crate) fn is_valid(&self, nr: u8) -> bool
        requires { nr < self.now.incoming.modulus }
        ensures { (m : State) → Holds self.now m → result ≡ is_valid nr m }
    {
        self.outgoing
            .acknowledgement(self.incoming.modulus(), nr)
            .is_ok()
    }

    fn take_super(&mut self, which: S, nr: u8, command: bool, flag: bool)
        requires { nr < self.old.incoming.modulus }
        ensures { (room : AnyRoom) (t : Turn) → Shows self.old room t → is_valid nr t.now ≡ true
            → Shows self.new room (hear_supervisory which (named nr t.now) command flag t) }
    {
        let asks = is_asking(command, flag);
        let answers = is_answering(command, flag);
        match which {
            S::Rr => self.hear_rr(nr, asks, answers),
            S::Rnr => self.hear_rnr(nr, asks, answers),
            S::Rej => self.hear_rej(nr, asks, answers),
            S::Srej => self.hear_srej(nr, flag, asks, answers),
        }
    }

    fn hear_rr(&mut self, nr: u8, asks: bool, answers: bool)
        requires { nr < self.old.incoming.modulus }
        ensures { (room : AnyRoom) (t : Turn) → Shows self.old room t → is_valid nr t.now ≡ true
            → Shows self.new room (hear_rr (named nr t.now) asks answers t) }
    {
        self.control.hear_busy(false, answers);
        self.acknowledge(nr);
        self.hear_poll(asks);
        self.recover(answers);
    }

    fn hear_rnr(&mut self, nr: u8, asks: bool, answers: bool)
        requires { nr < self.old.incoming.modulus }
        ensures { (room : AnyRoom) (t : Turn) → Shows self.old room t → is_valid nr t.now ≡ true
            → Shows self.new room (hear_rnr (named nr t.now) asks answers t) }
    {
        self.control.hear_busy(true, answers);
        self.acknowledge(nr);
        self.hear_poll(asks);
        self.recover(answers);
        self.control.watch();
    }

    fn hear_rej(&mut self, nr: u8, asks: bool, answers: bool)
        requires { nr < self.old.incoming.modulus }
        ensures { (room : AnyRoom) (t : Turn) → Shows self.old room t → is_valid nr t.now ≡ true
            → Shows self.new room (hear_rej (named nr t.now) asks answers t) }
    {
        self.control.hear_busy(false, answers);
        self.acknowledge(nr);
        self.pick_none();
        self.go_back();
        self.hear_poll(asks);
        self.recover(answers);
    }

    /// SREJ, which acknowledges with P/F = 1 alone.
    fn hear_srej(&mut self, nr: u8, flag: bool, asks: bool, answers: bool)
        requires { nr < self.old.incoming.modulus }
        ensures { (room : AnyRoom) (t : Turn) → Shows self.old room t → is_valid nr t.now ≡ true
            → Shows self.new room (hear_srej (named nr t.now) flag asks answers t) }
    {
        self.control.hear_busy(false, answers);
        self.acknowledge_by_srej(nr, flag);
        self.pick_out(nr);
        self.hear_poll(asks);
        self.recover(answers);
    }

    /// SREJ acknowledges with P/F = 1 alone.
    fn acknowledge_by_srej(&mut self, nr: u8, flag: bool)
        requires { nr < self.old.incoming.modulus }
        ensures holds { (m : State) → Holds self.old m → is_valid nr m ≡ true
            → Holds self.new (acknowledged_by_srej (named nr m) flag m) }
        ensures incoming { self.new.incoming ≡ self.old.incoming }
    {
        if flag {
            self.acknowledge(nr);
        }
    }

    /// An I frame.
    fn hear_info(
        &mut self,
        alloc: Global,
        ns: u8,
        nr: u8,
        flag: bool,
        pid: u8,
        octets: &Octets,
    ) -> Result<Acts, OutOfMemory>
        requires formed { IsWhole self.old }
        requires send_number { ns < self.old.incoming.modulus }
        requires receive_number { nr < self.old.incoming.modulus }
        ensures { Makes (hear_numbered nr (λ n. hear_info n ns flag
            (record { pid = pid; octets = octets.now }))) self.old self.new result }
    {
        if !self.is_valid(nr) {
            return self.hear_error(alloc);
        }
        let packet = Packet {
            pid,
            octets: Octets::from_slice(alloc, octets.as_slice())?,
        };
        let mut room = Room::new(alloc, 1, usize::from(self.incoming.window()))?;
        self.take_info(&mut room, ns, nr, flag, packet);
        self.settle(&mut room);
        Ok(room.finish())
    }

    fn take_info(&mut self, room: &mut Room, ns: u8, nr: u8, flag: bool, packet: Packet)
        requires formed { IsLink self.old }
        requires send_number { ns < self.old.incoming.modulus }
        requires receive_number { nr < self.old.incoming.modulus }
        requires told { self.old.incoming.window ≤ told_left room.old }
        ensures shows { (t : Turn) → Shows self.old room.old t → is_valid nr t.now ≡ true
            → Shows self.new room.new (hear_info (named nr t.now) ns flag packet t) }
        ensures uses { Uses room.old room.new 0 self.old.incoming.window }
    {
        self.control.hear(false);
        self.acknowledge(nr);
        self.take_by_mode(room, ns, packet);
        self.hear_poll(flag);
    }
}
