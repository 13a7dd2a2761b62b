//! The frames that a link hears while it is not up.
ghost use Rattle.std.specs.Prelude.{◌≡◌, ◌≢◌, ℕ, List, ◌+◌, ◌≤◌, ◌<◌, Bool};
ghost use Rattle.ax25_frames.specs.declared.frame.Kind.TheVariants.{Other};
ghost use Rattle.ax25_frames.specs.declared.frame.W.TheVariants.{Xid};
ghost use Rattle.ax25_frames.specs.ControlField.{IsNumbered};
ghost use Rattle.ax25_frames.specs.FrameOctets.{control_of};
ghost use Rattle.link_machine.specs.Negotiation.{is_heard_as_command};
ghost use Rattle.link_machine.specs.Machine.{modulus_named};
ghost use Rattle.link_machine.specs.declared.state.LinkState.TheVariants.{Idle, Calling, Up, Releasing};
ghost use Rattle.link_machine.specs.Turn.{Turn};
ghost use Rattle.link_machine.specs.Frames.{hear_idle, hear_calling, hear_releasing, hear_up, hear};
ghost use Rattle.link_machine.specs.Room.{frames_left, told_left, Uses};
ghost use Rattle.link_machine.specs.Held.{IsWhole, Shows, Makes};

use crate::acts::{Acts, Why};
use crate::machine::Machine;
use crate::negotiating::is_heard_as_command;
use crate::room::Room;
use crate::state::LinkState;
use ax25_frames::{Frame, Kind, Modulus, U, W};
use std::alloc::Global;
use tnc_base::OutOfMemory;

impl Machine {
    /// Hears a frame.
    pub(crate) fn hear(&mut self, alloc: Global, frame: &Frame) -> Result<Acts, OutOfMemory>
        requires formed { IsWhole self.old }
        requires numbers { IsNumbered (modulus_named self.old.incoming.modulus) (control_of frame.now.kind) }
        ensures { Makes (hear
            (is_heard_as_command frame.now.path.role frame.now.kind) frame.now.kind) self.old self.new result }
    {
        let command = is_heard_as_command(frame);
        match self.control.state {
            LinkState::Idle => self.hear_idle(alloc, command, &frame.kind),
            LinkState::Calling => self.hear_calling(alloc, &frame.kind),
            LinkState::Up => self.hear_up(alloc, command, &frame.kind),
            LinkState::Releasing => self.hear_releasing(alloc, command, &frame.kind),
        }
    }

    /// Hears a frame if there is no link.
    fn hear_idle(&mut self, alloc: Global, command: bool, kind: &Kind) -> Result<Acts, OutOfMemory>
        requires formed { IsWhole self.old }
        requires state { self.old.control.state ≡ Idle }
        ensures { Makes (hear_idle command kind.now) self.old self.new result }
    {
        if let Kind::Other {
            which: W::Xid,
            flag,
            ..
        } = kind
        {
            return self.hear_xid_idle(alloc, command, *flag);
        }
        let mut room = Room::new(alloc, 1, 1)?;
        self.take_idle(&mut room, command, kind);
        Ok(room.finish())
    }

    /// Hears any frame but XID.
    fn take_idle(&mut self, room: &mut Room, command: bool, kind: &Kind)
        requires frames { 1 ≤ frames_left room.old }
        requires told { 1 ≤ told_left room.old }
        requires no_xid { (flag : Bool) (octets : List ℕ) → kind.now ≢ Other Xid flag octets }
        ensures { (t : Turn) → Shows self.old room.old t → Shows self.new room.new (hear_idle command kind.now t) }
    {
        match kind {
            Kind::Setup { which, flag } => match which {
                U::Sabm => self.open_called(room, Modulus::Eight, *flag),
                U::Sabme => self.open_called(room, Modulus::OneTwentyEight, *flag),
                U::Disc => self.send_setup(room, U::Dm, *flag),
                U::Dm | U::Ua => {}
            },
            Kind::Info { poll, .. } if *poll => self.send_setup(room, U::Dm, *poll),
            Kind::Super { flag, .. } if command && *flag => self.send_setup(room, U::Dm, *flag),
            Kind::Info { .. } | Kind::Super { .. } | Kind::Ui { .. } | Kind::Other { .. } => {}
        }
    }

    /// Hears a frame while a call awaits its answer.
    fn hear_calling(&mut self, alloc: Global, kind: &Kind) -> Result<Acts, OutOfMemory>
        requires formed { IsWhole self.old }
        requires state { self.old.control.state ≡ Calling }
        ensures { Makes (hear_calling kind.now) self.old self.new result }
    {
        let mut room = Room::new(alloc, 2, 1)?;
        self.take_calling(&mut room, kind);
        self.settle(&mut room);
        Ok(room.finish())
    }

    fn take_calling(&mut self, room: &mut Room, kind: &Kind)
        requires frames { 1 ≤ frames_left room.old }
        requires told { 1 ≤ told_left room.old }
        ensures shows { (t : Turn) → Shows self.old room.old t → Shows self.new room.new (hear_calling kind.now t) }
        ensures uses { Uses room.old room.new 1 1 }
    {
        let wide = self.is_wide();
        match kind {
            Kind::Setup { which, flag } => match which {
                U::Sabm if wide => {}
                U::Sabme if wide => self.send_setup(room, U::Ua, *flag),
                U::Sabm => self.send_setup(room, U::Ua, *flag),
                U::Sabme | U::Disc => self.send_setup(room, U::Dm, *flag),
                U::Dm if *flag && wide => self.call_narrow(room),
                U::Dm if *flag => self.end_call(room, Why::Refused),
                U::Ua if *flag => self.open_answered(room),
                U::Dm | U::Ua => {}
            },
            Kind::Other { which: W::Frmr, .. } if wide => self.call_narrow(room),
            Kind::Info { .. } | Kind::Super { .. } | Kind::Ui { .. } | Kind::Other { .. } => {}
        }
    }

    /// Hears a frame while a release awaits its answer.
    fn hear_releasing(
        &mut self,
        alloc: Global,
        command: bool,
        kind: &Kind,
    ) -> Result<Acts, OutOfMemory>
        requires formed { IsWhole self.old }
        requires state { self.old.control.state ≡ Releasing }
        ensures { Makes (hear_releasing command kind.now) self.old self.new result }
    {
        let mut room = Room::new(alloc, 1, 1)?;
        self.take_releasing(&mut room, command, kind);
        Ok(room.finish())
    }

    fn take_releasing(&mut self, room: &mut Room, command: bool, kind: &Kind)
        requires frames { 1 ≤ frames_left room.old }
        requires told { 1 ≤ told_left room.old }
        ensures { (t : Turn) → Shows self.old room.old t → Shows self.new room.new (hear_releasing command kind.now t) }
    {
        match kind {
            Kind::Setup { which, flag } => match which {
                U::Sabm | U::Sabme => self.send_setup(room, U::Dm, *flag),
                U::Disc => self.send_setup(room, U::Ua, *flag),
                U::Dm | U::Ua if *flag => self.end_call(room, Why::Asked),
                U::Dm | U::Ua => {}
            },
            Kind::Info { poll, .. } if *poll => self.send_setup(room, U::Dm, true),
            Kind::Super { flag, .. } if command && *flag => self.send_setup(room, U::Dm, true),
            Kind::Info { .. } | Kind::Super { .. } | Kind::Ui { .. } | Kind::Other { .. } => {}
        }
    }
}
