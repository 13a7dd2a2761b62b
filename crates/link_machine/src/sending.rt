//! The frames that a link sends.
ghost use Rattle.std.specs.Prelude.{◌≡◌, ℕ, ◌+◌, ◌%◌, ◌≤◌, ◌++◌, ◌∷◌, [], Bool};
ghost use Rattle.link_machine.specs.Sent.{role_of, xid_octets};
ghost use Rattle.link_machine.specs.Sent.Sent.{SuperSent, SetupSent, XidSent};
ghost use Rattle.xid_parameters.specs.declared.parameters.LinkParameters.{LinkParameters};
ghost use Rattle.link_machine.specs.Turn.{Turn, sending, telling};
ghost use Rattle.link_machine.specs.Room.{frames_left, told_left, Uses};
ghost use Rattle.link_machine.specs.Held.{Shows, frame_from};
ghost use Rattle.ax25_frames.specs.FrameText.{sets_up_or_ends};

use crate::acts::{SentFrame, Told};
use crate::machine::Machine;
use crate::room::Room;
use ax25_address::Role;
use ax25_frames::{Frame, Kind, S, U, W};
use tnc_base::Octets;

/// The role of a command, or of a response.
fn role_of(command: bool) -> Role
    ensures { result ≡ role_of command }
{
    if command {
        Role::Command
    } else {
        Role::Response
    }
}

/// Whether a frame that sets up or ends a link is a command.
fn sets_up_or_ends(which: U) -> bool
    ensures { result ≡ sets_up_or_ends which }
{
    matches!(which, U::Sabm | U::Sabme | U::Disc)
}

impl Machine {
    /// Sends a frame on the link's path, in the modulus that the link has.
    pub(crate) fn send(&self, room: &mut Room, role: Role, kind: Kind)
        requires { 1 ≤ frames_left room.old }
        ensures frames { room.new.frames.items ≡ room.old.frames.items ++ frame_from self.now role kind ∷ [] }
        ensures told { room.new.told ≡ room.old.told }
        ensures uses { Uses room.old room.new 1 0 }
    {
        room.send(SentFrame {
            frame: Frame {
                path: self.path.with_role(role),
                kind,
            },
            modulus: self.modulus(),
        });
    }

    /// Sends SABM, SABME, DISC, UA or DM.
    pub(crate) fn send_setup(&self, room: &mut Room, which: U, flag: bool)
        requires { 1 ≤ frames_left room.old }
        ensures shows { (t : Turn) → Shows self.now room.old t
            → Shows self.now room.new (sending (SetupSent which flag) t) }
        ensures uses { Uses room.old room.new 1 0 }
    {
        let role = role_of(sets_up_or_ends(which));
        self.send(room, role, Kind::Setup { which, flag });
    }

    /// Sends an S frame with the number `nr`.
    pub(crate) fn send_super(&self, room: &mut Room, which: S, command: bool, nr: u8, flag: bool)
        requires { 1 ≤ frames_left room.old }
        ensures shows { (t : Turn) (n : ℕ) → Shows self.now room.old t → nr ≡ n % self.now.incoming.modulus
            → Shows self.now room.new (sending (SuperSent which command n flag) t) }
        ensures uses { Uses room.old room.new 1 0 }
    {
        self.send(room, role_of(command), Kind::Super { which, nr, flag });
    }

    /// Sends XID, which tells these parameters.
    pub(crate) fn send_xid(&self, room: &mut Room, command: bool, flag: bool, octets: Octets)
        requires { 1 ≤ frames_left room.old }
        ensures shows { (t : Turn) (own : LinkParameters) → Shows self.now room.old t → octets ≡ xid_octets own
            → Shows self.now room.new (sending (XidSent command flag own) t) }
        ensures uses { Uses room.old room.new 1 0 }
    {
        let which = W::Xid;
        self.send(
            room,
            role_of(command),
            Kind::Other {
                which,
                flag,
                octets,
            },
        );
    }

    /// Tells the layer above.
    pub(crate) fn tell(&self, room: &mut Room, item: Told)
        requires { 1 ≤ told_left room.old }
        ensures shows { (t : Turn) → Shows self.now room.old t → Shows self.now room.new (telling item t) }
        ensures uses { Uses room.old room.new 0 1 }
    {
        room.tell(item);
    }
}
