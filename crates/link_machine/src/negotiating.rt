//! What the two ends of a link agree on by XID.
ghost use Rattle.std.specs.Prelude.{◌≡◌, ℕ, List, ◌≤◌, ◌<◌, IfOk, IsTrue};
ghost use Rattle.link_machine.specs.Machine.{Machine as State};
ghost use Rattle.link_machine.specs.declared.state.LinkState.TheVariants.{Idle};
ghost use Rattle.link_machine.specs.Negotiation.{parameters_by, own_parameters, widest_parameters, in_use, agreed, using, hear_xid, hear_xid_idle};
ghost use Rattle.link_machine.specs.Negotiation.{awaits_xid, to_ask, asks_in, ask_xid, asked_once, ends, is_due};
ghost use Rattle.link_machine.specs.Negotiation.{tm201_ticked, has_done, is_heard_as_command};
ghost use Rattle.link_machine.specs.Sent.{xid_octets};
ghost use Rattle.link_machine.specs.Turn.{Turn};
ghost use Rattle.link_machine.specs.Room.{frames_left, Uses};
ghost use Rattle.link_machine.specs.Held.{IsWhole, Holds, Shows, Makes};

use crate::acts::Acts;
use crate::control::Control;
use crate::machine::Machine;
use crate::params::FittingParams;
use crate::room::Room;
use crate::state::LinkState;
use ax25_address::Role;
use ax25_frames::{Frame, Kind, Modulus, is_command};
use std::alloc::Global;
use tnc_base::{Octets, OutOfMemory};
use xid_parameters::{Duplex, LinkParameters, ToldParameters, told_in_xid, write_xid};

/// The most XID commands of a link.
const MOST_ASKED: u8 = 4;

/// Whether a frame is heard as a command: XID, TEST and FRMR are by their C bits.
pub(crate) fn is_heard_as_command(frame: &Frame) -> bool
    ensures { result ≡ is_heard_as_command frame.now.path.role frame.now.kind }
{
    match &frame.kind {
        Kind::Other { .. } => matches!(frame.path.role, Role::Command),
        _ => is_command(frame),
    }
}

/// What a link has once it is told the parameters of the other end.
fn in_use(own: LinkParameters, told: &ToldParameters) -> LinkParameters
    ensures own { result ≡ in_use own told.now }
    ensures small { result.info_octets ≡ own.info_octets }
{
    let agreed = xid_parameters::agreed(&own, told);
    LinkParameters {
        window: agreed.window,
        t1: agreed.t1,
        retries: agreed.retries,
        ..own
    }
}

/// The information of an XID frame.
fn xid_octets(alloc: Global, own: &LinkParameters) -> Result<Octets, OutOfMemory>
    requires { own.now.info_octets ≤ 8191 }
    ensures { IfOk result (λ octets. octets ≡ xid_octets own.now) }
{
    Octets::from_slice(alloc, &write_xid(own))
}

impl Control {
    /// The parameters that a link has in a modulus.
    fn parameters(&self, params: &FittingParams, modulus: Modulus) -> LinkParameters
        ensures own { result ≡ parameters_by modulus params.now self.now }
        ensures small { result.info_octets ≤ 8191 }
    {
        let t1 = u32::from(self.t1_base) * 10;
        LinkParameters {
            duplex: Duplex::Half,
            mode: params.mode_in(modulus),
            modulus,
            info_octets: 256,
            window: params.window_in(modulus).min(self.most_sent),
            t1: t1.min(65_535) as u16,
            retries: self.most_retries,
        }
    }

    /// Uses what was agreed on.
    fn apply(&mut self, agreed: &LinkParameters)
        ensures { self.new ≡ using agreed.now self.old }
    {
        self.most_sent = agreed.window;
        self.t1_base = self.t1_base.max(agreed.t1 / 10);
        self.most_retries = agreed.retries;
    }

    /// Whether an XID command awaits its answer.
    fn awaits_xid(&self) -> bool
        ensures { result ≡ awaits_xid self.now }
    {
        self.asked > 0 && self.tm201.is_some()
    }

    /// Is to ask by XID, after a call modulo 128 of a link that has not asked before.
    pub(crate) fn to_ask(&mut self, wide: bool)
        ensures { self.new ≡ to_ask wide self.old }
    {
        if wide && self.asked == 0 {
            self.tm201 = Some(1);
        }
    }

    /// An XID command was sent.
    fn ask_xid(&mut self)
        requires { self.old.asked < 4 }
        ensures { self.new ≡ asked_once self.old }
    {
        self.asked += 1;
        self.tm201 = Some(self.t1_after(0));
    }

    /// A tick of TM201.
    pub(crate) fn tick_tm201(&mut self, still: bool)
        ensures { self.new ≡ tm201_ticked still self.old }
    {
        let Some(left) = self.tm201 else {
            return;
        };
        if !still {
            self.tm201 = if left <= 1 { None } else { Some(left - 1) };
        }
    }

    /// Whether an XID command is due with this tick: TM201 runs out, and there were not as many as may be.
    fn is_due(&self, still: bool) -> bool
        ensures due { result ≡ is_due still self.now }
        ensures few { IsTrue result → self.now.asked < 4 }
    {
        !still && self.tm201_ends() && self.asked < MOST_ASKED
    }

    /// Whether TM201 runs out with the next tick.
    fn tm201_ends(&self) -> bool
        ensures { result ≡ ends self.now.tm201 }
    {
        matches!(self.tm201, Some(left) if left <= 1)
    }
}

impl Machine {
    /// The parameters that the link has in its own modulus.
    fn own_parameters(&self) -> LinkParameters
        ensures own { (m : State) → Holds self.now m → result ≡ own_parameters m }
        ensures small { result.info_octets ≤ 8191 }
    {
        self.control.parameters(&self.params, self.modulus())
    }

    /// The parameters that the link has in the greatest modulus.
    fn widest_parameters(&self) -> LinkParameters
        ensures own { (m : State) → Holds self.now m → result ≡ widest_parameters m }
        ensures small { result.info_octets ≤ 8191 }
    {
        self.control
            .parameters(&self.params, Modulus::OneTwentyEight)
    }

    /// What the link has once it hears XID with this information.
    fn agreed(&self, octets: &Octets) -> LinkParameters
        ensures own { (m : State) → Holds self.now m → result ≡ agreed octets.now m }
        ensures small { result.info_octets ≤ 8191 }
    {
        in_use(self.own_parameters(), &told_in_xid(octets.as_slice()))
    }

    /// Whether the link is to be released, and has nothing left to send.
    fn has_done(&self) -> bool
        ensures { (m : State) → Holds self.now m → result ≡ has_done m }
    {
        self.control.quit && self.outgoing.is_empty()
    }

    /// Hears XID while the link is up.
    pub(crate) fn hear_xid(
        &mut self,
        alloc: Global,
        command: bool,
        flag: bool,
        octets: &Octets,
    ) -> Result<Acts, OutOfMemory>
        requires { IsWhole self.old }
        ensures { Makes (hear_xid command flag octets.now) self.old self.new result }
    {
        let own = self.agreed(octets);
        let answer = xid_octets(alloc, &own)?;
        let mut room = Room::new(alloc, 2, 0)?;
        self.take_xid(&mut room, command, flag, &own, answer);
        self.settle(&mut room);
        Ok(room.finish())
    }

    fn take_xid(
        &mut self,
        room: &mut Room,
        command: bool,
        flag: bool,
        own: &LinkParameters,
        answer: Octets,
    )
        requires { 1 ≤ frames_left room.old }
        ensures shows { (t : Turn) (octets : List ℕ) → Shows self.old room.old t → own.now ≡ agreed octets t.now
            → answer ≡ xid_octets own.now → Shows self.new room.new (hear_xid command flag octets t) }
        ensures uses { Uses room.old room.new 1 0 }
        ensures quit { self.new.control.quit ≡ self.old.control.quit }
    {
        if command {
            if !self.has_done() {
                self.control.apply(own);
                self.send_xid(room, false, flag, answer);
            }
        } else if flag && self.control.awaits_xid() {
            self.control.apply(own);
            self.control.tm201 = None;
        }
    }

    /// Hears XID while there is no link: a command is answered.
    pub(crate) fn hear_xid_idle(
        &mut self,
        alloc: Global,
        command: bool,
        flag: bool,
    ) -> Result<Acts, OutOfMemory>
        requires formed { IsWhole self.old }
        requires state { self.old.control.state ≡ Idle }
        ensures { Makes (hear_xid_idle command flag) self.old self.new result }
    {
        let own = self.widest_parameters();
        let answer = xid_octets(alloc, &own)?;
        let mut room = Room::new(alloc, 1, 0)?;
        if command {
            self.send_xid(&mut room, false, flag, answer);
        }
        Ok(room.finish())
    }

    /// Whether an XID command goes out with this tick.
    pub(crate) fn asks_xid(&self, still: bool) -> bool
        ensures asks { (m : State) → Holds self.now m → result ≡ asks_in m.control.state still m }
        ensures few { IsTrue result → self.now.control.asked < 4 }
    {
        let due = self.control.is_due(still) && !self.has_done();
        matches!(self.control.state, LinkState::Up) && due
    }

    /// Asks by XID.
    pub(crate) fn ask_xid(&mut self, alloc: Global) -> Result<Acts, OutOfMemory>
        requires formed { IsWhole self.old }
        requires few { self.old.control.asked < 4 }
        ensures { Makes ask_xid self.old self.new result }
    {
        let own = self.own_parameters();
        let octets = xid_octets(alloc, &own)?;
        let mut room = Room::new(alloc, 2, 0)?;
        self.send_xid(&mut room, true, true, octets);
        self.control.ask_xid();
        self.settle(&mut room);
        Ok(room.finish())
    }
}
