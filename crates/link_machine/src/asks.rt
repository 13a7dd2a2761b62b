//! Whether an event makes a link send SABM, SABME or DISC. It is told before the event happens, and takes no memory.
ghost use Rattle.std.specs.Prelude.{◌≡◌, ℕ, ◌<◌, ◌||◌, Bool, List};
ghost use Rattle.ax25_frames.specs.ControlField.{IsNumbered, numbers};
ghost use Rattle.ax25_frames.specs.FrameOctets.{control_of};
ghost use Rattle.ax25_frames.specs.declared.frame.Kind.TheVariants.{Info};
ghost use Rattle.link_machine.specs.Asks.{is_leaving, number_asks, super_asks, setup_asks_up, other_asks_up, hear_asks_up};
ghost use Rattle.link_machine.specs.Asks.{setup_asks_calling, other_asks_calling, hear_asks_calling, hear_asks};
ghost use Rattle.link_machine.specs.Asks.{leaves_in, quit_asks, t1_ends, tick_asks};
ghost use Rattle.link_machine.specs.Held.{Holds, IsWhole};
ghost use Rattle.link_machine.specs.Machine.{Machine as State, is_wide, modulus_named};
ghost use Rattle.link_machine.specs.Wants.{wants};

use crate::machine::Machine;
use crate::state::LinkState;
use ax25_frames::{Kind, S, U, W};

impl Machine {
    /// Whether a link that is up is released at the end of an event that acknowledges nothing.
    fn is_leaving(&self) -> bool
        ensures { (m : State) → Holds self.now m → result ≡ is_leaving m }
    {
        self.control.quit && self.outgoing.is_empty()
    }

    /// Whether a disconnect sends DISC at once.
    pub(crate) fn quit_asks(&self) -> bool
        ensures { (m : State) → Holds self.now m → result ≡ quit_asks m.control.state m }
    {
        match self.control.state {
            LinkState::Up => self.control.quit || self.outgoing.is_empty(),
            LinkState::Idle | LinkState::Calling | LinkState::Releasing => false,
        }
    }

    /// Whether an event that changes nothing of it makes the link ask.
    pub(crate) fn seize_asks(&self) -> bool
        ensures { (m : State) → Holds self.now m → result ≡ leaves_in m.control.state m }
    {
        match self.control.state {
            LinkState::Up => self.is_leaving(),
            LinkState::Idle | LinkState::Calling | LinkState::Releasing => false,
        }
    }

    /// Whether T1 runs out with a tick.
    fn t1_ends(&self, still: bool) -> bool
        requires { IsWhole self.now }
        ensures { (m : State) → Holds self.now m → result ≡ t1_ends m.control.t1 (still || wants m) }
    {
        let Some(left) = self.control.t1 else {
            return false;
        };
        if still || self.wants() {
            return false;
        }
        left <= 1
    }

    /// Whether a tick makes the link ask.
    pub(crate) fn tick_asks(&self, still: bool) -> bool
        requires { IsWhole self.now }
        ensures { (m : State) → Holds self.now m
            → result ≡ tick_asks m.control.state (t1_ends m.control.t1 (still || wants m)) m }
    {
        let ends = self.t1_ends(still);
        let spent = self.control.is_spent();
        match self.control.state {
            LinkState::Idle => false,
            LinkState::Calling | LinkState::Releasing => ends && !spent,
            LinkState::Up => {
                if ends && spent {
                    return false;
                }
                self.is_leaving()
            }
        }
    }

    /// Whether an I frame with this N(R) makes a link that is up ask.
    fn number_asks(&self, nr: u8) -> bool
        requires { nr < self.now.incoming.modulus }
        ensures { (m : State) → Holds self.now m → result ≡ number_asks nr m }
    {
        let Ok(count) = self.outgoing.acknowledgement(self.incoming.modulus(), nr) else {
            return true;
        };
        self.control.quit && usize::from(count) == self.outgoing.len()
    }

    /// The same of an S frame.
    fn super_asks(&self, which: S, nr: u8, flag: bool) -> bool
        requires { nr < self.now.incoming.modulus }
        ensures { (m : State) → Holds self.now m → result ≡ super_asks which nr flag m }
    {
        match which {
            S::Rr | S::Rnr | S::Rej => self.number_asks(nr),
            S::Srej => {
                if flag {
                    return self.number_asks(nr);
                }
                if !self.is_valid(nr) {
                    return true;
                }
                self.is_leaving()
            }
        }
    }

    fn setup_asks_up(&self, which: U) -> bool
        ensures { (m : State) → Holds self.now m → result ≡ setup_asks_up which m }
    {
        match which {
            U::Sabm | U::Sabme | U::Disc | U::Dm => false,
            U::Ua => self.is_leaving(),
        }
    }

    fn other_asks_up(&self, which: W) -> bool
        ensures { (m : State) → Holds self.now m → result ≡ other_asks_up which m }
    {
        match which {
            W::Frmr => true,
            W::Xid | W::Test => self.is_leaving(),
        }
    }

    fn hear_asks_up(&self, kind: &Kind) -> bool
        requires formed { IsWhole self.now }
        requires numbers { IsNumbered (modulus_named self.now.incoming.modulus) (control_of kind.now) }
        ensures { (m : State) → Holds self.now m → result ≡ hear_asks_up kind.now m }
    {
        match kind {
            Kind::Info { nr, .. } => self.number_asks(*nr),
            Kind::Super { which, nr, flag } => self.super_asks(*which, *nr, *flag),
            Kind::Setup { which, .. } => self.setup_asks_up(*which),
            Kind::Ui { .. } => self.is_leaving(),
            Kind::Other { which, .. } => self.other_asks_up(*which),
        }
    }

    fn setup_asks_calling(&self, which: U, flag: bool) -> bool
        ensures { (m : State) → Holds self.now m → result ≡ setup_asks_calling (is_wide m) which flag m }
    {
        match which {
            U::Sabm | U::Sabme | U::Disc => false,
            U::Dm => flag && self.is_wide(),
            U::Ua => flag && self.is_leaving(),
        }
    }

    fn other_asks_calling(&self, which: W) -> bool
        ensures { (m : State) → Holds self.now m → result ≡ other_asks_calling (is_wide m) which }
    {
        match which {
            W::Frmr => self.is_wide(),
            W::Xid | W::Test => false,
        }
    }

    fn hear_asks_calling(&self, kind: &Kind) -> bool
        ensures { (m : State) → Holds self.now m → result ≡ hear_asks_calling (is_wide m) kind.now m }
    {
        match kind {
            Kind::Info { .. } | Kind::Super { .. } | Kind::Ui { .. } => false,
            Kind::Setup { which, flag } => self.setup_asks_calling(*which, *flag),
            Kind::Other { which, .. } => self.other_asks_calling(*which),
        }
    }

    /// Whether a frame makes the link ask.
    pub(crate) fn hear_asks(&self, kind: &Kind) -> bool
        requires formed { IsWhole self.now }
        requires numbers { IsNumbered (modulus_named self.now.incoming.modulus) (control_of kind.now) }
        ensures { (m : State) → Holds self.now m → result ≡ hear_asks m.control.state kind.now m }
    {
        match self.control.state {
            LinkState::Idle | LinkState::Releasing => false,
            LinkState::Calling => self.hear_asks_calling(kind),
            LinkState::Up => self.hear_asks_up(kind),
        }
    }

    /// Whether an I frame with this N(R), whatever else it says, makes the link ask.
    pub(crate) fn info_asks(&self, nr: u8) -> bool
        requires formed { IsWhole self.now }
        requires number { nr < numbers (modulus_named self.now.incoming.modulus) }
        ensures { (m : State) (ns pid : ℕ) (poll : Bool) (octets : List ℕ) → Holds self.now m
            → result ≡ hear_asks m.control.state (Info ns nr poll pid octets) m }
    {
        match self.control.state {
            LinkState::Idle | LinkState::Calling | LinkState::Releasing => false,
            LinkState::Up => self.number_asks(nr),
        }
    }
}
