//! A link, as the layer above sees it.
ghost use Rattle.std.specs.Prelude.{◌≡◌, ℕ, ◌<◌, ◌⊎◌, ◌↔◌, true, Bool, Ok, Err, Some, OnOk, OnErr, IfOk, IfErr, All};
ghost use Rattle.std.specs.Prelude.{length, List};
ghost use Rattle.std.specs.Result.{IsErrOf};

use crate::acts::Acts;
use crate::fault::{LinkFault, NewFault};
use crate::machine::Machine;
use crate::params::Params;
use crate::state::LinkState;
use ax25_address::Path;
use ax25_frames::{Frame, Modulus};
use selective_reject::Packet;
use std::alloc::Global;
use std::marker::Model;
use tnc_base::OutOfMemory;

/// The most octets of a packet, N1.
const MOST_OCTETS: usize = 256;

/// The most packets that wait to be acknowledged.
const MOST_PACKETS: usize = 1024;

/// One link with one station. It stands for a machine that counts its packets from 0 in each set-up, and makes exactly
/// the step of that machine at each call.
#[derive(Drop)]
pub struct Link {
    alloc: Global,
    machine: Machine,
}

impl Model for Link {
    ghost use Rattle.link_machine.specs.declared.machine.Machine.{Machine};
    ghost use Rattle.link_machine.specs.Held.{IsKept};

    ghost Value = { Machine };

    ghost view = { λ link. link.machine };

    ghost invariant = { λ link. IsKept link.machine };
}

impl Link {
    ghost use Rattle.ax25_frames.specs.ControlField.{IsNumbered, numbers};
    ghost use Rattle.ax25_frames.specs.FrameOctets.{control_of};
    ghost use Rattle.ax25_frames.specs.declared.frame.Kind.TheVariants.{Info};
    ghost use Rattle.ax25_address.specs.declared.path.Path.{Path as AnyPath};
    ghost use Rattle.link_machine.specs.Params.{HasWindows, IsRefusedWindow};
    ghost use Rattle.link_machine.specs.Machine.{Machine as State, new_machine, modulus_named};
    ghost use Rattle.link_machine.specs.Event.Event.{Connect, Send, Disconnect, Hear, Tick, Seize};
    ghost use Rattle.link_machine.specs.Wants.{wants};
    ghost use Rattle.link_machine.specs.Asks.{asks};
    ghost use Rattle.link_machine.specs.Requests.{refusal};
    ghost use Rattle.link_machine.specs.Sent.{IsWritable};
    ghost use Rattle.link_machine.specs.Step.{step, done_of};
    ghost use Rattle.link_machine.specs.StandsFor.{StandsFor};
    ghost use Rattle.link_machine.specs.declared.fault.LinkFault.{LinkFault};

    /// An idle link on a path, which goes from this station to the other. It takes its memory from `alloc`, now the
    /// places of its packets in both moduli, and later for what it answers. Refuses the first of `window` and
    /// `wide_window` that does not fit its modulus.
    pub fn new(alloc: Global, params: Params, path: Path) -> Result<Link, NewFault>
        ensures stands_for { IfOk result (λ link. StandsFor link (new_machine path params)) }
        ensures windows { OnOk result (HasWindows params) }
        ensures bad_window { (window : ℕ) → IsErrOf result (NewFault.BadWindow window)
            ↔ IsRefusedWindow params window }
    {
        match Machine::new(alloc, params, path) {
            Ok(machine) => Ok(Link { alloc, machine }),
            Err(fault) => Err(fault),
        }
    }

    /// The same link, in memory of its own, to try what an event would make of it.
    pub fn copy(&self) -> Result<Link, OutOfMemory>
        ensures { IfOk result (λ copy. copy ≡ self.now) }
    {
        Ok(Link {
            alloc: self.alloc,
            machine: self.machine.copy(self.alloc)?,
        })
    }

    /// Calls the other station. Refused if there is a link already.
    pub fn connect(&mut self) -> Result<Acts, LinkFault>
        ensures step { (m : State) → StandsFor self.old m → IfOk result (λ acts. acts ≡ done_of (step m Connect)) }
        ensures stands_for { (m : State) → StandsFor self.old m
            → OnOk result (StandsFor self.new (step m Connect).now) }
        ensures refused { (fault : LinkFault) → refusal self.old.control (length self.old.outgoing.packets) Connect
            ≡ Some fault → result ≡ Err fault }
        ensures fault { IfErr result (λ fault. (fault
            ≡ LinkFault.Memory) ⊎ (refusal self.old.control (length self.old.outgoing.packets) Connect ≡ Some fault)) }
        ensures writable { IfOk result (λ acts. All IsWritable acts.frames) }
        ensures unchanged { OnErr result (self.new ≡ self.old) }
    {
        if let Some(fault) = self.connect_refusal() {
            return Err(fault);
        }
        let acts = self.machine.take_connect(self.alloc)?;
        Ok(acts)
    }

    /// Gives a packet of at most 256 octets to be sent. Refused if there is no link or a disconnect was asked for, if
    /// 1024 packets wait, and if the packet is too long.
    pub fn send(&mut self, packet: Packet) -> Result<Acts, LinkFault>
        ensures step { (m : State) → StandsFor self.old m → IfOk result (λ acts. acts
            ≡ done_of (step m (Send packet))) }
        ensures stands_for { (m : State) → StandsFor self.old m
            → OnOk result (StandsFor self.new (step m (Send packet)).now) }
        ensures refused { (fault : LinkFault)
            → refusal self.old.control (length self.old.outgoing.packets) (Send packet) ≡ Some fault → result
            ≡ Err fault }
        ensures fault { IfErr result (λ fault. (fault
            ≡ LinkFault.Memory) ⊎ (refusal self.old.control (length self.old.outgoing.packets) (Send packet)
            ≡ Some fault)) }
        ensures writable { IfOk result (λ acts. All IsWritable acts.frames) }
        ensures unchanged { OnErr result (self.new ≡ self.old) }
    {
        if let Some(fault) = self.send_refusal(&packet) {
            return Err(fault);
        }
        let acts = self.machine.take_packet(self.alloc, packet)?;
        Ok(acts)
    }

    /// Takes a call back at once. A link that is up is to be released once every packet is acknowledged; if that is
    /// asked for again, the packets are given up and it is released at once. Refused if there is no link, and while it
    /// is released.
    pub fn disconnect(&mut self) -> Result<Acts, LinkFault>
        ensures step { (m : State) → StandsFor self.old m → IfOk result (λ acts. acts ≡ done_of (step m Disconnect)) }
        ensures stands_for { (m : State) → StandsFor self.old m
            → OnOk result (StandsFor self.new (step m Disconnect).now) }
        ensures refused { (fault : LinkFault) → refusal self.old.control (length self.old.outgoing.packets) Disconnect
            ≡ Some fault → result ≡ Err fault }
        ensures fault { IfErr result (λ fault. (fault
            ≡ LinkFault.Memory) ⊎ (refusal self.old.control (length self.old.outgoing.packets) Disconnect
            ≡ Some fault)) }
        ensures writable { IfOk result (λ acts. All IsWritable acts.frames) }
        ensures unchanged { OnErr result (self.new ≡ self.old) }
    {
        if let Some(fault) = self.disconnect_refusal() {
            return Err(fault);
        }
        let acts = self.machine.take_disconnect(self.alloc)?;
        Ok(acts)
    }

    /// Hears a frame from the other station, whose numbers are below the link's modulus, as [`ax25_frames::read_frame`]
    /// in that modulus gives it.
    pub fn frame(&mut self, frame: &Frame) -> Result<Acts, OutOfMemory>
        requires { IsNumbered (modulus_named self.old.incoming.modulus) (control_of frame.now.kind) }
        ensures step { (m : State) → StandsFor self.old m → IfOk result (λ acts. acts
            ≡ done_of (step m (Hear frame.now))) }
        ensures stands_for { (m : State) → StandsFor self.old m
            → OnOk result (StandsFor self.new (step m (Hear frame.now)).now) }
        ensures writable { IfOk result (λ acts. All IsWritable acts.frames) }
        ensures unchanged { OnErr result (self.new ≡ self.old) }
    {
        self.machine.hear(self.alloc, frame)
    }

    /// A tick of 10 ms. `still` says that T1 stands still in it: a frame of this link waits or is on the air, or the
    /// channel is busy in half duplex.
    pub fn tick(&mut self, still: bool) -> Result<Acts, OutOfMemory>
        ensures step { (m : State) → StandsFor self.old m → IfOk result (λ acts. acts
            ≡ done_of (step m (Tick still))) }
        ensures stands_for { (m : State) → StandsFor self.old m
            → OnOk result (StandsFor self.new (step m (Tick still)).now) }
        ensures writable { IfOk result (λ acts. All IsWritable acts.frames) }
        ensures unchanged { OnErr result (self.new ≡ self.old) }
    {
        self.machine.tick(self.alloc, still)
    }

    /// Gives the channel one frame, made from what the link then owes and has to give; none if it does not want to
    /// send. `last` says that the transmission ends with it, `full` that both sides may send at once.
    pub fn seize(&mut self, last: bool, full: bool) -> Result<Acts, OutOfMemory>
        ensures step { (m : State) → StandsFor self.old m → IfOk result (λ acts. acts
            ≡ done_of (step m (Seize last full))) }
        ensures stands_for { (m : State) → StandsFor self.old m
            → OnOk result (StandsFor self.new (step m (Seize last full)).now) }
        ensures writable { IfOk result (λ acts. All IsWritable acts.frames) }
        ensures unchanged { OnErr result (self.new ≡ self.old) }
    {
        self.machine.seize(self.alloc, last, full)
    }

    /// True if the link wants to send: [`Link::seize`] then gives a frame, or sees that a poll was not heard.
    pub fn wants(&self) -> bool
        ensures { (m : State) → StandsFor self.now m → result ≡ wants m }
    {
        self.machine.wants()
    }

    /// Whether [`Link::connect`] sends SABM or SABME, memory apart. It takes none.
    pub fn connect_asks(&self) -> bool
        ensures { (m : State) → StandsFor self.now m → result ≡ asks m Connect }
    {
        self.connect_refusal().is_none()
    }

    /// Whether [`Link::disconnect`] sends DISC at once, memory apart. It takes none.
    pub fn disconnect_asks(&self) -> bool
        ensures { (m : State) → StandsFor self.now m → result ≡ asks m Disconnect }
    {
        if self.disconnect_refusal().is_some() {
            return false;
        }
        self.machine.quit_asks()
    }

    /// Whether [`Link::frame`] sends SABM, SABME or DISC on this frame, memory apart. It takes none.
    pub fn frame_asks(&self, frame: &Frame) -> bool
        requires { IsNumbered (modulus_named self.now.incoming.modulus) (control_of frame.now.kind) }
        ensures { (m : State) → StandsFor self.now m → result ≡ asks m (Hear frame.now) }
    {
        self.machine.hear_asks(&frame.kind)
    }

    /// The same of an I frame with this N(R), whatever else it says.
    pub fn info_asks(&self, nr: u8) -> bool
        requires { nr < numbers (modulus_named self.now.incoming.modulus) }
        ensures { (m : State) (path : AnyPath) (ns pid : ℕ) (poll : Bool) (octets : List ℕ) → StandsFor self.now m
            → result ≡ asks m (Hear (record { path = path; kind = Info ns nr poll pid octets })) }
    {
        self.machine.info_asks(nr)
    }

    /// The same of [`Link::tick`].
    pub fn tick_asks(&self, still: bool) -> bool
        ensures { (m : State) → StandsFor self.now m → result ≡ asks m (Tick still) }
    {
        self.machine.tick_asks(still)
    }

    /// The same of [`Link::seize`].
    pub fn seize_asks(&self) -> bool
        ensures { (m : State) (last full : Bool) → StandsFor self.now m → result ≡ asks m (Seize last full) }
    {
        self.machine.seize_asks()
    }

    /// Why [`Link::connect`] would refuse, memory apart. It takes none.
    pub fn connect_refusal(&self) -> Option<LinkFault>
        ensures { result ≡ refusal self.now.control (length self.now.outgoing.packets) Connect }
    {
        if self.machine.control.has_link() {
            return Some(self.machine.wrong_state());
        }
        None
    }

    /// Why [`Link::send`] would refuse the packet, memory apart. It takes none.
    pub fn send_refusal(&self, packet: &Packet) -> Option<LinkFault>
        ensures { result ≡ refusal self.now.control (length self.now.outgoing.packets) (Send packet.now) }
    {
        if self.machine.control.is_closed() {
            return Some(self.machine.wrong_state());
        }
        if self.machine.outgoing.len() >= MOST_PACKETS {
            return Some(LinkFault::Full);
        }
        let len = packet.octets.len();
        if len > MOST_OCTETS {
            return Some(LinkFault::TooLong { len });
        }
        None
    }

    /// Why [`Link::disconnect`] would refuse, memory apart. It takes none.
    pub fn disconnect_refusal(&self) -> Option<LinkFault>
        ensures { result ≡ refusal self.now.control (length self.now.outgoing.packets) Disconnect }
    {
        if self.machine.control.takes_none() {
            return Some(self.machine.wrong_state());
        }
        None
    }

    /// Where the link stands.
    pub fn state(&self) -> LinkState
        ensures state { result ≡ self.now.control.state }
        ensures stands_for { (m : State) → StandsFor self.now m → result ≡ m.control.state }
    {
        self.machine.control.state
    }

    /// The modulus of its numbers: that of the set-up, or of the call; 8 if there is none.
    pub fn modulus(&self) -> Modulus
        ensures modulus { result ≡ modulus_named self.now.incoming.modulus }
        ensures stands_for { (m : State) → StandsFor self.now m → result ≡ modulus_named m.incoming.modulus }
    {
        self.machine.modulus()
    }

    /// How many packets are not acknowledged.
    pub fn pending(&self) -> usize
        ensures count { result ≡ length self.now.outgoing.packets }
        ensures stands_for { (m : State) → StandsFor self.now m → result ≡ length m.outgoing.packets }
    {
        self.machine.outgoing.len()
    }
}
