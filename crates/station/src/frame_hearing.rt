//! A frame that is heard.
ghost use Rattle.std.specs.Prelude.{◌&&◌, nat_lt, count_by, is_some, ◌≡◌, ℕ, ◌<◌, ◌↔◌, not, Some, None, OnOk, IfOk, false};
ghost use Rattle.std.specs.Prelude.{IsTrue, true, OnErr};
ghost use Rattle.ax25_address.specs.FramePath.{BeginsWithPath, way_back};
ghost use Rattle.ax25_address.specs.declared.path.Role.TheVariants.{Command};
ghost use Rattle.ax25_frames.specs.ControlField.{IsNumbered};
ghost use Rattle.ax25_frames.specs.FrameOctets.{control_of};
ghost use Rattle.ax25_frames.specs.declared.frame.Modulus.TheVariants.{Eight};
ghost use Rattle.frame_monitor.specs.HeardStations.{hearing_station};
ghost use Rattle.hdlc_framer.specs.FrameLength.{HasFrameLength};
ghost use Rattle.station.specs.Heard.{IsReadAs, IsHeard, IsRepeatedFor, AreOctetsHeard, AreHeardAt, IsHeardAnew};
ghost use Rattle.station.specs.Heard.{IsForLink, finds_link, noting};
ghost use Rattle.station.specs.Heard.{waits_for_repeater, makes_link, is_command_to_set_up};
ghost use Rattle.station.specs.Links.{key_between};
ghost use Rattle.station.specs.Held.{ids_in};
ghost use Rattle.station.specs.Registrations.{registrar};
ghost use Rattle.station.specs.HeldFrames.{IsUnread};
ghost use Rattle.station.specs.StandsFor.{Shows};
ghost use Rattle.station.specs.Turn.{Out, Turn};

use crate::host_out::HostOut;
use crate::link_event::LinkEvent;
use crate::memory::Memory;
use crate::new_links::NO_LAYER_3;
use crate::parts::Parts;
use agwpe_port::call_text;
use ax25_address::{Call, Path, Role, read_path, reversed};
use ax25_frames::{Frame, FrameFault, Kind, Modulus, U, W, read_frame};
use digipeater::repeat;
use frame_monitor::{HeardStation, hear_station};
use tnc_base::{Octets, OutOfMemory};

impl Parts {
    /// Shows a frame to hosts, and repeats it or hands it to its link.
    pub(crate) fn hear(
        &mut self,
        memory: &mut Memory,
        out: &mut HostOut,
        octets: &[u8],
    ) -> Result<(), OutOfMemory>
        requires { HasFrameLength octets.now }
        ensures heard { (turn : Turn) → Shows self.old out.old turn → OnOk result ((following : Turn)
            × IsHeard octets.now turn following × Shows self.new out.new following) }
        ensures ids { OnOk result (ids_in self.new ≡ ids_in self.old) }
        ensures wanted { OnErr result (memory.new.refused ≡ true) }
    {
        match read_path(octets) {
            Ok((path, _)) => self.hear_along(memory, out, &path, octets),
            Err(_) => {
                self.show(memory, out, [0; 10], [0; 10], octets)?;
                self.note_unread();
                Ok(())
            }
        }
    }

    /// The same, if the frame begins with this path.
    fn hear_along(
        &mut self,
        memory: &mut Memory,
        out: &mut HostOut,
        path: &Path,
        octets: &[u8],
    ) -> Result<(), OutOfMemory>
        requires { HasFrameLength octets.now }
        ensures heard { (turn : Turn) (len : ℕ) → BeginsWithPath octets.now path.now len → Shows self.old out.old turn
            → OnOk result ((following : Turn) × IsHeard octets.now turn following × Shows self.new out.new following) }
        ensures ids { OnOk result (ids_in self.new ≡ ids_in self.old) }
        ensures wanted { OnErr result (memory.new.refused ≡ true) }
    {
        self.show(
            memory,
            out,
            call_text(&path.source),
            call_text(&path.dest),
            octets,
        )?;
        self.monitor_heard(memory, out, path, octets)?;
        if waits_for_repeater(path) {
            self.repeat(memory, out, octets)?;
            return self.note(memory, path, false);
        }
        let ours = self.hear_octets(memory, out, path, octets)?;
        self.note(memory, path, ours)
    }

    /// Tells the channel that a frame was heard which is no event of a link.
    fn note_unread(&mut self)
        ensures shows { (out : Out) (turn : Turn) → Shows self.old out turn → Shows self.new out (noting None false turn) }
        ensures ids { ids_in self.new ≡ ids_in self.old }
    {
        self.channel.heard(false);
    }

    /// Tells the channel that a frame on this path was heard, and whether it was an event of a link. Its source is
    /// among the stations that were heard last.
    fn note(&mut self, memory: &mut Memory, path: &Path, ours: bool) -> Result<(), OutOfMemory>
        ensures shows { (out : Out) (turn : Turn) → Shows self.old out turn
            → OnOk result (Shows self.new out (noting (Some path.now) ours turn)) }
        ensures ids { OnOk result (ids_in self.new ≡ ids_in self.old) }
        ensures wanted { OnErr result (memory.new.refused ≡ true) }
    {
        hear_call(memory, &mut self.heard, &path.source, self.ticks)?;
        self.channel.heard(ours);
        Ok(())
    }

    /// Queues a frame as the station repeats it, if it is the station's turn.
    fn repeat(
        &mut self,
        memory: &mut Memory,
        out: &mut HostOut,
        octets: &[u8],
    ) -> Result<(), OutOfMemory>
        requires { HasFrameLength octets.now }
        ensures repeated { (turn : Turn) → Shows self.old out.old turn → OnOk result ((following : Turn)
            × IsRepeatedFor turn.now.digi octets.now turn following × Shows self.new out.new following) }
        ensures ids { OnOk result (ids_in self.new ≡ ids_in self.old) }
        ensures wanted { OnErr result (memory.new.refused ≡ true) }
    {
        let Some(call) = self.digi else {
            return Ok(());
        };
        let mut copy = memory.list(octets)?;
        if !repeat(&mut copy, &call) {
            return Ok(());
        }
        let repeated = memory.copy(&copy)?;
        self.queue(memory, out, None, repeated)
    }

    /// Hands a frame on this path, which waits for no repeater, to the link of its calls. Tells whether it was an event
    /// of one.
    fn hear_octets(
        &mut self,
        memory: &mut Memory,
        out: &mut HostOut,
        path: &Path,
        octets: &[u8],
    ) -> Result<bool, OutOfMemory>
        ensures heard { (turn : Turn) → Shows self.old out.old turn → OnOk result ((following : Turn)
            × AreOctetsHeard path.now octets.now turn following × Shows self.new out.new following) }
        ensures ours { (turn : Turn) → Shows self.old out.old turn → IfOk result
            (IsForLink (key_between path.now.dest path.now.source turn.now.links) octets.now turn.now) }
        ensures ids { OnOk result (ids_in self.new ≡ ids_in self.old) }
        ensures wanted { OnErr result (memory.new.refused ≡ true) }
    {
        match self.links.key_between(&path.dest, &path.source) {
            Some(key) => self.hear_at(memory, out, key, octets),
            None => self.hear_unlinked(memory, out, octets),
        }
    }

    /// Hands a frame to the link of a key, which tells the modulus. Tells whether the frame can be read.
    fn hear_at(
        &mut self,
        memory: &mut Memory,
        out: &mut HostOut,
        key: u32,
        octets: &[u8],
    ) -> Result<bool, OutOfMemory>
        ensures heard { (turn : Turn) → Shows self.old out.old turn → OnOk result ((following : Turn)
            × AreHeardAt (Some key) octets.now turn following × Shows self.new out.new following) }
        ensures ours { (turn : Turn) → Shows self.old out.old turn
            → IfOk result (IsForLink (Some key) octets.now turn.now) }
        ensures ids { OnOk result (ids_in self.new ≡ ids_in self.old) }
        ensures wanted { OnErr result (memory.new.refused ≡ true) }
    {
        let modulus = self.links.modulus(key);
        match frame_in(memory, octets, modulus)? {
            Some(frame) => {
                self.link_event(memory, out, key, LinkEvent::Hear(frame))?;
                Ok(true)
            }
            None => Ok(false),
        }
    }

    /// Hands a frame whose calls have no link to one that is made for it. Tells whether one is.
    fn hear_unlinked(
        &mut self,
        memory: &mut Memory,
        out: &mut HostOut,
        octets: &[u8],
    ) -> Result<bool, OutOfMemory>
        ensures heard { (turn : Turn) → Shows self.old out.old turn → OnOk result ((following : Turn)
            × AreHeardAt None octets.now turn following × Shows self.new out.new following) }
        ensures ours { (turn : Turn) → Shows self.old out.old turn
            → IfOk result (IsForLink None octets.now turn.now) }
        ensures ids { OnOk result (ids_in self.new ≡ ids_in self.old) }
        ensures wanted { OnErr result (memory.new.refused ≡ true) }
    {
        match frame_in(memory, octets, Modulus::Eight)? {
            Some(frame) => self.hear_anew(memory, out, frame),
            None => Ok(false),
        }
    }

    /// Hands a frame to a link that is made for it, if its destination is registered. Tells whether one is.
    fn hear_anew(
        &mut self,
        memory: &mut Memory,
        out: &mut HostOut,
        frame: Frame,
    ) -> Result<bool, OutOfMemory>
        requires { IsNumbered Eight (control_of frame.kind) }
        ensures heard { (turn : Turn) → Shows self.old out.old turn → OnOk result ((following : Turn)
            × IsHeardAnew (registrar frame.path.dest turn.now.registrations) frame turn following
            × Shows self.new out.new following) }
        ensures ours { (turn : Turn) → Shows self.old out.old turn
            → IfOk result (λ ours. ours ≡ finds_link None frame turn.now) }
        ensures ids { OnOk result (ids_in self.new ≡ ids_in self.old) }
        ensures wanted { OnErr result (memory.new.refused ≡ true) }
    {
        let (dest, source) = ends_of(&frame);
        let Some(id) = self.registrar(&dest) else {
            return Ok(false);
        };
        if !self.may_make(&frame) {
            return Ok(false);
        }
        let back = back_from(&frame);
        let key = self.make_link(memory, id, NO_LAYER_3, dest, source, back)?;
        self.link_event(memory, out, key, LinkEvent::Hear(frame))?;
        Ok(true)
    }

    /// Whether a link is made for a frame.
    fn may_make(&self, frame: &Frame) -> bool
        ensures { result ≡ (makes_link frame.now.kind && nat_lt (count_by is_some self.now.links.places) 64) }
    {
        makes_link(frame) && self.links.has_room()
    }
}

/// A station is heard after so many ticks.
fn hear_call(
    memory: &mut Memory,
    heard: &mut Vec<HeardStation>,
    call: &Call,
    ticks: u64,
) -> Result<(), OutOfMemory>
    ensures heard { OnOk result (heard.new.items ≡ hearing_station call.now ticks heard.old.items) }
    ensures wanted { OnErr result (memory.new.refused ≡ true) }
{
    let took = hear_station(heard, call, ticks);
    memory.took(took)
}

/// What octets are read as.
pub(crate) fn frame_in(
    memory: &mut Memory,
    octets: &[u8],
    modulus: Modulus,
) -> Result<Option<Frame>, OutOfMemory>
    ensures read { IfOk result (IsReadAs modulus octets.now) }
    ensures wanted { OnErr result (memory.new.refused ≡ true) }
{
    match read_frame(memory.alloc(), octets, modulus) {
        Ok(frame) => Ok(Some(frame)),
        Err(fault) => memory.took(unread(fault)),
    }
}

/// No frame, unless memory was wanted.
fn unread(fault: FrameFault) -> Result<Option<Frame>, OutOfMemory>
    ensures { IsUnread fault result }
{
    match fault {
        FrameFault::Memory => Err(OutOfMemory),
        _ => Ok(None),
    }
}

/// Whether some repeater has not repeated the frame.
fn waits_for_repeater(path: &Path) -> bool
    ensures { result ≡ waits_for_repeater path.now }
{
    path.repeaters.as_slice().iter().any(|hop| !hop.done)
}

/// The destination and the source of a frame.
fn ends_of(frame: &Frame) -> (Call, Call)
    ensures { result ≡ (frame.now.path.dest, frame.now.path.source) }
{
    (frame.path.dest, frame.path.source)
}

/// The way back from a frame.
fn back_from(frame: &Frame) -> Path
    ensures { result ≡ way_back frame.now.path Command }
{
    reversed(&frame.path, Role::Command)
}

/// Whether such a frame makes a link if there is none.
fn makes_link(frame: &Frame) -> bool
    ensures { result ≡ makes_link frame.now.kind }
{
    match &frame.kind {
        Kind::Info { .. } | Kind::Super { .. } => true,
        Kind::Setup { which, .. } => is_command_to_set_up(*which),
        Kind::Other { which, .. } => matches!(which, W::Xid),
        Kind::Ui { .. } => false,
    }
}

fn is_command_to_set_up(which: U) -> bool
    ensures { result ≡ is_command_to_set_up which }
{
    match which {
        U::Sabm | U::Sabme | U::Disc => true,
        U::Dm | U::Ua => false,
    }
}
