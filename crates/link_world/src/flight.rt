//! Frames in flight.
ghost use Rattle.std.specs.Prelude.{◌≡◌, IfOk, IfSome};
ghost use Rattle.ax25_frames.specs.ControlField.{IsNumbered};
ghost use Rattle.ax25_frames.specs.FrameOctets.{CanWrite, control_of};
ghost use Rattle.link_world.specs.Flight.{asks, is_answer};
ghost use Rattle.ax25_frames.specs.declared.frame.Modulus.TheVariants.{Eight, OneTwentyEight};
ghost use Rattle.link_machine.specs.Machine.{Machine as State, modulus_named};
ghost use Rattle.link_machine.specs.StandsFor.{StandsFor};
ghost use Rattle.link_world.specs.Reading.{frame_read, with_kind, read_wide, read_narrow};
ghost use Rattle.link_world.specs.Held.{is_memory, hearing_asks};

use ax25_frames::{Frame, FrameFault, Kind, Modulus, U, read_frame, write_frame};
use link_machine::{Link, SentFrame};
use std::alloc::Global;
use tnc_base::OutOfMemory;

/// A frame in flight between the two ends.
#[derive(Drop)]
pub(crate) struct InFlight {
    /// The frame, and the modulus in which it is written.
    pub(crate) sent: SentFrame,
    /// Whether it is a UA or DM that was sent on hearing a SABM, SABME or DISC.
    pub(crate) answers: bool,
}

impl InFlight {
    /// What a link in a modulus reads in the octets of the frame; `None` if it refuses them.
    pub(crate) fn read_in(
        &self,
        alloc: Global,
        modulus: Modulus,
    ) -> Result<Option<Frame>, OutOfMemory>
        requires { CanWrite self.now.sent.modulus self.now.sent.frame }
        ensures read { IfOk result (λ read. read ≡ frame_read self.now.sent.modulus modulus self.now.sent.frame) }
        ensures numbered { IfOk result (λ read. IfSome read (λ frame. IsNumbered modulus (control_of frame.kind))) }
    {
        let octets = write_frame(alloc, &self.sent.frame, self.sent.modulus)?;
        match read_frame(alloc, octets.as_slice(), modulus) {
            Ok(frame) => Ok(Some(frame)),
            Err(fault) if is_memory(&fault) => Err(OutOfMemory),
            Err(_) => Ok(None),
        }
    }

    /// Whether a link that hears it sends SABM, SABME or DISC, memory apart: as the link reads it. It takes none.
    pub(crate) fn asks_when_heard(&self, link: &Link) -> bool
        requires { CanWrite self.now.sent.modulus self.now.sent.frame }
        ensures { (m : State) → StandsFor link.now m → result
            ≡ hearing_asks m (frame_read self.now.sent.modulus (modulus_named link.now.incoming.modulus)
            self.now.sent.frame) }
    {
        match (self.sent.modulus, link.modulus()) {
            (Modulus::Eight, Modulus::OneTwentyEight) => wide_asks(&self.sent.frame, link),
            (Modulus::OneTwentyEight, Modulus::Eight) => narrow_asks(&self.sent.frame, link),
            (Modulus::Eight, Modulus::Eight) | (Modulus::OneTwentyEight, Modulus::OneTwentyEight) =>
                { link.frame_asks(&self.sent.frame) }
        }
    }
}

/// The same of a frame of modulus 8 that a link reads modulo 128.
fn wide_asks(frame: &Frame, link: &Link) -> bool
    requires wide { modulus_named link.now.incoming.modulus ≡ OneTwentyEight }
    ensures { (m : State) → StandsFor link.now m
        → result ≡ hearing_asks m (with_kind frame.now (read_wide frame.now.kind)) }
{
    match &frame.kind {
        // Its PID is read as the second control octet, if another octet follows.
        Kind::Info { pid, octets, .. } => !octets.is_empty() && link.info_asks(*pid / 2),
        Kind::Super { .. } => false,
        Kind::Setup { .. } | Kind::Ui { .. } | Kind::Other { .. } => link.frame_asks(frame),
    }
}

/// The same of a frame of modulus 128 that a link reads modulo 8.
fn narrow_asks(frame: &Frame, link: &Link) -> bool
    requires narrow { modulus_named link.now.incoming.modulus ≡ Eight }
    requires numbers { IsNumbered OneTwentyEight (control_of frame.now.kind) }
    ensures { (m : State) → StandsFor link.now m
        → result ≡ hearing_asks m (with_kind frame.now (read_narrow frame.now.kind)) }
{
    match &frame.kind {
        // The highest bits of its N(S) are read as N(R), if its PID still fits before the information.
        Kind::Info { ns, octets, .. } => octets.len() < 256 && link.info_asks(*ns / 16),
        Kind::Super { .. } => false,
        Kind::Setup { .. } | Kind::Ui { .. } | Kind::Other { .. } => link.frame_asks(frame),
    }
}

/// Whether memory was not given.
fn is_memory(fault: &FrameFault) -> bool
    ensures { result ≡ is_memory fault.now }
{
    matches!(fault, FrameFault::Memory)
}

/// Whether the frame asks for an answer: SABM, SABME or DISC (AX.25 2.2 section 4.3.3).
pub(crate) fn asks(kind: &Kind) -> bool
    ensures { result ≡ asks kind.now }
{
    matches!(
        kind,
        Kind::Setup {
            which: U::Sabm | U::Sabme | U::Disc,
            ..
        }
    )
}

/// Whether the frame is UA or DM.
pub(crate) fn is_answer(kind: &Kind) -> bool
    ensures { result ≡ is_answer kind.now }
{
    matches!(
        kind,
        Kind::Setup {
            which: U::Ua | U::Dm,
            ..
        }
    )
}
