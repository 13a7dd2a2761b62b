//! A frame written as octets.
ghost use Rattle.std.specs.Prelude.{◌≡◌, ℕ, ◌++◌, [], ◌∷◌, ◌≤◌, length, IfOk, OnOk};
ghost use Rattle.ax25_frames.specs.FrameOctets.{IsFrame, IsWrittenFrame, CanWrite, control_of, contents_of};
ghost use Rattle.ax25_frames.specs.ControlField.{control_octets, IsNumbered};

use crate::control::{Control, Unnumbered, push_control};
use crate::frame::{Frame, Kind, Modulus};
use ax25_address::write_path;
use std::alloc::Global;
use tnc_base::{Octets, OutOfMemory};

/// The octets of a frame (AX.25 2.2 section 3), without its check sequence. Its sequence numbers are below the modulus,
/// and its information has at most 256 octets in an I frame and 937 in another. [`read_frame`](crate::read_frame)
/// reads them in that modulus as the same frame.
pub fn write_frame(alloc: Global, frame: &Frame, modulus: Modulus) -> Result<Octets, OutOfMemory>
    requires { CanWrite modulus frame.now }
    ensures written { IfOk result (IsWrittenFrame frame.now modulus) }
    ensures read_again { IfOk result (IsFrame frame.now modulus) }
    ensures size { IfOk result (λ octets. (15 ≤ length octets) × (length octets ≤ 1010)) }
{
    let mut octets = Vec::new(alloc);
    octets.extend_from_slice(write_path(&frame.path).as_slice())?;
    push_control(&mut octets, control_field(&frame.kind), modulus)?;
    push_contents(&mut octets, &frame.kind)?;
    Octets::from_slice(alloc, octets.as_slice())
}

/// The control field of a frame.
fn control_field(kind: &Kind) -> Control
    ensures { result ≡ control_of kind.now }
{
    match kind {
        Kind::Info { ns, nr, poll, .. } => Control::Info {
            ns: *ns,
            nr: *nr,
            poll: *poll,
        },
        Kind::Super { which, nr, flag } => Control::Super {
            which: *which,
            nr: *nr,
            flag: *flag,
        },
        Kind::Setup { which, flag } => Control::Unnumbered {
            which: Unnumbered::Setup(*which),
            flag: *flag,
        },
        Kind::Ui { flag, .. } => Control::Unnumbered {
            which: Unnumbered::Ui,
            flag: *flag,
        },
        Kind::Other { which, flag, .. } => Control::Unnumbered {
            which: Unnumbered::Other(*which),
            flag: *flag,
        },
    }
}

/// Appends the PID and the information of a frame.
fn push_contents(octets: &mut Vec<u8>, kind: &Kind) -> Result<(), OutOfMemory>
    ensures { OnOk result (octets.new.items ≡ octets.old.items ++ contents_of kind.now) }
{
    match kind {
        Kind::Info {
            pid,
            octets: information,
            ..
        } => {
            octets.push(*pid)?;
            octets.extend_from_slice(information.as_slice())?;
        }
        Kind::Ui {
            pid,
            octets: information,
            ..
        } => {
            octets.push(*pid)?;
            octets.extend_from_slice(information.as_slice())?;
        }
        Kind::Other {
            octets: information,
            ..
        } => octets.extend_from_slice(information.as_slice())?,
        Kind::Super { .. } | Kind::Setup { .. } => {}
    }
    Ok(())
}
