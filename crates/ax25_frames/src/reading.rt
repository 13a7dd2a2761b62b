//! A frame read from octets.
ghost use Rattle.std.specs.Prelude.{◌≡◌, ◌+◌, ◌-◌, ◌≤◌, ◌<◌, ◌^◌, ◌⊎◌, length, IfOk, IfErr, Ok, Err};
ghost use Rattle.ax25_frames.specs.FrameOctets.{IsFrame};
ghost use Rattle.ax25_frames.specs.FrameFault.{ShowsFrameFault};
ghost use Rattle.ax25_frames.specs.Verdict.{IsOneKind, IsVerdict, verdict};
ghost use Rattle.ax25_frames.specs.declared.frame.Frame.{Frame};
ghost use Rattle.ax25_frames.specs.declared.fault.FrameFault.{FrameFault};
ghost use Rattle.ax25_frames.specs.declared.fault.FrameFault.TheVariants.{Memory};

use crate::control::{Control, Unnumbered, read_control};
use crate::fault::FrameFault;
use crate::frame::{Frame, Kind, Modulus};
use ax25_address::read_path;
use std::alloc::Global;
use tnc_base::Octets;

/// The frame that the octets are (AX.25 2.2 section 3), without a check sequence after them. The control fields of I
/// and S frames are read in the modulus of their link.
pub fn read_frame(alloc: Global, octets: &[u8], modulus: Modulus) -> Result<Frame, FrameFault>
    ensures frame { IfOk result (λ frame. IsFrame frame modulus octets.now) }
    ensures fault { IfErr result (λ fault. (fault ≡ Memory) ⊎ ShowsFrameFault modulus octets.now fault) }

    // There is no other frame and no other fault.
    ensures each_frame { (frame : Frame) → IsFrame frame modulus octets.now
        → (result ≡ Ok frame) ⊎ (result ≡ Err Memory) }
    ensures each_fault { (fault : FrameFault) → ShowsFrameFault modulus octets.now fault → result ≡ Err fault }
{
    let (path, len) = match read_path(octets) {
        Ok(reading) => reading,
        Err(fault) => return Err(FrameFault::Address(fault)),
    };
    let kind = read_kind(alloc, &octets[len..], len, modulus)?;
    Ok(Frame { path, kind })
}

/// What a frame says, from the octets after its address, which has `start` octets.
fn read_kind(alloc: Global, body: &[u8], start: usize, modulus: Modulus) -> Result<Kind, FrameFault>
    requires { start + length body.now < 2 ^ 64 }
    ensures { IsOneKind modulus body.now start result }
{
    let (control, rest) = read_control(body, start, modulus)?;
    let end = start + body.len();
    kind_of(alloc, control, rest, end)
}

/// The frame of a control field and of what stands after it up to octet `end`.
fn kind_of(alloc: Global, control: Control, rest: &[u8], end: usize) -> Result<Kind, FrameFault>
    requires { length rest.now ≤ end }
    ensures { IsVerdict result (verdict end (end - length rest.now) control rest.now) }
{
    match control {
        Control::Info { ns, nr, poll } => match rest.split_first() {
            None => Err(FrameFault::NoPid { at: end }),
            Some((_, octets)) if octets.len() > 256 => Err(FrameFault::InfoTooLong {
                len: octets.len(),
            }),
            Some((pid, octets)) => Ok(Kind::Info {
                ns,
                nr,
                poll,
                pid: *pid,
                octets: copy_of(alloc, octets)?,
            }),
        },
        Control::Super { .. }
        | Control::Unnumbered {
            which: Unnumbered::Setup(_),
            ..
        } if !rest.is_empty() => {
            Err(FrameFault::StrayInfo {
                at: end - rest.len(),
            })
        }
        Control::Super { which, nr, flag } => Ok(Kind::Super { which, nr, flag }),
        Control::Unnumbered { which, flag } => match which {
            Unnumbered::Setup(which) => Ok(Kind::Setup { which, flag }),
            Unnumbered::Ui => match rest.split_first() {
                None => Err(FrameFault::NoPid { at: end }),
                Some((pid, octets)) => Ok(Kind::Ui {
                    flag,
                    pid: *pid,
                    octets: copy_of(alloc, octets)?,
                }),
            },
            Unnumbered::Other(which) => Ok(Kind::Other {
                which,
                flag,
                octets: copy_of(alloc, rest)?,
            }),
        },
    }
}

/// The information as a list of its own.
fn copy_of(alloc: Global, information: &[u8]) -> Result<Octets, FrameFault>
    ensures octets { IfOk result (λ octets. octets ≡ information.now) }
    ensures fault { IfErr result (λ fault. fault ≡ Memory) }
{
    match Octets::from_slice(alloc, information) {
        Ok(octets) => Ok(octets),
        Err(_) => Err(FrameFault::Memory),
    }
}
