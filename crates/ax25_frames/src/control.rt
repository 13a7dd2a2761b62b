//! The control field of a frame.
ghost use Rattle.std.specs.Prelude.{◌≡◌, ◌≢◌, ℕ, ◌+◌, ◌*◌, ◌/◌, ◌%◌, ◌^◌, ◌<◌, ◌≤◌, ◌⊎◌, [], ◌∷◌, ◌++◌, length};
ghost use Rattle.std.specs.Prelude.{MatchOption, IfOk, IfErr, OnOk};
ghost use Rattle.ax25_address.specs.AddressField.{bit};
ghost use Rattle.ax25_frames.specs.declared.frame.Modulus.{Modulus as AnyModulus};
ghost use Rattle.ax25_frames.specs.declared.frame.Modulus.TheVariants.{Eight, OneTwentyEight};
ghost use Rattle.ax25_frames.specs.declared.control.Unnumbered.{Unnumbered};
ghost use Rattle.ax25_frames.specs.ControlField.{control_octets, IsNumbered, supervisory_code, unnumbered_code};
ghost use Rattle.ax25_frames.specs.FrameFault.{BodyFault};

use crate::fault::FrameFault;
use crate::frame::{Modulus, S, U, W};
use tnc_base::OutOfMemory;

/// What a control field says.
#[derive(Clone, Copy)]
pub(crate) enum Control {
    /// An I frame: N(S), N(R) and P.
    Info { ns: u8, nr: u8, poll: bool },
    /// An S frame: N(R) and P/F.
    Super { which: S, nr: u8, flag: bool },
    /// A U frame and its P/F.
    Unnumbered { which: Unnumbered, flag: bool },
}

/// The unnumbered frames.
#[derive(Clone, Copy)]
pub(crate) enum Unnumbered {
    /// One that sets up or ends a link.
    Setup(U),
    /// UI.
    Ui,
    /// One with information and no PID.
    Other(W),
}

/// Reads the control field at the front of `body`, which begins at octet `start` of its frame, and gives
/// what stands after it.
pub(crate) fn read_control(
    body: &[u8],
    start: usize,
    modulus: Modulus,
) -> Result<(Control, &[u8]), FrameFault>
    requires { start + length body.now < 2 ^ 64 }
    ensures control { IfOk result (λ r. IsNumbered modulus r.0 × (body.now ≡ control_octets modulus r.0 ++ r.1.now)) }
    ensures fault { IfErr result (BodyFault modulus body.now start) }
{
    let Some((first, rest)) = body.split_first() else {
        return Err(FrameFault::NoControl { at: start });
    };
    let first = *first;
    if first % 4 == 3 {
        return read_unnumbered(first, rest);
    }
    match modulus {
        Modulus::Eight => Ok((numbered_by_8(first), rest)),
        Modulus::OneTwentyEight => {
            if first % 4 == 1 && first > 13 {
                return Err(FrameFault::UnknownControl { octet: first });
            }
            match rest.split_first() {
                Some((second, rest)) => Ok((numbered_by_128(first, *second), rest)),
                None => Err(FrameFault::NoControl { at: start + 1 }),
            }
        }
    }
}

/// The unnumbered frame of a control octet, and what stands after it.
fn read_unnumbered(octet: u8, rest: &[u8]) -> Result<(Control, &[u8]), FrameFault>
    requires { octet % 4 ≡ 3 }
    ensures control { (modulus : AnyModulus)
        → IfOk result (λ r. IsNumbered modulus r.0 × (octet ∷ rest.now ≡ control_octets modulus r.0 ++ r.1.now)) }
    ensures fault { (modulus : AnyModulus) (start : ℕ) → IfErr result (BodyFault modulus (octet ∷ rest.now) start) }
{
    let (code, flag) = split_flag(octet);
    match unnumbered_of(code) {
        Some(which) => Ok((Control::Unnumbered { which, flag }, rest)),
        None => Err(FrameFault::UnknownControl { octet }),
    }
}

/// The P/F bit of an unnumbered control octet, and the octet without it.
fn split_flag(octet: u8) -> (u8, bool)
    ensures parts { octet ≡ result.0 + 16 * bit result.1 }
    ensures clear { result.0 / 16 % 2 ≡ 0 }
{
    let flag = octet / 16 % 2;
    (octet - 16 * flag, flag == 1)
}

/// The I or S frame of a control octet modulo 8.
fn numbered_by_8(octet: u8) -> Control
    requires { octet % 4 ≢ 3 }
    ensures numbered { IsNumbered Eight result }
    ensures octets { control_octets Eight result ≡ octet ∷ [] }
{
    let nr = octet / 32;
    let flag = octet / 16 % 2 == 1;
    if octet % 4 == 1 {
        return Control::Super {
            which: supervisory(octet / 4 % 4),
            nr,
            flag,
        };
    }
    Control::Info {
        ns: octet / 2 % 8,
        nr,
        poll: flag,
    }
}

/// The I or S frame of two control octets modulo 128.
fn numbered_by_128(first: u8, second: u8) -> Control
    requires { (first % 2 ≡ 0) ⊎ ((first % 4 ≡ 1) × (first ≤ 13)) }
    ensures numbered { IsNumbered OneTwentyEight result }
    ensures octets { control_octets OneTwentyEight result ≡ first ∷ second ∷ [] }
{
    let nr = second / 2;
    let flag = second % 2 == 1;
    if first % 2 == 0 {
        return Control::Info {
            ns: first / 2,
            nr,
            poll: flag,
        };
    }
    Control::Super {
        which: supervisory(first / 4),
        nr,
        flag,
    }
}

/// The supervisory frame of two bits.
fn supervisory(code: u8) -> S
    requires { code < 4 }
    ensures { supervisory_code result ≡ code }
{
    match code {
        0 => S::Rr,
        1 => S::Rnr,
        2 => S::Rej,
        _ => S::Srej,
    }
}

/// The unnumbered frame of a control octet whose P/F bit is 0.
fn unnumbered_of(code: u8) -> Option<Unnumbered>
    ensures { MatchOption result ((which : Unnumbered) → unnumbered_code which ≢ code)
        (λ which. unnumbered_code which ≡ code) }
{
    match code {
        0x2f => Some(Unnumbered::Setup(U::Sabm)),
        0x6f => Some(Unnumbered::Setup(U::Sabme)),
        0x43 => Some(Unnumbered::Setup(U::Disc)),
        0x0f => Some(Unnumbered::Setup(U::Dm)),
        0x63 => Some(Unnumbered::Setup(U::Ua)),
        0x03 => Some(Unnumbered::Ui),
        0x87 => Some(Unnumbered::Other(W::Frmr)),
        0xaf => Some(Unnumbered::Other(W::Xid)),
        0xe3 => Some(Unnumbered::Other(W::Test)),
        _ => None,
    }
}

/// Appends the octets of a control field.
pub(crate) fn push_control(
    octets: &mut Vec<u8>,
    control: Control,
    modulus: Modulus,
) -> Result<(), OutOfMemory>
    requires { IsNumbered modulus control }
    ensures { OnOk result (octets.new.items ≡ octets.old.items ++ control_octets modulus control) }
{
    match control {
        Control::Info { ns, nr, poll } => match modulus {
            Modulus::Eight => octets.push(32 * nr + 16 * u8::from(poll) + 2 * ns)?,
            Modulus::OneTwentyEight => {
                octets.push(2 * ns)?;
                octets.push(2 * nr + u8::from(poll))?;
            }
        },
        Control::Super { which, nr, flag } => match modulus {
            Modulus::Eight => {
                octets.push(32 * nr + 16 * u8::from(flag) + 4 * supervisory_bits(which) + 1)?;
            }
            Modulus::OneTwentyEight => {
                octets.push(4 * supervisory_bits(which) + 1)?;
                octets.push(2 * nr + u8::from(flag))?;
            }
        },
        Control::Unnumbered { which, flag } => {
            octets.push(unnumbered_octet(which) + 16 * u8::from(flag))?;
        }
    }
    Ok(())
}

/// The two bits of a supervisory frame.
fn supervisory_bits(which: S) -> u8
    ensures code { result ≡ supervisory_code which }
    ensures two_bits { result < 4 }
{
    match which {
        S::Rr => 0,
        S::Rnr => 1,
        S::Rej => 2,
        S::Srej => 3,
    }
}

/// The control octet of an unnumbered frame whose P/F bit is 0.
fn unnumbered_octet(which: Unnumbered) -> u8
    ensures code { result ≡ unnumbered_code which }
    ensures small { result < 240 }
{
    match which {
        Unnumbered::Setup(U::Sabm) => 0x2f,
        Unnumbered::Setup(U::Sabme) => 0x6f,
        Unnumbered::Setup(U::Disc) => 0x43,
        Unnumbered::Setup(U::Dm) => 0x0f,
        Unnumbered::Setup(U::Ua) => 0x63,
        Unnumbered::Ui => 0x03,
        Unnumbered::Other(W::Frmr) => 0x87,
        Unnumbered::Other(W::Xid) => 0xaf,
        Unnumbered::Other(W::Test) => 0xe3,
    }
}
