//! The frames that words name.
ghost use Rattle.std.specs.Prelude.{◌<◌, IfOk};
ghost use Rattle.ax25_frames.specs.ControlField.{IsNumbered, numbers};
ghost use Rattle.ax25_frames.specs.FrameOctets.{control_of};

use crate::tests::script::{octet, parts};
use ax25_frames::{Kind, Modulus, S, U, W};
use std::alloc::Global;
use std::test::Fail;
use tnc_base::Octets;

/// A number below the modulus.
fn below(modulus: Modulus, number: u16) -> u8
    ensures { result < numbers modulus }
{
    match modulus {
        Modulus::Eight => octet(number) % 8,
        Modulus::OneTwentyEight => octet(number) % 128,
    }
}

fn setup_named(name: &str) -> Option<U> {
    match name {
        "SABM" => Some(U::Sabm),
        "SABME" => Some(U::Sabme),
        "DISC" => Some(U::Disc),
        "DM" => Some(U::Dm),
        "UA" => Some(U::Ua),
        _ => None,
    }
}

fn super_named(name: &str) -> Option<S> {
    match name {
        "RR" | "RRc" => Some(S::Rr),
        "RNR" | "RNRc" => Some(S::Rnr),
        "REJ" | "REJc" => Some(S::Rej),
        "SREJ" | "SREJc" => Some(S::Srej),
        _ => None,
    }
}

/// The information of an XID frame that tells k alone, or nothing.
fn window_told(alloc: Global, window: u8) -> Result<Octets, Fail> {
    if window == 0 {
        return Ok(Octets::from_slice(alloc, &[])?);
    }
    Ok(Octets::from_slice(alloc, &[0x82, 0x80, 0, 3, 8, 1, window])?)
}

/// What a frame from the other side says, in the modulus of the link that hears it.
pub(super) fn kind_of(alloc: Global, word: &str, modulus: Modulus) -> Result<Kind, Fail>
    ensures { IfOk result (λ kind. IsNumbered modulus (control_of kind)) }
{
    let (name, first, second, third) = parts(word);
    if let Some(which) = setup_named(name) {
        return Ok(Kind::Setup {
            which,
            flag: first != 0,
        });
    }
    if let Some(which) = super_named(name) {
        return Ok(Kind::Super {
            which,
            nr: below(modulus, first),
            flag: second != 0,
        });
    }
    if name == "I" {
        return Ok(Kind::Info {
            ns: below(modulus, first),
            nr: below(modulus, second),
            poll: third != 0,
            pid: 0xf0,
            octets: Octets::from_slice(alloc, &[octet(first)])?,
        });
    }
    if name == "XID" || name == "XIDc" {
        return Ok(Kind::Other {
            which: W::Xid,
            flag: first != 0,
            octets: window_told(alloc, octet(second))?,
        });
    }
    let octets = Octets::from_slice(alloc, &[])?;
    Ok(match name {
        "UI" => Kind::Ui {
            flag: false,
            pid: 0xf0,
            octets,
        },
        _ => Kind::Other {
            which: W::Frmr,
            flag: false,
            octets,
        },
    })
}
