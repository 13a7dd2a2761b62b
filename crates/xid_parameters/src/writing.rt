//! The information of an XID frame, written.
ghost use Rattle.std.specs.Prelude.{◌≡◌, ◌≤◌};
ghost use Rattle.xid_parameters.specs.XidField.{IsXidField};
ghost use Rattle.xid_parameters.specs.Told.{parameters_of, duplex_octet, mode_octet, modulus_octet};

use crate::parameters::{Duplex, LinkParameters};
use ax25_frames::Modulus;
use selective_reject::Mode;

/// The information of an XID frame that tells all parameters of a station, in the order of figure 4.5. N1 is told in
/// bits, of which 16 octets have room for 65,535.
pub fn write_xid(own: &LinkParameters) -> [u8; 27]
    requires info_octets { own.now.info_octets ≤ 8191 }
    ensures { IsXidField (parameters_of own.now) result }
{
    let n1 = 8 * own.info_octets;
    [
        0x82,
        0x80,
        0,
        23,
        2,
        2,
        duplex_octet(own.duplex),
        0,
        3,
        3,
        mode_octet(own.mode),
        modulus_octet(own.modulus),
        2,
        6,
        2,
        (n1 / 256) as u8,
        (n1 % 256) as u8,
        8,
        1,
        own.window,
        9,
        2,
        (own.t1 / 256) as u8,
        (own.t1 % 256) as u8,
        10,
        1,
        own.retries,
    ]
}

/// Balanced mode, in half or in full duplex.
fn duplex_octet(duplex: Duplex) -> u8
    ensures { result ≡ duplex_octet duplex }
{
    match duplex {
        Duplex::Half => 0x21,
        Duplex::Full => 0x41,
    }
}

/// Extended addresses, and by what is asked for lost I frames.
fn mode_octet(mode: Mode) -> u8
    ensures { result ≡ mode_octet mode }
{
    match mode {
        Mode::Rej => 0x82,
        Mode::Srej => 0x86,
    }
}

/// A check sequence of 16 bits, and the modulus.
fn modulus_octet(modulus: Modulus) -> u8
    ensures { result ≡ modulus_octet modulus }
{
    match modulus {
        Modulus::Eight => 0x84,
        Modulus::OneTwentyEight => 0x88,
    }
}
