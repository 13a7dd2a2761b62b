//! What the value of a parameter tells.
ghost use Rattle.std.specs.Prelude.{◌≡◌, ◌<◌, ◌≤◌, ◌/◌, ◌%◌, ◌==◌, length};
ghost use Rattle.xid_parameters.specs.Values.{number_of, duplex_in, mode_in, modulus_in, number_in};
ghost use Rattle.xid_parameters.specs.Values.{info_octets_in, octet_in, window_in};

use crate::parameters::Duplex;
use ax25_frames::Modulus;
use selective_reject::Mode;

/// Bits of the first octet of the classes of procedures.
const HALF_DUPLEX: u8 = 0x20;

const FULL_DUPLEX: u8 = 0x40;

/// Bits of the first octet of the optional functions.
const REJ: u8 = 0x02;

const SREJ: u8 = 0x04;

/// Bits of their second octet.
const MODULO_8: u8 = 0x04;

const MODULO_128: u8 = 0x08;

/// Whether the station hears while it sends.
pub(crate) fn duplex_in(value: &[u8]) -> Option<Duplex>
    ensures { result ≡ duplex_in value.now }
{
    let [classes, _] = value else {
        return None;
    };
    if has_bit(*classes, FULL_DUPLEX) {
        Some(Duplex::Full)
    } else if has_bit(*classes, HALF_DUPLEX) {
        Some(Duplex::Half)
    } else {
        None
    }
}

/// By what the station asks for lost I frames.
pub(crate) fn mode_in(value: &[u8]) -> Option<Mode>
    ensures { result ≡ mode_in value.now }
{
    let [functions, _, _] = value else {
        return None;
    };
    if has_bit(*functions, SREJ) {
        Some(Mode::Srej)
    } else if has_bit(*functions, REJ) {
        Some(Mode::Rej)
    } else {
        None
    }
}

/// The most that the station counts with.
pub(crate) fn modulus_in(value: &[u8]) -> Option<Modulus>
    ensures { result ≡ modulus_in value.now }
{
    let [_, functions, _] = value else {
        return None;
    };
    if has_bit(*functions, MODULO_128) {
        Some(Modulus::OneTwentyEight)
    } else if has_bit(*functions, MODULO_8) {
        Some(Modulus::Eight)
    } else {
        None
    }
}

/// A number of one to four octets.
pub(crate) fn number_in(value: &[u8]) -> Option<u32>
    ensures { result ≡ number_in value.now }
{
    if value.is_empty() || value.len() > 4 {
        return None;
    }
    Some(number_of(value))
}

/// N1 in octets, which is told in bits.
pub(crate) fn info_octets_in(value: &[u8]) -> Option<u32>
    ensures { result ≡ info_octets_in value.now }
{
    if value.is_empty() || value.len() > 4 {
        return None;
    }
    Some(number_of(value) / 8)
}

/// A number of one octet.
pub(crate) fn octet_in(value: &[u8]) -> Option<u8>
    ensures { result ≡ octet_in value.now }
{
    match value {
        [octet] => Some(*octet),
        _ => None,
    }
}

/// k, from 1 to 127.
pub(crate) fn window_in(value: &[u8]) -> Option<u8>
    ensures { result ≡ window_in value.now }
{
    let window = octet_in(value)?;
    if window == 0 || window > 127 {
        return None;
    }
    Some(window)
}

/// The number that at most four octets spell, the high one first.
fn number_of(octets: &[u8]) -> u32
    requires { length octets.now ≤ 4 }
    ensures { result ≡ number_of octets.now }
{
    let mut number = 0;
    for octet in octets {
        number = 256 * number + u32::from(*octet);
    }
    number
}

/// Whether an octet has a bit, which is given by its value.
fn has_bit(octet: u8, bit: u8) -> bool
    requires { 0 < bit }
    ensures { result ≡ (octet / bit % 2 == 1) }
{
    octet / bit % 2 == 1
}
