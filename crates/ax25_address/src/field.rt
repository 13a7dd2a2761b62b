//! One address field: seven octets that stand for a call.
ghost use Rattle.std.specs.Prelude.{◌≡◌, ℕ, ◌+◌, ◌*◌, ◌%◌, ◌<◌, ◌≤◌, ◌↔◌, [], ◌∷◌, ◌++◌, length, take, drop, map};
ghost use Rattle.std.specs.Prelude.{IsTrue, IfOk, OnOk, IfErr};
ghost use Rattle.ax25_address.specs.Callsign.{IsCallCharacter, IsCall, padded};
ghost use Rattle.ax25_address.specs.AddressField.{IsField, field_octets};
ghost use Rattle.ax25_address.specs.FramePath.{field_at};
ghost use Rattle.ax25_address.specs.FieldFault.{IsFieldFault, IsShiftedCharacter};
ghost use Rattle.arrayvec.specs.ArrayVec.{array_vec_len};

use crate::call::{Call, is_call_character};
use crate::fault::AddrFault;
use arrayvec::ArrayVec;

/// A space in an address field.
const SPACE: u8 = b' ' << 1;

/// What a field says: a call, bit 7 of its SSID octet, and its end bit.
#[derive(Clone, Copy)]
pub(crate) struct Field {
    pub(crate) call: Call,
    pub(crate) top: bool,
    pub(crate) last: bool,
}

/// Reads field `k`, counted from 0.
pub(crate) fn read_field(octets: &[u8], k: usize) -> Result<Field, AddrFault>
    requires few { k < 10 }
    requires begun { 7 * k ≤ length octets.now }
    ensures field { IfOk result (λ field. IsField field.call field.top field.last (field_at octets.now k)) }
    ensures whole { OnOk result (7 * k + 7 ≤ length octets.now) }
    ensures refused { IfErr result (IsFieldFault octets.now (7 * k)) }
{
    let name = read_name(octets, 7 * k)?;
    let at = 7 * k + 6;
    if at >= octets.len() {
        return Err(AddrFault::Short { at });
    }
    let octet = octets[at];
    Ok(Field {
        call: name.with_ssid(octet / 2 % 16),
        top: octet >= 128,
        last: octet % 2 == 1,
    })
}

/// Reads the six characters of the field that begins at `start`, as a call with SSID 0.
fn read_name(octets: &[u8], start: usize) -> Result<Call, AddrFault>
    requires few { start ≤ 63 }
    requires aligned { start % 7 ≡ 0 }
    requires begun { start ≤ length octets.now }
    ensures valid { IfOk result IsCall }
    ensures name { IfOk result (λ call. take 6 (drop start octets.now) ≡ map (λ c. 2 * c) (padded call.name)) }
    ensures whole { OnOk result (start + 6 ≤ length octets.now) }
    ensures refused { IfErr result (IsFieldFault octets.now start) }
{
    let mut characters = [b' '; 6];
    let mut len = 0;
    for i in 0..6 {
        let at = start + i;
        if at >= octets.len() {
            return Err(AddrFault::Short { at });
        }
        let octet = octets[at];
        if octet == SPACE && i > 0 {
            continue;
        }
        if !is_shifted_character(octet) || len < i {
            return Err(AddrFault::BadChar { at });
        }
        characters[i] = octet / 2;
        len = i + 1;
    }
    Ok(Call::from_characters(characters, len, 0))
}

/// Whether the octet is a character of a call, shifted left by one, with bit 0 clear.
fn is_shifted_character(octet: u8) -> bool
    ensures { IsTrue result ↔ IsShiftedCharacter octet }
{
    octet.is_multiple_of(2) && is_call_character(octet / 2)
}

/// Appends the field of a call with these two bits.
pub(crate) fn push_field(octets: &mut ArrayVec<u8, 70>, call: &Call, top: bool, last: bool)
    requires { array_vec_len octets.old ≤ 63 }
    ensures octets { octets.new.items ≡ octets.old.items ++ field_octets call.now top 3 last }
    ensures valid { IsCall call.now }
{
    for character in call.characters() {
        octets.push(*character * 2);
    }
    octets.push((top as u8) * 128 + 96 + call.ssid() * 2 + last as u8);
}
