//! A path read from octets, and written as octets.
ghost use Rattle.std.specs.Prelude.{◌≡◌, ℕ, List, ◌+◌, ◌*◌, ◌<◌, ◌≤◌, ◌==◌, ◌↔◌, [], ◌∷◌, ◌++◌, length, take, drop};
ghost use Rattle.std.specs.Prelude.{map, IsTrue, IfOk, IfErr, OnOk, Ok, Err};
ghost use Rattle.ax25_address.specs.FramePath.{IsPath, BeginsWithPath, IsWrittenPath, field_at, source_bit};
ghost use Rattle.ax25_address.specs.FramePath.{destination_bit};
ghost use Rattle.ax25_address.specs.PathFault.{ShowsFault, GoesOnFor};
ghost use Rattle.ax25_address.specs.Repeaters.{AreRepeaters};
ghost use Rattle.arrayvec.specs.ArrayVec.{array_vec_len};
ghost use Rattle.ax25_address.specs.declared.path.Path.{Path};
ghost use Rattle.ax25_address.specs.declared.fault.AddrFault.{AddrFault};

use crate::call::Call;
use crate::fault::AddrFault;
use crate::field::{Field, push_field, read_field};
use crate::path::{Hop, Path, Role};
use arrayvec::ArrayVec;

/// The path that the octets begin with, and how many octets it takes. The reserved bits of an SSID octet
/// are not looked at.
pub fn read_path(octets: &[u8]) -> Result<(Path, usize), AddrFault>
    ensures path { IfOk result (λ r. BeginsWithPath octets.now r.0 r.1) }
    ensures fault { IfErr result (ShowsFault octets.now) }

    // There is no other path and no other fault.
    ensures each_path { (path : Path) (len : ℕ) → BeginsWithPath octets.now path len → result ≡ Ok (path, len) }
    ensures each_fault { (fault : AddrFault) → ShowsFault octets.now fault → result ≡ Err fault }
{
    let dest = read_field(octets, 0)?;
    if dest.last {
        return Err(AddrFault::OneAddress);
    }
    let source = read_field(octets, 1)?;
    let role = role_of(dest.top, source.top);
    if source.last {
        let path = Path {
            dest: dest.call,
            source: source.call,
            repeaters: ArrayVec::new(),
            role,
        };
        return Ok((path, 14));
    }
    let (repeaters, len) = read_repeaters(octets)?;
    let path = Path {
        dest: dest.call,
        source: source.call,
        repeaters,
        role,
    };
    Ok((path, len))
}

/// The repeaters, which are the fields from the third on, and how many octets the whole path takes.
fn read_repeaters(octets: &[u8]) -> Result<(ArrayVec<Hop, 8>, usize), AddrFault>
    requires whole { 14 ≤ length octets.now }
    requires goes_on { GoesOnFor octets.now 14 }
    ensures repeaters { IfOk result (λ r. AreRepeaters r.0.items r.1 octets.now) }
    ensures fault { IfErr result (ShowsFault octets.now) }
{
    let mut repeaters = ArrayVec::new();
    for k in 2..10 {
        let field = read_field(octets, k)?;
        repeaters.push(Hop {
            call: field.call,
            done: field.top,
        });
        if field.last {
            return Ok((repeaters, 7 * k + 7));
        }
    }
    Err(AddrFault::NoEnd)
}

/// The octets of a path, with its reserved bits 1. Whatever stands after them, [`read_path`] reads this
/// path and this length again.
pub fn write_path(path: &Path) -> ArrayVec<u8, 70>
    ensures written { IsWrittenPath path.now result.items }
    ensures read_again { (rest : List ℕ) → BeginsWithPath (result.items ++ rest) path.now (array_vec_len result) }
{
    let hops = path.repeaters.as_slice();
    let (dest_bit, source_bit) = c_bits(path.role);
    let mut octets = ArrayVec::new();
    push_field(&mut octets, &path.dest, dest_bit, false);
    push_field(&mut octets, &path.source, source_bit, hops.is_empty());
    for k in 0..hops.len() {
        let hop = hops[k];
        push_field(&mut octets, &hop.call, hop.done, k + 1 == hops.len());
    }
    octets
}

/// The C bits of the destination and the source in a role.
fn c_bits(role: Role) -> (bool, bool)
    ensures dest { result.0 ≡ destination_bit role }
    ensures source { result.1 ≡ source_bit role }
{
    match role {
        Role::Command => (true, false),
        Role::Response => (false, true),
        Role::Old(equal) => (equal, equal),
    }
}

/// The role that the C bits of the destination and the source tell.
fn role_of(dest: bool, source: bool) -> Role
    ensures dest { destination_bit result ≡ dest }
    ensures source { source_bit result ≡ source }
{
    match (dest, source) {
        (true, false) => Role::Command,
        (false, true) => Role::Response,
        (equal, _) => Role::Old(equal),
    }
}
