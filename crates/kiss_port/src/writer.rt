//! A piece of KISS as octets.

ghost use Rattle.std.specs.Prelude.{◌≡◌, ◌<◌, ℕ, List, [], ◌∷◌, ◌++◌, OnOk, IfOk};
ghost use Rattle.std.specs.Option.{option_to_list};
ghost use Rattle.kiss_port.specs.Escapes.{escape_of, spelled, unescaped, fend};
ghost use Rattle.kiss_port.specs.Items.{kind_of, item_of, items_in};
ghost use Rattle.kiss_port.specs.Pieces.{pieces};

use crate::octet::{FEND, FESC, TFEND, TFESC};
use std::alloc::Global;
use tnc_base::{Octets, OutOfMemory};

/// The octets that say `octets` under this port and command: a FEND, the first octet and the others with their escapes,
/// and a FEND. Fails only for want of memory.
pub fn write_kiss(
    alloc: Global,
    port: u8,
    command: u8,
    octets: &[u8],
) -> Result<Octets, OutOfMemory>
    requires port { port < 16 }
    requires command { command < 16 }
    ensures spelled { IfOk result (λ stream. stream
        ≡ fend ∷ (spelled (kind_of port command ∷ octets.now) ++ fend ∷ [])) }
    // It is one piece, after an empty one.
    ensures piece { IfOk result (λ stream. (piece : List ℕ)
        × (pieces stream ≡ [] ∷ piece ∷ []) × (unescaped piece ≡ kind_of port command ∷ octets.now)) }
    ensures item { IfOk result (λ stream. items_in stream
        ≡ option_to_list (item_of (kind_of port command ∷ octets.now))) }
{
    let stream = spell(alloc, 16 * port + command, octets)?;
    Octets::from_slice(alloc, &stream)
}

// The octets that say a type and the octets after it.
fn spell(alloc: Global, kind: u8, octets: &[u8]) -> Result<Vec<u8>, OutOfMemory>
    ensures { IfOk result (λ stream. stream.items ≡ fend ∷ (spelled (kind ∷ octets.now) ++ fend ∷ [])) }
{
    let mut stream = Vec::new(alloc);
    stream.push(FEND)?;
    push_escaped(&mut stream, kind)?;
    for octet in octets {
        push_escaped(&mut stream, *octet)?;
    }
    stream.push(FEND)?;
    Ok(stream)
}

fn push_escaped(stream: &mut Vec<u8>, octet: u8) -> Result<(), OutOfMemory>
    ensures { OnOk result (stream.new.items ≡ stream.old.items ++ escape_of octet) }
{
    match octet {
        FEND => stream.extend_from_slice(&[FESC, TFEND])?,
        FESC => stream.extend_from_slice(&[FESC, TFESC])?,
        _ => stream.push(octet)?,
    }
    Ok(())
}
