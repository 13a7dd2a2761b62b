//! A message as octets.

ghost use Rattle.std.specs.Prelude.{◌≡◌, ◌≤◌, ℕ, List, ◌∷◌, ◌++◌, length, IfOk};
ghost use Rattle.byteorder.specs.Endian.{little_bytes};
ghost use Rattle.agwpe_port.specs.Messages.{spelling, messages_in, bad_length_in};

use crate::message::AgwMessage;
use std::alloc::Global;
use tnc_base::{Octets, OutOfMemory};

/// The octets of a message. Those of its header that are reserved, and the user number, are zero. Fails only for want
/// of memory.
pub fn write_agw(alloc: Global, message: &AgwMessage) -> Result<Octets, OutOfMemory>
    requires { length message.now.body ≤ 4096 }
    ensures spelled { IfOk result (λ stream. stream ≡ spelling message.now) }
    // They are this one message, whatever follows.
    ensures read { IfOk result (λ stream. (more : List ℕ) → messages_in (stream ++ more)
        ≡ message.now ∷ messages_in more) }
    ensures goes_on { IfOk result (λ stream. (more : List ℕ) → bad_length_in (stream ++ more) ≡ bad_length_in more) }
{
    let octets = spell(alloc, message)?;
    Octets::from_slice(alloc, &octets)
}

/// The octets of a message of port 0 whose body is lent. The body may have any length; a reader takes at most 4096
/// octets. Fails only for want of memory.
pub fn spell_agw(
    alloc: Global,
    kind: u8,
    pid: u8,
    from: [u8; 10],
    to: [u8; 10],
    body: &[u8],
) -> Result<Octets, OutOfMemory>
    ensures { IfOk result (λ stream. stream ≡ spelling (record {
      port = 0;
      kind = kind;
      pid = pid;
      from = from;
      to = to;
      body = body.now;
    })) }
{
    let octets = spell_parts(alloc, [0, 0, 0, 0, kind, 0, pid, 0], from, to, body)?;
    Octets::from_slice(alloc, &octets)
}

fn spell(alloc: Global, message: &AgwMessage) -> Result<Vec<u8>, OutOfMemory>
    ensures spelled { IfOk result (λ octets. octets.items ≡ spelling message.now) }
    ensures from { length message.now.from ≡ 10 }
    ensures to { length message.now.to ≡ 10 }
{
    let front = [message.port, 0, 0, 0, message.kind, 0, message.pid, 0];
    spell_parts(
        alloc,
        front,
        message.from,
        message.to,
        message.body.as_slice(),
    )
}

// The first eight octets of a header, its call fields, the length of the body, the user number, and the body.
fn spell_parts(
    alloc: Global,
    front: [u8; 8],
    from: [u8; 10],
    to: [u8; 10],
    body: &[u8],
) -> Result<Vec<u8>, OutOfMemory>
    ensures { IfOk result (λ octets. octets.items ≡ front ++ (from ++ (to ++ (little_bytes 4 (length body.now)
        ++ (0 ∷ 0 ∷ 0 ∷ 0 ∷ body.now))))) }
{
    let len = body.len().to_le_bytes();
    let mut octets = Vec::new(alloc);
    octets.extend_from_slice(&front)?;
    octets.extend_from_slice(&from)?;
    octets.extend_from_slice(&to)?;
    octets.extend_from_slice(&len[..4])?;
    octets.extend_from_slice(&[0; 4])?;
    octets.extend_from_slice(body)?;
    Ok(octets)
}
