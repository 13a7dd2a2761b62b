//! A message, and how a header and a body make one.

ghost use Rattle.std.specs.Prelude.{◌≡◌, length, drop, IfOk};
ghost use Rattle.byteorder.specs.Endian.{little_number};

use byteorder::{ByteOrder, LittleEndian};
use std::alloc::Global;
use tnc_base::{Octets, OutOfMemory};

/// The number of octets of a header.
pub(crate) const HEADER: usize = 36;

/// A message. A call field is a call's text, ended by NUL or full.
#[derive(Debug, Drop)]
pub struct AgwMessage {
    /// The radio port, from 0 on.
    pub port: u8,
    /// The kind of the message, a letter.
    pub kind: u8,
    /// The protocol identifier of what the body carries.
    pub pid: u8,
    /// The field CallFrom.
    pub from: [u8; 10],
    /// The field CallTo.
    pub to: [u8; 10],
    /// The octets after the header.
    pub body: Octets,
}

impl AgwMessage {
    ghost use Rattle.agwpe_port.specs.Messages.{message_of};

    // The message of a header and a body.
    pub(crate) fn of_parts(
        alloc: Global,
        header: &[u8],
        body: &[u8],
    ) -> Result<AgwMessage, OutOfMemory>
        requires { length header.now ≡ HEADER }
        ensures { IfOk result (λ message. message ≡ message_of header.now body.now) }
    {
        Ok(AgwMessage {
            port: header[0],
            kind: header[4],
            pid: header[6],
            from: field_of(&header[8..18]),
            to: field_of(&header[18..28]),
            body: Octets::from_slice(alloc, body)?,
        })
    }
}

fn field_of(octets: &[u8]) -> [u8; 10]
    requires { length octets.now ≡ 10 }
    ensures { result ≡ octets.now }
{
    let mut field = [0; 10];
    field.copy_from_slice(octets);
    field
}

// How many octets of body a header tells.
pub(crate) fn length_of(header: &[u8]) -> u32
    requires { length header.now ≡ HEADER }
    ensures { result ≡ little_number 4 (drop 28 header.now) }
{
    LittleEndian::read_u32(&header[28..])
}
