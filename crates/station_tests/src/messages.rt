//! The messages of the AGWPE interface as octets.

use std::alloc::Global;
use std::test::Fail;

/// The octets of a message.
pub fn message(alloc: Global, kind: u8, ends: [&str; 2], body: &[u8]) -> Result<Vec<u8>, Fail> {
    message_with_pid(alloc, (kind, 0), ends, body)
}

/// The octets of a message of a kind and a PID.
pub fn message_with_pid(
    alloc: Global,
    (kind, pid): (u8, u8),
    [from, to]: [&str; 2],
    body: &[u8],
) -> Result<Vec<u8>, Fail> {
    let mut octets = Vec::new(alloc);
    octets.extend_from_slice(&[0, 0, 0, 0, kind, 0, pid, 0])?;
    octets.extend_from_slice(&field(from))?;
    octets.extend_from_slice(&field(to))?;
    let len = u16::try_from(body.len()).unwrap_or(0);
    octets.extend_from_slice(&len.to_le_bytes())?;
    octets.extend_from_slice(&[0; 6])?;
    octets.extend_from_slice(body)?;
    Ok(octets)
}

/// A call field.
pub fn field(text: &str) -> [u8; 10] {
    let mut field = [0; 10];
    for (place, octet) in text.as_bytes().iter().enumerate() {
        if place < 10 {
            field[place] = *octet;
        }
    }
    field
}
