//! Packets of tests, all of no layer 3.
use selective_reject::Packet;
use std::alloc::Global;
use tnc_base::{Octets, OutOfMemory};

pub(crate) fn packet(alloc: Global, octets: &[u8]) -> Result<Packet, OutOfMemory> {
    Ok(Packet {
        pid: 0xf0,
        octets: Octets::from_slice(alloc, octets)?,
    })
}

/// Whether it is a packet of that one octet.
pub(crate) fn is_named(packet: Option<&Packet>, name: u8) -> bool {
    match packet {
        Some(packet) => packet.pid == 0xf0 && packet.octets.as_slice() == [name].as_slice(),
        None => false,
    }
}
