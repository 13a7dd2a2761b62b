//! What a host program says to its station.
ghost use Rattle.std.specs.Prelude.{◌≡◌, ◌≤◌, length, IfOk, [], map};
ghost use Rattle.agwpe_port.specs.CallField.{call_field};
ghost use Rattle.agwpe_port.specs.Messages.{spelling};
ghost use Rattle.link_world.specs.World.{other};
ghost use Rattle.channel_bench.specs.HostProgram.{call_at, request, request_between, register_octets, connect_octets};
ghost use Rattle.channel_bench.specs.HostProgram.{data_octets, disconnect_octets, full_duplex_octets};

use agwpe_port::{AgwMessage, call_text, write_agw};
use ax25_address::Call;
use link_world::End;
use std::alloc::Global;
use tnc_base::{Octets, OutOfMemory};

/// Full duplex is set, by KISS.
pub(crate) fn full_duplex(alloc: Global) -> Result<Octets, OutOfMemory>
    ensures spelled { IfOk result (λ octets. octets ≡ full_duplex_octets) }
    ensures most { IfOk result (λ octets. length octets ≤ 4096) }
{
    Octets::from_slice(alloc, &[0xc0, 5, 1, 0xc0])
}

/// The call of a station.
fn call_of(end: End) -> Call
    ensures { result ≡ call_at end }
{
    match end {
        End::A => Call::new("AAAA", 0).unwrap(),
        End::B => Call::new("BBBB", 0).unwrap(),
    }
}

/// The other one.
fn other(end: End) -> End
    ensures { result ≡ other end }
{
    match end {
        End::A => End::B,
        End::B => End::A,
    }
}

/// Registers the call of the station.
pub(crate) fn register(alloc: Global, end: End) -> Result<Octets, OutOfMemory>
    ensures spelled { IfOk result (λ octets. octets ≡ register_octets end) }
    ensures most { IfOk result (λ octets. length octets ≤ 4096) }
{
    request(alloc, b'X', call_text(&call_of(end)), [0; 10], &[])
}

/// Calls the other station.
pub(crate) fn connect(alloc: Global, end: End) -> Result<Octets, OutOfMemory>
    ensures spelled { IfOk result (λ octets. octets ≡ connect_octets end) }
    ensures most { IfOk result (λ octets. length octets ≤ 4096) }
{
    between(alloc, b'C', end, &[])
}

/// Gives data for the other station.
pub(crate) fn data(alloc: Global, end: End, piece: &[u8]) -> Result<Octets, OutOfMemory>
    requires { length piece.now ≤ 256 }
    ensures spelled { IfOk result (λ octets. octets ≡ data_octets end piece.now) }
    ensures most { IfOk result (λ octets. length octets ≤ 4096) }
{
    between(alloc, b'D', end, piece)
}

/// Asks for the end of the link to the other station.
pub(crate) fn disconnect(alloc: Global, end: End) -> Result<Octets, OutOfMemory>
    ensures spelled { IfOk result (λ octets. octets ≡ disconnect_octets end) }
    ensures most { IfOk result (λ octets. length octets ≤ 4096) }
{
    between(alloc, b'd', end, &[])
}

/// A message from one call to the other.
fn between(alloc: Global, kind: u8, end: End, body: &[u8]) -> Result<Octets, OutOfMemory>
    requires { length body.now ≤ 256 }
    ensures spelled { IfOk result (λ octets. octets ≡ spelling (request_between kind end body.now)) }
    ensures most { IfOk result (λ octets. length octets ≤ 4096) }
{
    let from = call_text(&call_of(end));
    let to = call_text(&call_of(other(end)));
    request(alloc, kind, from, to, body)
}

/// A message.
fn request(
    alloc: Global,
    kind: u8,
    from: [u8; 10],
    to: [u8; 10],
    body: &[u8],
) -> Result<Octets, OutOfMemory>
    requires { length body.now ≤ 256 }
    ensures spelled { IfOk result (λ octets. octets ≡ spelling (request kind from to body.now)) }
    ensures most { IfOk result (λ octets. length octets ≤ 4096) }
{
    let body = Octets::from_slice(alloc, body)?;
    let message = AgwMessage {
        port: 0,
        kind,
        pid: 0,
        from,
        to,
        body,
    };
    let octets = write_agw(alloc, &message)?;
    Ok(octets)
}
