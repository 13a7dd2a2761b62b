//! The messages that a caller sends to its host, as octets.
ghost use Rattle.std.specs.Prelude.{◌≡◌, ◌≤◌, ◌*◌, ◌<◌, length, IfOk};
ghost use Rattle.agwpe_port.specs.Messages.{spelling};
ghost use Rattle.agwpe_client.specs.CallMessages.{to_host, register_message, connect_message, data_message};
ghost use Rattle.agwpe_client.specs.CallMessages.{disconnect_message, via_body, piece_at, text_octets};

use agwpe_port::{AgwMessage, call_text, write_agw};
use ax25_address::Call;
use std::alloc::Global;
use tnc_base::{Octets, OutOfMemory};

/// The PID of data without a layer 3 protocol (AX.25 2.2 section 3.4).
const NO_LAYER_3: u8 = 0xF0;

/// The most octets of the text that one message has.
const PIECE: usize = 256;

/// X: registers the own call.
pub(crate) fn register_message(alloc: Global, own: &Call) -> Result<Octets, OutOfMemory>
    ensures { IfOk result (λ octets. octets ≡ spelling (register_message own.now)) }
{
    to_host(alloc, b'X', 0, call_text(own), [0; 10], &[])
}

/// Calls the remote station: C, or v with the repeaters if there are any.
pub(crate) fn connect_message(
    alloc: Global,
    own: &Call,
    remote: &Call,
    via: &[Call],
) -> Result<Octets, OutOfMemory>
    requires { length via.now ≤ 8 }
    ensures { IfOk result (λ octets. octets ≡ spelling (connect_message own.now remote.now via.now)) }
{
    if via.is_empty() {
        return to_host(
            alloc,
            b'C',
            NO_LAYER_3,
            call_text(own),
            call_text(remote),
            &[],
        );
    }
    let body = via_body(alloc, via)?;
    to_host(
        alloc,
        b'v',
        NO_LAYER_3,
        call_text(own),
        call_text(remote),
        &body,
    )
}

/// How many repeaters there are, and the field of each.
fn via_body(alloc: Global, via: &[Call]) -> Result<Vec<u8>, OutOfMemory>
    requires { length via.now ≤ 8 }
    ensures body { IfOk result (λ body. body.items ≡ via_body via.now) }
    ensures bound { IfOk result (λ body. length body.items ≤ 4096) }
{
    let mut body = Vec::new(alloc);
    body.push(via.len() as u8)?;
    for call in via {
        body.extend_from_slice(&call_text(call))?;
    }
    Ok(body)
}

/// d: ends the connection.
pub(crate) fn disconnect_message(
    alloc: Global,
    own: &Call,
    remote: &Call,
) -> Result<Octets, OutOfMemory>
    ensures { IfOk result (λ octets. octets ≡ spelling (disconnect_message own.now remote.now)) }
{
    to_host(alloc, b'd', 0, call_text(own), call_text(remote), &[])
}

/// The text as D messages of 256 octets, of which the last may be shorter.
pub(crate) fn text_octets(
    alloc: Global,
    own: &Call,
    remote: &Call,
    text: &[u8],
) -> Result<Vec<u8>, OutOfMemory>
    ensures { IfOk result (λ octets. octets.items ≡ text_octets own.now remote.now text.now) }
{
    let mut octets = Vec::new(alloc);
    for place in 0..text.len().div_ceil(PIECE) {
        let message = data_message(alloc, own, remote, text, place)?;
        octets.extend_from_slice(message.as_slice())?;
    }
    Ok(octets)
}

/// D: the piece of the text at a place.
fn data_message(
    alloc: Global,
    own: &Call,
    remote: &Call,
    text: &[u8],
    place: usize,
) -> Result<Octets, OutOfMemory>
    requires { place * PIECE < length text.now }
    ensures { IfOk result (λ octets. octets ≡ spelling (data_message own.now remote.now (piece_at text.now place))) }
{
    let rest = &text[place * PIECE..];
    let len = rest.len().min(PIECE);
    to_host(
        alloc,
        b'D',
        NO_LAYER_3,
        call_text(own),
        call_text(remote),
        &rest[..len],
    )
}

fn to_host(
    alloc: Global,
    kind: u8,
    pid: u8,
    from: [u8; 10],
    to: [u8; 10],
    body: &[u8],
) -> Result<Octets, OutOfMemory>
    requires { length body.now ≤ 4096 }
    ensures { IfOk result (λ octets. octets ≡ spelling (to_host kind pid from to body.now)) }
{
    let message = AgwMessage {
        port: 0,
        kind,
        pid,
        from,
        to,
        body: Octets::from_slice(alloc, body)?,
    };
    write_agw(alloc, &message)
}
