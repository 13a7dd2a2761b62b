//! What is told to host programs, as octets of AGWPE.
ghost use Rattle.std.specs.Prelude.{◌≡◌, ℕ, ◌≤◌, ◌++◌, [], ◌∷◌, length, IfOk, true, OnErr};
ghost use Rattle.agwpe_port.specs.Messages.{spelling};
ghost use Rattle.agwpe_port.specs.CallField.{call_field};
ghost use Rattle.ax25_address.specs.CallText.{text_of_call};
ghost use Rattle.station.specs.HostMessages.{to_host, message_of_told, connected_words};

use crate::memory::Memory;
use agwpe_port::{call_text, spell_agw};
use ax25_address::Call;
use link_machine::Told;
use tnc_base::{Octets, OutOfMemory};

/// What d begins with.
pub(crate) const DISCONNECTED: &[u8] = b"*** DISCONNECTED From Station ";

/// A message of a kind with this body.
pub(crate) fn message(
    memory: &mut Memory,
    kind: u8,
    pid: u8,
    from: [u8; 10],
    to: [u8; 10],
    body: &[u8],
) -> Result<Octets, OutOfMemory>
    ensures spelled { IfOk result (λ octets. octets ≡ spelling (to_host kind pid from to body.now)) }
    ensures wanted { OnErr result (memory.new.refused ≡ true) }
{
    let octets = spell_agw(memory.alloc(), kind, pid, from, to, body);
    memory.took(octets)
}

/// Some words, the text of a station's call, and CR.
pub(crate) fn station_text(
    memory: &mut Memory,
    words: &[u8],
    remote: &[u8],
) -> Result<Vec<u8>, OutOfMemory>
    ensures text { IfOk result (λ text. text.items ≡ words.now ++ (remote.now ++ 13 ∷ [])) }
    ensures wanted { OnErr result (memory.new.refused ≡ true) }
{
    let mut text = Vec::new(memory.alloc());
    memory.took(text.extend_from_slice(words))?;
    memory.took(text.extend_from_slice(remote))?;
    memory.push(&mut text, b'\r')?;
    Ok(text)
}

/// What the owner of the link between two calls is told.
pub(crate) fn told_message(
    memory: &mut Memory,
    local: &Call,
    remote: &Call,
    told: &Told,
) -> Result<Octets, OutOfMemory>
    ensures spelled { IfOk result (λ octets. octets ≡ spelling (message_of_told local.now remote.now told.now)) }
    ensures wanted { OnErr result (memory.new.refused ≡ true) }
{
    match told {
        Told::Opened { ours } => {
            call_message(memory, b'C', local, remote, connected_words(*ours))
        }
        Told::Given { packet } => {
            message(
                memory,
                b'D',
                packet.pid,
                call_text(remote),
                call_text(local),
                packet.octets.as_slice(),
            )
        }
        Told::Ended { .. } => { call_message(memory, b'd', local, remote, DISCONNECTED) }
    }
}

/// A message from the other station of a link, whose text ends with its call.
fn call_message(
    memory: &mut Memory,
    kind: u8,
    local: &Call,
    remote: &Call,
    words: &[u8],
) -> Result<Octets, OutOfMemory>
    ensures spelled { IfOk result (λ octets. octets
        ≡ spelling (to_host kind 0 (call_field remote.now) (call_field local.now)
        (words.now ++ (text_of_call remote.now ++ 13 ∷ [])))) }
    ensures wanted { OnErr result (memory.new.refused ≡ true) }
{
    let name = remote.text();
    let text = station_text(memory, words, name.as_str().as_bytes())?;
    message(memory, kind, 0, call_text(remote), call_text(local), &text)
}

/// The words that tell who called.
fn connected_words(ours: bool) -> &'static [u8]
    ensures { result.now ≡ connected_words ours }
{
    if ours {
        return b"*** CONNECTED With Station ";
    }
    b"*** CONNECTED To Station "
}
