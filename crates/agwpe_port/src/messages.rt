//! The messages that end in several octets.
ghost use Rattle.std.specs.Prelude.{◌≡◌, ◌++◌, ℕ, [], ◌∷◌, List, Ok, IfOk, OnOk, OnErr, IsOk, IsOkAnd, None, Some};
ghost use Rattle.std.specs.Option.{option_to_list};
ghost use Rattle.agwpe_port.specs.Held.{StandsFor, StandsForPart};
ghost use Rattle.agwpe_port.specs.Messages.{messages_in, bad_length_in};

use crate::fault::AgwFault;
use crate::message::AgwMessage;
use crate::reader::AgwIn;
use std::alloc::Global;
use tnc_base::OutOfMemory;

/// The messages that end in the octets. None ends past a header that tells too long a body, and past that no memory is
/// wanted. Fails only for want of memory: then some of the octets are taken, from the first on, and the messages that
/// ended in them are lost.
pub fn read_messages(
    alloc: Global,
    reader: &mut AgwIn,
    octets: &[u8],
) -> Result<Vec<AgwMessage>, OutOfMemory>
    ensures stands_for { (stream : List ℕ) → StandsFor reader.old stream
        → OnOk result (StandsFor reader.new (stream ++ octets.now)) }
    ensures messages { (stream : List ℕ) → StandsFor reader.old stream
        → IfOk result (λ messages. messages_in (stream ++ octets.now) ≡ messages_in stream ++ messages.items) }
    ensures failed { (stream : List ℕ) (len : ℕ) → StandsFor reader.old stream → bad_length_in stream ≡ Some len
        → IsOkAnd result (λ messages. messages.items ≡ []) }
    ensures refused { (stream : List ℕ) → StandsFor reader.old stream
        → OnErr result (StandsForPart reader.new stream octets.now) }
{
    let mut messages = Vec::new(alloc);
    for octet in octets {
        let message = next_message(reader, *octet)?;
        keep_message(&mut messages, message)?;
    }
    Ok(messages)
}

/// The message that an octet ends.
fn next_message(reader: &mut AgwIn, octet: u8) -> Result<Option<AgwMessage>, OutOfMemory>
    ensures stands_for { (stream : List ℕ) → StandsFor reader.old stream
        → OnOk result (StandsFor reader.new (stream ++ octet ∷ [])) }
    ensures message { (stream : List ℕ) → StandsFor reader.old stream → IfOk result (λ message.
        messages_in (stream ++ octet ∷ []) ≡ messages_in stream ++ option_to_list message) }
    ensures failed { (stream : List ℕ) (len : ℕ) → StandsFor reader.old stream → bad_length_in stream ≡ Some len
        → result ≡ Ok None }
    ensures untaken { OnErr result (reader.new ≡ reader.old) }
{
    match reader.push(octet) {
        Ok(message) => Ok(message),
        Err(AgwFault::Memory) => Err(OutOfMemory),
        Err(AgwFault::BadLength { .. }) => Ok(None),
        Err(AgwFault::Failed { .. }) => Ok(None),
    }
}

/// Puts a message after the others, if there is one.
fn keep_message(
    messages: &mut Vec<AgwMessage>,
    message: Option<AgwMessage>,
) -> Result<(), OutOfMemory>
    ensures kept { OnOk result (messages.new.items ≡ messages.old.items ++ option_to_list message) }
    ensures none { message ≡ None → IsOk result }
{
    match message {
        Some(message) => {
            messages.push(message)?;
            Ok(())
        }
        None => Ok(()),
    }
}
