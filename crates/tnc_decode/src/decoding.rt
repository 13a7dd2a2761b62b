//! The word decode: from audio to the frames that are heard in it, block after block.
ghost use Rattle.std.specs.Prelude.{◌≡◌, List, ℕ, Some, [], length, IfOk, OnOk, IsErrOf};
ghost use Rattle.tnc_base.specs.Faults.{HasRisen};
ghost use Rattle.tnc_engine.specs.Ended.{IsEnded};
ghost use Rattle.tnc_decode.specs.Making.{decode_making};
ghost use Rattle.tnc_decode.specs.Written.{most_at_once};

use crate::hearing::Hearing;
use crate::receiver::{Receiver, most_at_once};
use std::alloc::Global;
use std::thread::Threads;
use tnc_base::{OutOfMemory, Sink, Source};
use tnc_engine::make;
use tnc_forms::Fault;
use tnc_words::DecodeWords;

/// Reads the input in blocks, and writes the frames that each block settles. Keeps one block and the decoder, however
/// long the input is. A fault of a WAV file's head ends the reading; a file that is cut short is heard to its end. If
/// the words ask for threads, longer blocks are read, over which threads share the lanes of the decoder, and all that is
/// written is the same.
pub fn decode<R: Threads + Sync, I: Source, O: Sink>(
    rt: &R,
    alloc: Global,
    words: DecodeWords,
    input: &mut I,
    output: &mut O,
) -> Result<(), Fault>
    ensures ended { (octets : List ℕ) → (I.told input.old).left ≡ Some octets
        → IsEnded (decode_making words) (most_at_once words) octets
        (I.told input.new).left (O.told output.old).written (O.told output.new).written result }
    ensures faultless { OnOk result (((I.told input.new).faults ≡ (I.told input.old).faults)
        × ((O.told output.new).faults ≡ (O.told output.old).faults)) }
    ensures read { IsErrOf result Fault.Read → HasRisen (I.told input.old).faults (I.told input.new).faults }
    ensures write { IsErrOf result Fault.Write → HasRisen (O.told output.old).faults (O.told output.new).faults }
{
    let receiver = Receiver::new(alloc, words)?;
    let mut hearing = Hearing { rt, receiver };
    let mut buffer = buffer_for(alloc, words)?;
    make(alloc, &mut hearing, &mut buffer, input, output)
}

/// Room for the octets that are read at once.
fn buffer_for(alloc: Global, words: DecodeWords) -> Result<Vec<u8>, OutOfMemory>
    ensures { IfOk result (λ buffer. length buffer.items ≡ most_at_once words) }
{
    let mut buffer = Vec::new(alloc);
    buffer.resize(most_at_once(words), 0)?;
    Ok(buffer)
}
