//! The text of a call, read whole.
ghost use Rattle.std.specs.Prelude.{◌≡◌, ◌≤◌, ◌<◌, List, ℕ, Some, length, IfOk, IfErr, IsErrOf};
ghost use Rattle.tnc_base.specs.Faults.{HasRisen};
ghost use Rattle.tnc_call.specs.CallInput.{text_limit, IsReadingEnd};

use crate::call_end::CallEnd;
use std::alloc::Global;
use tnc_base::Source;

/// The most octets of a text.
const TEXT_LIMIT: usize = 1 << 20;

/// The most octets of one read.
const PIECE: usize = 4096;

/// All octets of the input, read to its end. Reads at most 1,048,577 octets, and ends at the first read that fails.
pub(crate) fn read_text<I: Source>(alloc: Global, input: &mut I) -> Result<Vec<u8>, CallEnd>
    ensures whole { (text : List ℕ) → (I.told input.old).left ≡ Some text → IfOk result (λ all. all.items ≡ text) }
    ensures limit { IfOk result (λ all. length all.items ≤ text_limit) }
    ensures too_long { (text : List ℕ) → (I.told input.old).left ≡ Some text
        → IsErrOf result CallEnd.TooLong → text_limit < length text }
    ensures later { (I.told input.old).faults ≤ (I.told input.new).faults }
    ensures read { IsErrOf result CallEnd.ReadFault → HasRisen (I.told input.old).faults (I.told input.new).faults }
    ensures only { IfErr result IsReadingEnd }
    ensures no_read { ¬ IsErrOf result CallEnd.ReadFault → (I.told input.new).faults ≡ (I.told input.old).faults }
{
    let mut text = Vec::new(alloc);
    let mut buffer = [0; PIECE];
    'reading: while text.len() <= TEXT_LIMIT {
        let room = PIECE.min(TEXT_LIMIT + 1 - text.len());
        let Ok(count) = input.read(&mut buffer[..room]) else {
            return Err(CallEnd::ReadFault);
        };
        if count == 0 {
            return Ok(text);
        }
        let Ok(()) = text.extend_from_slice(&buffer[..count]) else {
            return Err(CallEnd::Memory);
        };
    }
    Err(CallEnd::TooLong)
}
