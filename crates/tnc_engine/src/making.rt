//! The engine: an input read piece by piece, and what a maker makes of it written.
ghost use Rattle.std.specs.Prelude.{◌≡◌, ◌≤◌, ◌<◌, ◌+◌, ◌++◌, List, ℕ, Some, None, Ok, Err, [], length, drop, take, IfErr};
ghost use Rattle.std.specs.Prelude.{OnOk, OnErr, IsErrOf};
ghost use Rattle.tnc_base.specs.Faults.{HasRisen};
ghost use Rattle.tnc_base.specs.Streams.{WrotePart};
ghost use Rattle.tnc_forms.specs.Reading.{input_limit};
ghost use Rattle.tnc_engine.specs.Making.{IsMaking};
ghost use Rattle.tnc_engine.specs.Ended.{IsEnded};
ghost use Rattle.tnc_engine.specs.Made.{IsFinished, IsTaken};

use crate::maker::{Maker, Taken};
use std::alloc::Global;
use tnc_base::{Sink, Source};
use tnc_forms::{Fault, read_piece};

/// Reads the input to its end, at most so many octets at once as the buffer holds, and writes the text that the maker
/// gives for a piece before it reads on. Keeps one piece, its text and the maker, however long the input is. An input
/// of more than 2^40 octets is refused once these are taken and their text is written.
pub fn make<M: Maker, I: Source, O: Sink>(
    alloc: Global,
    maker: &mut M,
    buffer: &mut [u8],
    input: &mut I,
    output: &mut O,
) -> Result<(), Fault>
    requires new { (words : M.Words) × M.holds maker.old words [] }
    requires laws { (words : M.Words) → IsMaking (M.making words) }
    requires room { 0 < length buffer.old }
    ensures ended { (words : M.Words) (octets : List ℕ) → M.holds maker.old words []
        → (I.told input.old).left ≡ Some octets
        → IsEnded (M.making words) (length buffer.old) octets
        (I.told input.new).left (O.told output.old).written (O.told output.new).written result }
    ensures faultless { OnOk result (((I.told input.new).faults ≡ (I.told input.old).faults)
        × ((O.told output.new).faults ≡ (O.told output.old).faults)) }
    ensures read { IsErrOf result Fault.Read → HasRisen (I.told input.old).faults (I.told input.new).faults }
    ensures write { IsErrOf result Fault.Write → HasRisen (O.told output.old).faults (O.told output.new).faults }
{
    let mut text = Vec::new(alloc);
    let mut total = 0;
    'reading: loop {
        let count = read_piece(input, total, buffer)?;
        if count == 0 {
            return make_last(maker, &mut text, output);
        }
        make_piece(maker, &buffer[..count], &mut text, output)?;
        total += count;
    }
}

/// Writes the text of the next octets.
fn make_piece<M: Maker, O: Sink>(
    maker: &mut M,
    octets: &[u8],
    text: &mut Vec<u8>,
    output: &mut O,
) -> Result<(), Fault>
    requires held { (words : M.Words) × (before : List ℕ) × M.holds maker.old words before
        × (length before + length octets.now ≤ input_limit) }
    requires laws { (words : M.Words) → IsMaking (M.making words) }
    ensures taken { (words : M.Words) (before : List ℕ) → M.holds maker.old words before
        → (M.making words).fault_so_far before ≡ None
        → IsTaken (M.making words) before octets.now (O.told output.old).written (O.told output.new).written result }
    ensures goes { (words : M.Words) (before : List ℕ) → M.holds maker.old words before
        → (M.making words).fault_so_far before ≡ None
        → OnOk result (M.holds maker.new words (before ++ octets.now)
        × ((M.making words).fault_so_far (before ++ octets.now) ≡ None)) }
    ensures faultless { OnOk result ((O.told output.new).faults ≡ (O.told output.old).faults) }
    ensures write { IsErrOf result Fault.Write → HasRisen (O.told output.old).faults (O.told output.new).faults }
    ensures read { ¬ IsErrOf result Fault.Read }
{
    let mut rest = octets;
    'taking: while !rest.is_empty() {
        let taken = maker.take(rest, text)?;
        write_text(text, output)?;
        match taken {
            Taken::Front(count) => rest = &rest[count..],
            Taken::Bad(fault) => return Err(Fault::Input(fault)),
        }
    }
    Ok(())
}

/// Writes the rest of the text, and then tells what is wrong with the input.
fn make_last<M: Maker, O: Sink>(
    maker: &mut M,
    text: &mut Vec<u8>,
    output: &mut O,
) -> Result<(), Fault>
    requires held { (words : M.Words) × (before : List ℕ) × M.holds maker.old words before
        × (length before ≤ input_limit) }
    ensures finished { (words : M.Words) (octets : List ℕ) → M.holds maker.old words octets
        → IsFinished (M.making words) octets (O.told output.old).written (O.told output.new).written result }
    ensures faultless { OnOk result ((O.told output.new).faults ≡ (O.told output.old).faults) }
    ensures write { IsErrOf result Fault.Write → HasRisen (O.told output.old).faults (O.told output.new).faults }
    ensures read { ¬ IsErrOf result Fault.Read }
{
    let fault = maker.finish(text)?;
    write_text(text, output)?;
    match fault {
        None => Ok(()),
        Some(fault) => Err(Fault::Input(fault)),
    }
}

/// Writes a text, if there is any.
fn write_text<O: Sink>(text: &[u8], output: &mut O) -> Result<(), Fault>
    ensures appends { (before : List ℕ) → (O.told output.old).written ≡ Some before
        → OnOk result ((O.told output.new).written ≡ Some (before ++ text.now)) }
    ensures partly { (before : List ℕ) → (O.told output.old).written ≡ Some before
        → OnErr result (WrotePart before text.now (O.told output.new).written) }
    ensures faultless { OnOk result ((O.told output.new).faults ≡ (O.told output.old).faults) }
    ensures failed { OnErr result (HasRisen (O.told output.old).faults (O.told output.new).faults) }
    ensures only { IfErr result (λ fault. fault ≡ Fault.Write) }
{
    if text.is_empty() {
        return Ok(());
    }
    match output.write(text) {
        Ok(()) => Ok(()),
        Err(_) => Err(Fault::Write),
    }
}
