//! The word show: from frames to their lines of text, piece after piece.
ghost use Rattle.std.specs.Prelude.{◌≡◌, List, ℕ, Some, [], OnOk, IsErrOf};
ghost use Rattle.tnc_base.specs.Faults.{HasRisen};
ghost use Rattle.tnc_engine.specs.Ended.{IsEnded};
ghost use Rattle.tnc_forms.specs.Reading.{piece_limit};
ghost use Rattle.tnc_show.specs.Making.{show_making};

use crate::shower::Shower;
use std::alloc::Global;
use tnc_base::{Sink, Source};
use tnc_engine::make;
use tnc_forms::{Fault, PIECE};
use tnc_words::ShowWords;

/// Reads the input piece by piece, and writes the lines of text of the frames that end in a piece before it reads on.
/// Keeps one piece, its text and the part of one line, however long the input is. Octets that are no frame have a line
/// too, which names their fault. If a line of the input is bad, the lines before it are shown, and it is told.
pub fn show<I: Source, O: Sink>(
    alloc: Global,
    words: ShowWords,
    input: &mut I,
    output: &mut O,
) -> Result<(), Fault>
    ensures ended { (octets : List ℕ) → (I.told input.old).left ≡ Some octets
        → IsEnded (show_making words) piece_limit octets
        (I.told input.new).left (O.told output.old).written (O.told output.new).written result }
    ensures faultless { OnOk result (((I.told input.new).faults ≡ (I.told input.old).faults)
        × ((O.told output.new).faults ≡ (O.told output.old).faults)) }
    ensures read { IsErrOf result Fault.Read → HasRisen (I.told input.old).faults (I.told input.new).faults }
    ensures write { IsErrOf result Fault.Write → HasRisen (O.told output.old).faults (O.told output.new).faults }
{
    let mut shower = Shower::new(alloc, words);
    let mut buffer = [0; PIECE];
    make(alloc, &mut shower, &mut buffer, input, output)
}
