//! Laws on the definitions. A law is the contract of a function that does nothing.

ghost use Rattle.std.specs.Prelude.{◌≡◌, List, Bool};
ghost use Rattle.tone_table.specs.declared.tone.Tone.{Tone};
ghost use Rattle.nrzi_bits.specs.Line.{bits_of, line};

/// The law of the rule, which holds of all lists and needs no work: the bits of a sent line are the
/// bits that were sent, and sending the bits of a line gives that line.
pub fn each_undoes_the_other()
    ensures heard { (bits : List Bool) → bits_of (line bits) ≡ bits }
    ensures sent { (tones : List Tone) → line (bits_of tones) ≡ tones }
{}
