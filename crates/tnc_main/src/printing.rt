//! A text that the program tells of itself.
ghost use Rattle.std.specs.Prelude.{◌≡◌, ◌⊎◌, ◌++◌, List, ℕ, Some, Ok, Err, OnOk, OnErr};
ghost use Rattle.tnc_base.specs.Faults.{HasRisen};
ghost use Rattle.tnc_base.specs.Streams.{WrotePart};

use crate::stop::Stop;
use tnc_base::Sink;

/// Writes a text to the output.
pub(crate) fn print_text<O: Sink>(output: &mut O, text: &str) -> Result<(), Stop>
    ensures ends { (result ≡ Ok tt) ⊎ (result ≡ Err Stop.Write) }
    ensures whole { (before : List ℕ) → (O.told output.old).written ≡ Some before
        → OnOk result ((O.told output.new).written ≡ Some (before ++ text.now)) }
    ensures cut { (before : List ℕ) → (O.told output.old).written ≡ Some before
        → OnErr result (WrotePart before text.now (O.told output.new).written) }
    ensures faultless { OnOk result ((O.told output.new).faults ≡ (O.told output.old).faults) }
    ensures fault { OnErr result (HasRisen (O.told output.old).faults (O.told output.new).faults) }
{
    match output.write(text.as_bytes()) {
        Ok(()) => Ok(()),
        Err(_) => Err(Stop::Write),
    }
}
