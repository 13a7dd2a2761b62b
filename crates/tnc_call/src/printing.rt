//! What comes of the remote station, written as it comes.
ghost use Rattle.std.specs.Prelude.{◌≡◌, ◌≤◌, ◌++◌, List, ℕ, Some, OnOk, OnErr};
ghost use Rattle.tnc_base.specs.Faults.{HasRisen};
ghost use Rattle.tnc_base.specs.Streams.{WrotePart};

use tnc_base::{Failed, Sink};

/// Writes octets, if there are any.
pub(crate) fn print<O: Sink>(output: &mut O, octets: &[u8]) -> Result<(), Failed>
    ensures appends { (before : List ℕ) → (O.told output.old).written ≡ Some before
        → OnOk result ((O.told output.new).written ≡ Some (before ++ octets.now)) }
    ensures partly { (before : List ℕ) → (O.told output.old).written ≡ Some before
        → OnErr result (WrotePart before octets.now (O.told output.new).written) }
    ensures later { (O.told output.old).faults ≤ (O.told output.new).faults }
    ensures faultless { OnOk result ((O.told output.new).faults ≡ (O.told output.old).faults) }
    ensures failed { OnErr result (HasRisen (O.told output.old).faults (O.told output.new).faults) }
{
    if octets.is_empty() {
        return Ok(());
    }
    output.write(octets)
}
