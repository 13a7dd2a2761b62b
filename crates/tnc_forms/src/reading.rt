//! An input read whole, or piece by piece.
ghost use Rattle.std.specs.Prelude.{◌≡◌, ◌≤◌, ◌+◌, ◌<◌, ◌++◌, List, ℕ, Some, [], length, take, drop, IfOk, OnOk};
ghost use Rattle.std.specs.Prelude.{IsErrOf};
ghost use Rattle.tnc_base.specs.Faults.{HasRisen};
ghost use Rattle.tnc_forms.specs.declared.fault.InputFault.{InputFault};
ghost use Rattle.tnc_forms.specs.Reading.{input_limit};

use crate::fault::{Fault, InputFault};
use std::alloc::Global;
use tnc_base::Source;

/// The most octets of an input.
const INPUT_LIMIT: usize = 1 << 40;

/// The most octets of one read.
pub const PIECE: usize = 4096;

/// All octets of the input, read to its end. Reads at most 2^40 + 1 octets, and ends at the first read that fails.
pub fn read_all<I: Source>(alloc: Global, input: &mut I) -> Result<Vec<u8>, Fault>
    ensures whole { (octets : List ℕ) → (I.told input.old).left ≡ Some octets
        → IfOk result (λ all. all.items ≡ octets) }
    ensures end { (octets : List ℕ) → (I.told input.old).left ≡ Some octets
        → OnOk result ((I.told input.new).left ≡ Some []) }
    ensures limit { IfOk result (λ all. length all.items ≤ input_limit) }
    ensures too_long { (octets : List ℕ) → (I.told input.old).left ≡ Some octets
        → IsErrOf result (Fault.Input InputFault.TooLong) → input_limit < length octets }
    ensures stops { (octets : List ℕ) → (I.told input.old).left ≡ Some octets
        → IsErrOf result (Fault.Input InputFault.TooLong)
        → (I.told input.new).left ≡ Some (drop (input_limit + 1) octets) }
    ensures later { (I.told input.old).faults ≤ (I.told input.new).faults }
    ensures faultless { OnOk result ((I.told input.new).faults ≡ (I.told input.old).faults) }
    ensures read { IsErrOf result Fault.Read → HasRisen (I.told input.old).faults (I.told input.new).faults }
    ensures write { ¬ IsErrOf result Fault.Write }
    ensures only { (fault : InputFault) → IsErrOf result (Fault.Input fault) → fault ≡ InputFault.TooLong }
{
    let mut octets = Vec::new(alloc);
    let mut buffer = [0; PIECE];
    'reading: while octets.len() <= INPUT_LIMIT {
        let room = PIECE.min(INPUT_LIMIT + 1 - octets.len());
        let Ok(count) = input.read(&mut buffer[..room]) else {
            return Err(Fault::Read);
        };
        if count == 0 {
            return Ok(octets);
        }
        octets.extend_from_slice(&buffer[..count])?;
    }
    Err(Fault::Input(InputFault::TooLong))
}

/// Reads the next octets of an input of which so many have come, and answers how many: 0 at its end. Refuses an octet
/// past the 2^40th.
pub fn read_piece<I: Source>(input: &mut I, total: usize, buffer: &mut [u8]) -> Result<usize, Fault>
    requires few { total ≤ input_limit }
    requires room { 0 < length buffer.old }
    ensures piece { (octets : List ℕ) → (I.told input.old).left ≡ Some octets
        → IfOk result (λ count. (rest : List ℕ) × (octets ≡ take count buffer.new ++ rest)
        × ((I.told input.new).left ≡ Some rest)
        × (count ≡ 0 → rest ≡ [])) }
    ensures bound { IfOk result (λ count. (count ≤ length buffer.new) × (total + count ≤ input_limit)) }
    ensures too_long { (octets : List ℕ) → (I.told input.old).left ≡ Some octets
        → IsErrOf result (Fault.Input InputFault.TooLong)
        → (total ≡ input_limit) × (0 < length octets) × ((I.told input.new).left ≡ Some (drop 1 octets)) }
    ensures kept { IsErrOf result Fault.Read → (I.told input.new).left ≡ (I.told input.old).left }
    ensures later { (I.told input.old).faults ≤ (I.told input.new).faults }
    ensures faultless { OnOk result ((I.told input.new).faults ≡ (I.told input.old).faults) }
    ensures read { IsErrOf result Fault.Read → HasRisen (I.told input.old).faults (I.told input.new).faults }
    ensures write { ¬ IsErrOf result Fault.Write }
    ensures memory { ¬ IsErrOf result Fault.Memory }
    ensures only { (fault : InputFault) → IsErrOf result (Fault.Input fault) → fault ≡ InputFault.TooLong }
{
    let room = buffer.len().min(INPUT_LIMIT - total).max(1);
    match input.read(&mut buffer[..room]) {
        Ok(count) if total + count > INPUT_LIMIT => Err(Fault::Input(InputFault::TooLong)),
        Ok(count) => Ok(count),
        Err(_) => Err(Fault::Read),
    }
}
