//! Samples as octets of a file.
ghost use Rattle.std.specs.Prelude.{◌≡◌, ◌++◌, ◌≤◌, ℕ, List, Some, length, OnOk, OnErr};
ghost use Rattle.tnc_base.specs.Faults.{HasRisen};
ghost use Rattle.tnc_base.specs.Streams.{WrotePart};
ghost use Rattle.ring_recorder.specs.Wave.{sample_octets, octets_of};

use byteorder::{ByteOrder, LittleEndian};
use tnc_base::{Failed, Sink};

/// The most samples of one write.
const PIECE: usize = 4096;

/// Writes samples, each with its low octet first.
pub(crate) fn write_samples<O: Sink>(output: &mut O, samples: &[i16]) -> Result<(), Failed>
    ensures appends { (before : List ℕ) → (O.told output.old).written ≡ Some before
        → OnOk result ((O.told output.new).written ≡ Some (before ++ octets_of samples.now)) }
    ensures partly { (before : List ℕ) → (O.told output.old).written ≡ Some before
        → OnErr result (WrotePart before (octets_of samples.now) (O.told output.new).written) }
    ensures later { (O.told output.old).faults ≤ (O.told output.new).faults }
    ensures faultless { OnOk result ((O.told output.new).faults ≡ (O.told output.old).faults) }
    ensures failed { OnErr result (HasRisen (O.told output.old).faults (O.told output.new).faults) }
{
    let mut rest = samples;
    'pieces: while !rest.is_empty() {
        let (piece, others) = rest.split_at(rest.len().min(PIECE));
        write_piece(output, piece)?;
        rest = others;
    }
    Ok(())
}

/// Writes samples of at most one piece.
fn write_piece<O: Sink>(output: &mut O, samples: &[i16]) -> Result<(), Failed>
    requires { length samples.now ≤ 4096 }
    ensures appends { (before : List ℕ) → (O.told output.old).written ≡ Some before
        → OnOk result ((O.told output.new).written ≡ Some (before ++ octets_of samples.now)) }
    ensures partly { (before : List ℕ) → (O.told output.old).written ≡ Some before
        → OnErr result (WrotePart before (octets_of samples.now) (O.told output.new).written) }
    ensures later { (O.told output.old).faults ≤ (O.told output.new).faults }
    ensures faultless { OnOk result ((O.told output.new).faults ≡ (O.told output.old).faults) }
    ensures failed { OnErr result (HasRisen (O.told output.old).faults (O.told output.new).faults) }
{
    let mut room = [0; 2 * PIECE];
    let octets = &mut room[..2 * samples.len()];
    LittleEndian::write_i16_into(samples, octets);
    output.write(octets)
}
