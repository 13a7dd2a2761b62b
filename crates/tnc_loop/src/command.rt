//! The word loop: from a seed to samples, and back to the frames that are heard in them.
ghost use Rattle.std.specs.Prelude.{◌≡◌, ◌++◌, List, ℕ, Some, Err, OnOk, OnErr, IsErrOf};
ghost use Rattle.tnc_base.specs.Faults.{HasRisen};
ghost use Rattle.tnc_base.specs.Streams.{WrotePart};
ghost use Rattle.clean_signal.specs.GoodTransmission.{frames_of};
ghost use Rattle.clean_signal.specs.MergedFrames.{MergesTo};
ghost use Rattle.clean_signal.specs.Stray.{NoStray};
ghost use Rattle.tnc_loop.specs.Drawn.{drawn, samples_drawn};
ghost use Rattle.tnc_loop.specs.Summary.{IsSummary, IsFirstStray, clean_summary};

use crate::fault::LoopFault;
use crate::telling::tell_drawn;
use std::alloc::Global;
use std::thread::Threads;
use tnc_base::Sink;
use tnc_words::LoopWords;

/// Draws frames from the seed, sends each as a transmission of its own, hears the samples, and writes the summary. If a
/// candidate of the samples is no frame that was made, the first such is told after the summary. With `rough` each
/// transmission has a start phase and a level of its own, noise before it, and errors within a tenth of its level. With
/// `threads` the lanes that hear work on threads, and all that is told is the same.
pub fn loop_back<R: Threads + Sync, O: Sink>(
    rt: &R,
    alloc: Global,
    words: LoopWords,
    output: &mut O,
) -> Result<(), LoopFault>
    // what is written, and what then holds of the samples
    ensures done { (before : List ℕ) → (O.told output.old).written ≡ Some before
        → OnOk result ((text : List ℕ) × IsSummary words text × ((O.told output.new).written ≡ Some (before ++ text))) }
    ensures same { (before : List ℕ) → (O.told output.old).written ≡ Some before
        → OnOk result ((O.told output.new).written ≡ Some (before ++ clean_summary words)) }
    ensures no_stray { OnOk result (NoStray (drawn words) (samples_drawn words)) }
    ensures clean { OnOk result (MergesTo (frames_of (drawn words)) (samples_drawn words)) }
    ensures faultless { OnOk result ((O.told output.new).faults ≡ (O.told output.old).faults) }

    // the stray candidate that is told, and what was written before
    ensures stray { (octets : List ℕ) → IsErrOf result (LoopFault.Stray octets) → IsFirstStray words octets }
    ensures done_before { (octets before : List ℕ) → (O.told output.old).written ≡ Some before
        → IsErrOf result (LoopFault.Stray octets)
        → (text : List ℕ) × IsSummary words text × ((O.told output.new).written ≡ Some (before ++ text)) }

    // each other fault, and what stands after it
    ensures write { IsErrOf result LoopFault.Write → HasRisen (O.told output.old).faults (O.told output.new).faults }
    ensures cut { (before text : List ℕ) → (O.told output.old).written ≡ Some before → IsSummary words text
        → OnErr result (WrotePart before text (O.told output.new).written) }
    ensures unwritten { result ≡ Err LoopFault.Memory → output.new ≡ output.old }
{
    let told = tell_drawn(rt, alloc, words)?;
    match (output.write(told.summary.as_bytes()), told.stray) {
        (Err(_), _) => Err(LoopFault::Write),
        (Ok(()), None) => Ok(()),
        (Ok(()), Some(octets)) => Err(LoopFault::Stray { octets }),
    }
}
