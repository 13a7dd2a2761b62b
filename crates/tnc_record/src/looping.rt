//! The turns of a recording, from the first to the last, and what is written past the last.
ghost use Rattle.std.specs.Prelude.{◌≡◌, ℕ, Bool, false};
ghost use Rattle.sample_ring.specs.Ends.{ring_len};
ghost use Rattle.ring_recorder.specs.Held.{StandsFor};
ghost use Rattle.ring_recorder.specs.Recording.{answers_of};
ghost use Rattle.tnc_base.specs.Streams.{SinkTold};
ghost use Rattle.tnc_ports.specs.SampledWrites.{Puts};
ghost use Rattle.tnc_record.specs.declared.recording.RecordWords.{RecordWords};
ghost use Rattle.tnc_record.specs.HeldListening.{ReadsRing, StandsForRecording, IsAnswered};
ghost use Rattle.tnc_record.specs.RecordLoop.{IsLooped};
ghost use Rattle.tnc_record.specs.RecordText.{report_text};
ghost use Rattle.tnc_record.specs.RecordTurns.{Recording, new_recording, IsRun};

use crate::lines::text_of_losses;
use crate::listening::Listening;
use crate::recording::RecordWords;
use ring_recorder::Recorder;
use sample_ring::Ring;
use std::alloc::Global;
use std::sync::Wait;
use std::thread::Threads;
use tnc_base::{Failed, Sink};
use tnc_ports::{LoopEnd, put};

/// Makes turn after turn until all readers have met the end of the ring, or memory is wanted. Past the last turn it
/// reports the losses and writes the sound. It may wait for the ring's writer.
pub(crate) fn record_loop<R: Threads + Wait + Sync, O: Sink, E: Sink>(
    rt: &R,
    alloc: Global,
    words: &RecordWords,
    ring: &Ring,
    listening: &mut Listening,
    output: &mut O,
    report: &mut E,
) -> LoopEnd
    requires ring { ReadsRing ring.now listening.old }
    requires new { StandsForRecording words.now (ring_len ring.now) listening.old (new_recording words.now.sensitive) }
    requires unfailed { listening.old.failed ≡ false }
    ensures ring { ReadsRing ring.now listening.new }
    ensures looped { (recording : Recording) × IsAnswered (ring_len ring.now) listening.new recording
        × IsLooped words.now result recording
        (O.told output.old) (O.told output.new) (E.told report.old) (E.told report.new) }
{
    'turns: for _ in rt.forever() {
        match listening.turn(rt, alloc, ring, report) {
            Ok(false) => {}
            Ok(true) => {
                return finish(alloc, &listening.recorder, listening.failed, output, report);
            }
            Err(_) => return LoopEnd::Memory,
        }
    }
    unreachable!()
}

/// Reports the losses, and then writes the sound, unless a write failed.
fn finish<O: Sink, E: Sink>(
    alloc: Global,
    recorder: &Recorder,
    failed: bool,
    output: &mut O,
    report: &mut E,
) -> LoopEnd
    ensures { (words : RecordWords) (len : ℕ) (recording : Recording) (start : SinkTold)
        → StandsFor len recorder.now → recorder.now.keep ≡ words.keep
        → answers_of len recorder.now.reader ≡ recording.recorded → IsRun words.sensitive recording
        → Puts false failed (report_text recording.lines) start (E.told report.old)
        → IsLooped words result recording (O.told output.old) (O.told output.new) start (E.told report.new) }
{
    let Ok(text) = text_of_losses(alloc, recorder.losses()) else {
        return LoopEnd::Memory;
    };
    let mut failed = failed;
    put(report, &mut failed, &text);
    if failed {
        return LoopEnd::WriteFault;
    }
    match recorder.write(output) {
        Ok(()) => LoopEnd::Done,
        Err(Failed) => LoopEnd::WriteFault,
    }
}
