//! A recording from its first sample to the end of its input.
ghost use Rattle.std.specs.Prelude.{◌≡◌, ◌≤◌, ℕ, [], false, vec_capacity};
ghost use Rattle.std.specs.Prelude.{IfSome, IsNone, is_some};
ghost use Rattle.std.specs.Thread.{IsSync};
ghost use Rattle.sample_ring.specs.Ends.{ring_id, ring_len, writer_ring, published_by};
ghost use Rattle.sound_rate.specs.declared.rate.Rate.{Rate};
ghost use Rattle.tnc_base.specs.Streams.{SourceTold};
ghost use Rattle.tnc_ports.specs.PumpRun.{Pumps};
ghost use Rattle.tnc_record.specs.HeldListening.{ReadsRing, StandsForRecording, IsAnswered};
ghost use Rattle.tnc_record.specs.HeldRecord.{LoopsIf, IsClosed};
ghost use Rattle.tnc_record.specs.RecordRun.{IsRecorded, end_of};
ghost use Rattle.tnc_record.specs.RecordTurns.{Recording, new_recording};

use crate::listening::Listening;
use crate::looping::record_loop;
use ring_receiver::readers_wanted;
use sample_ring::{Reader, Ring, Writer};
use sound_rate::Rate;
use std::alloc::Global;
use std::sync::Wait;
use std::thread::Threads;
use tnc_base::{Sink, Source};
use tnc_ports::{LoopEnd, PumpEnd, Pumped, Spawner, pump_beside};

/// The cells of the ring, which hold about seven seconds.
const CELLS: u32 = 65_536;

/// The most readers of a receiver.
const MOST_LANES: usize = 9;

/// The most readers: those of the receiver and one of the recorder.
const MOST_READERS: usize = 10;

/// What to record.
#[derive(Clone, Copy, Debug, PartialEq, Eq)]
pub struct RecordWords {
    /// The most samples of the sound, 1 to 17,280,000.
    pub keep: u32,
    /// The added lanes listen too.
    pub sensitive: bool,
}

/// How a recording ends.
#[derive(Clone, Copy, Debug, PartialEq, Eq)]
pub enum RecordEnd {
    /// The input was read to its end, and all is written.
    Done,
    /// The input has more than 2^40 octets. All is written of those before.
    TooLong,
    /// Memory was wanted and not given. No sound is written.
    Memory,
    /// No thread could be started for the pump. Nothing was read or written.
    NoThread,
    /// The input failed. All is written of what was read.
    ReadFault,
    /// The output or the report failed.
    WriteFault,
}

/// Reads the input to its end or until it fails. Meanwhile it reports the frames that are heard, and the gaps that the
/// receiver's readers are told of. At the end it reports what the recorder lost, and writes the last samples as a WAV
/// file. It may wait for the input. What the turns met counts before what the pump met.
pub fn record<R: Threads + Wait + Sync, I: Source + Send, O: Sink, E: Sink, W: Spawner>(
    rt: &R,
    alloc: Global,
    words: RecordWords,
    input: &mut I,
    output: &mut O,
    report: &mut E,
    spawner: &mut W,
) -> RecordEnd
    requires { (1 ≤ words.keep) × (words.keep ≤ 17280000) }
    ensures { IsRecorded words result (I.told input.old) (I.told input.new)
        (O.told output.old) (O.told output.new) (E.told report.old) (E.told report.new) }
{
    let count = readers_wanted(words.sensitive) + 1;
    let Ok((ring, writer, readers)) = Ring::new(alloc, CELLS, count) else {
        return RecordEnd::Memory;
    };
    let Ok(room) = Vec::with_capacity(alloc, MOST_READERS) else {
        return RecordEnd::Memory;
    };
    let Ok(mut listening) = Listening::new(alloc, &words, readers) else {
        return RecordEnd::Memory;
    };
    let mut end = LoopEnd::Memory;
    let Some(pumped) = run_beside(
        rt,
        alloc,
        &words,
        &ring,
        writer,
        &mut listening,
        &mut end,
        input,
        output,
        report,
        spawner,
    ) else {
        return RecordEnd::NoThread;
    };
    close(ring, pumped, listening, room, end)
}

/// Runs the pump beside the turns.
fn run_beside<R: Threads + Wait + Sync, I: Source + Send, O: Sink, E: Sink, W: Spawner>(
    rt: &R,
    alloc: Global,
    words: &RecordWords,
    ring: &Ring,
    writer: Writer,
    listening: &mut Listening,
    end: &mut LoopEnd,
    input: &mut I,
    output: &mut O,
    report: &mut E,
    spawner: &mut W,
) -> Option<Pumped>
    requires writer { writer_ring writer ≡ ring_id ring.now }
    requires nothing { published_by writer ≡ [] }
    requires ring { ReadsRing ring.now listening.old }
    requires new { StandsForRecording words.now (ring_len ring.now) listening.old (new_recording words.now.sensitive) }
    requires unfailed { listening.old.failed ≡ false }
    ensures pumped { IfSome result (λ pumped. Pumps Rate.Narrow ring.now pumped (I.told input.old) (I.told input.new)) }
    ensures unread { IsNone result → I.told input.new ≡ I.told input.old }
    ensures ring { ReadsRing ring.now listening.new }
    ensures looped { LoopsIf (is_some result) words.now end.new (ring_len ring.now) listening.new
        (O.told output.old) (O.told output.new) (E.told report.old) (E.told report.new) }
{
    pump_beside(
        rt,
        ring,
        writer,
        Rate::Narrow,
        input,
        spawner,
        &mut |begins: bool|
            requires { IsSync R.row × ReadsRing ring.now listening.now
                × StandsForRecording words.now (ring_len ring.now) listening.now (new_recording words.now.sensitive)
                × (listening.now.failed ≡ false) }
            ensures { ReadsRing ring.entry.now listening.exit.now
                × LoopsIf begins words.entry.now end.exit.now (ring_len ring.entry.now) listening.exit.now
                (O.told output.entry.now) (O.told output.exit.now) (E.told report.entry.now) (E.told report.exit.now) }
        {
            loop_if(
                begins, rt, alloc, words, ring, listening, end, output, report,
            )
        },
    )
}

/// Makes the turns if the pump begins, and none if not.
fn loop_if<R: Threads + Wait + Sync, O: Sink, E: Sink>(
    begins: bool,
    rt: &R,
    alloc: Global,
    words: &RecordWords,
    ring: &Ring,
    listening: &mut Listening,
    end: &mut LoopEnd,
    output: &mut O,
    report: &mut E,
)
    requires ring { ReadsRing ring.now listening.old }
    requires new { StandsForRecording words.now (ring_len ring.now) listening.old (new_recording words.now.sensitive) }
    requires unfailed { listening.old.failed ≡ false }
    ensures ring { ReadsRing ring.now listening.new }
    ensures looped { LoopsIf begins words.now end.new (ring_len ring.now) listening.new
        (O.told output.old) (O.told output.new) (E.told report.old) (E.told report.new) }
{
    if begins {
        *end = record_loop(rt, alloc, words, ring, listening, output, report);
    }
}

/// Closes the ring once both have ended. The room holds all readers.
fn close(
    ring: Ring,
    pumped: Pumped,
    listening: Listening,
    room: Vec<Reader>,
    end: LoopEnd,
) -> RecordEnd
    requires cells { ring_len ring ≡ CELLS }
    requires readers { ReadsRing ring listening }
    requires empty { room.items ≡ [] }
    requires room { 10 ≤ vec_capacity room }
    requires pumped { (input : SourceTold) × (left : SourceTold) × Pumps Rate.Narrow ring pumped input left }
    ensures { (input left : SourceTold) (recording : Recording) → Pumps Rate.Narrow ring pumped input left
        → IsAnswered CELLS listening recording → IsClosed end result recording input left }
{
    let Listening {
        receiver,
        recorder,
        ..
    } = listening;
    let mut all = room;
    let mut readers = receiver.finish();
    // There are never more, but no clause of a receiver says so if memory was wanted.
    readers.truncate(MOST_LANES);
    all.append(&mut readers).unwrap();
    all.push_reserved(recorder.finish());
    let _history = ring.close(pumped.done, all);
    end_of(end, pumped.end)
}

/// How recording ends by the ends of the turns and of the pump, of which that of the turns counts first.
fn end_of(end: LoopEnd, pump: PumpEnd) -> RecordEnd
    ensures { result ≡ end_of end pump }
{
    match (end, pump) {
        (LoopEnd::Memory, _) => RecordEnd::Memory,
        (LoopEnd::WriteFault, _) => RecordEnd::WriteFault,
        (LoopEnd::Done, PumpEnd::InputEnd) => RecordEnd::Done,
        (LoopEnd::Done, PumpEnd::ReadFault) => RecordEnd::ReadFault,
        (LoopEnd::Done, PumpEnd::TooLong) => RecordEnd::TooLong,
    }
}
