//! A live station from its first poll to the end of its input.
ghost use Rattle.std.specs.Prelude.{◌≡◌, ◌≢◌, ℕ, ◌≤◌, List, [], ◌∷◌, ◌++◌, Some, All, IfSome, IsNone, is_some};
ghost use Rattle.std.specs.Prelude.{vec_capacity};
ghost use Rattle.std.specs.Thread.{IsSync};
ghost use Rattle.link_machine.specs.Params.{IsRefusedWindow};
ghost use Rattle.sample_ring.specs.Ends.{ring_id, ring_len, reader_ring, writer_ring, published_by};
ghost use Rattle.live_receiver.specs.Listening.{CanBeAskedBy};
ghost use Rattle.sound_rate.specs.declared.rate.Rate.{Rate};
ghost use Rattle.tnc_base.specs.Streams.{SourceTold};
ghost use Rattle.tnc_base.specs.Faults.{HasRisen};
ghost use Rattle.live_receiver.specs.LiveReceivers.{readers_in};
ghost use Rattle.tnc_ports.specs.FreshReceiver.{IsFresh};
ghost use Rattle.tnc_ports.specs.HeldMeter.{IsFreshSound, IsSoundOf, answers_if};
ghost use Rattle.tnc_ports.specs.PumpRun.{Pumps};
ghost use Rattle.tnc_ports.specs.SampledPump.{IsClosed, IsLoopedIf};
ghost use Rattle.tnc_ports.specs.SampledRun.{outside_by};
ghost use Rattle.tnc_ports.specs.ServeRun.{IsServed, end_of};
ghost use Rattle.tnc_ports.specs.Starts.{CountsUnless};

use crate::live::Live;
use crate::looping::{LoopEnd, station_loop};
use crate::pump_run::pump_beside;
use crate::pumping::{PumpEnd, Pumped};
use crate::serve_words::ServeWords;
use crate::spawner::Spawner;
use host_ports::Ports;
use key_port::KeyPort;
use live_receiver::{LiveReceiver, readers_wanted};
use sample_ring::{Reader, Ring, Writer};
use std::alloc::Global;
use std::net::Net;
use std::sync::Wait;
use std::thread::Threads;
use tnc_base::{Sink, Source};

/// The cells of the ring, which hold about seven seconds.
const CELLS: u32 = 65_536;

/// The most readers of the ring: nine of lanes, and that of the sound.
const MOST_READERS: usize = 10;

/// How a live station ends.
#[derive(Clone, Copy, Debug, PartialEq, Eq)]
pub enum ServeEnd {
    /// The input was read to its end, and all is written.
    Done,
    /// The input has more than 2^40 octets. All is written of those before.
    TooLong,
    /// Memory was wanted and not given.
    Memory,
    /// No thread could be started for the pump, as the spawner has counted. Nothing was read, and no turn was made.
    NoThread,
    /// The input failed. All is written of what was read.
    ReadFault,
    /// The output or the report failed.
    WriteFault,
    /// The ports could not be opened.
    NoPort,
}

/// Opens the ports, reads the input to its end or until it fails, and serves hosts meanwhile: a pump publishes the
/// samples of the input in a ring, and beside it the turns of the station read them there. It may wait for the input.
/// What the turns met counts before what the pump met. If no thread can be started for the pump it ends, without a
/// turn. It dials nobody. If a key is asked for, the transmitter is keyed before the first sample of each transmission,
/// and released at every end of the turns.
pub fn serve<
    R: Threads + Wait + Net + Sync,
    I: Source + Send,
    O: Sink,
    E: Sink,
    N: Ports,
    W: Spawner,
    K: KeyPort<O>,
>(
    rt: &R,
    alloc: Global,
    words: ServeWords,
    input: &mut I,
    output: &mut O,
    report: &mut E,
    live: &mut Live<N, W, K>,
) -> ServeEnd
    requires window { (window : ℕ) → ¬ IsRefusedWindow words.config.params window }
    requires dcd { CanBeAskedBy words.listening words.dcd }
    ensures served { IsServed words result (I.told input.old) (I.told input.new)
        (outside_by N.told K.told O.told E.told live.old.ports live.old.key output.old report.old)
        (outside_by N.told K.told O.told E.told live.new.ports live.new.key output.new report.new) }
    ensures no_thread { result ≡ ServeEnd.NoThread → HasRisen (W.faults live.old.spawner) (W.faults live.new.spawner) }
    ensures thread { result ≢ ServeEnd.NoThread → W.faults live.new.spawner ≡ W.faults live.old.spawner }
    ensures dials { (N.told live.new.ports).dials ≡ (N.told live.old.ports).dials }
{
    let Live {
        ports,
        spawner,
        key,
        ..
    } = live;
    if ports.listen(rt, words.listen).is_err() {
        return ServeEnd::NoPort;
    }
    let count = readers_wanted(words.listening) + 1;
    let Ok((ring, writer, mut readers)) = Ring::new(alloc, CELLS, count) else {
        return ServeEnd::Memory;
    };
    let Ok(room) = Vec::with_capacity(alloc, MOST_READERS) else {
        return ServeEnd::Memory;
    };
    let mut sound = readers.pop();
    let Ok(mut receiver) = LiveReceiver::new(alloc, readers, words.dcd, words.listening) else {
        return ServeEnd::Memory;
    };
    let mut end = LoopEnd::Memory;
    let Some(pumped) = run_beside(
        rt,
        alloc,
        &words,
        &ring,
        writer,
        &mut receiver,
        &mut sound,
        &mut end,
        input,
        output,
        report,
        ports,
        spawner,
        key,
    ) else {
        return ServeEnd::NoThread;
    };
    close(ring, pumped, receiver, sound, room, end)
}

/// Runs the pump beside the turns.
fn run_beside<
    R: Threads + Wait + Net + Sync,
    I: Source + Send,
    O: Sink,
    E: Sink,
    N: Ports,
    W: Spawner,
    K: KeyPort<O>,
>(
    rt: &R,
    alloc: Global,
    words: &ServeWords,
    ring: &Ring,
    writer: Writer,
    receiver: &mut LiveReceiver,
    sound: &mut Option<Reader>,
    end: &mut LoopEnd,
    input: &mut I,
    output: &mut O,
    report: &mut E,
    ports: &mut N,
    spawner: &mut W,
    key: &mut K,
) -> Option<Pumped>
    requires window { (window : ℕ) → ¬ IsRefusedWindow words.now.config.params window }
    requires ring { writer_ring writer ≡ ring_id ring.now }
    requires new { published_by writer ≡ [] }
    requires fresh { IsFresh words.now ring.now receiver.old }
    requires sound { IsFreshSound ring.now sound.old }
    ensures pumped { IfSome result (λ pumped. Pumps words.now.rate ring.now pumped (I.told input.old)
        (I.told input.new)) }
    ensures unread { IsNone result → I.told input.new ≡ I.told input.old }
    ensures readers { All (λ reader. reader_ring reader ≡ ring_id ring.now) (readers_in receiver.new) }
    ensures sound { IsSoundOf ring.now sound.new }
    ensures looped { IsLoopedIf (is_some result) words.now end.new
        (answers_if (ring_len ring.now) receiver.new sound.new)
        (outside_by N.told K.told O.told E.told ports.old key.old output.old report.old)
        (outside_by N.told K.told O.told E.told ports.new key.new output.new report.new) }
    ensures counted { CountsUnless (is_some result) (W.faults spawner.old) (W.faults spawner.new) }
    ensures dials { (N.told ports.new).dials ≡ (N.told ports.old).dials }
{
    pump_beside(
        rt,
        ring,
        writer,
        words.rate,
        input,
        spawner,
        &mut |begins: bool|
            requires { IsSync R.row
                × ((window : ℕ) → ¬ IsRefusedWindow words.now.config.params window)
                × IsFresh words.now ring.now receiver.now × IsFreshSound ring.now sound.now }
            ensures { All (λ reader. reader_ring reader ≡ ring_id ring.entry.now) (readers_in receiver.exit.now)
                × IsSoundOf ring.entry.now sound.exit.now
                × IsLoopedIf begins words.entry.now end.exit.now
                (answers_if (ring_len ring.entry.now) receiver.exit.now sound.exit.now)
                (outside_by N.told K.told O.told E.told
                ports.entry.now key.entry.now output.entry.now report.entry.now)
                (outside_by N.told K.told O.told E.told
                ports.exit.now key.exit.now output.exit.now report.exit.now)
                × ((N.told ports.exit.now).dials ≡ (N.told ports.entry.now).dials) }
        {
            loop_if(
                begins, rt, alloc, words, ring, receiver, sound, end, output, report, ports, key,
            )
        },
    )
}

/// Makes the turns if the pump begins, and none if not.
fn loop_if<R: Threads + Wait + Net + Sync, O: Sink, E: Sink, N: Ports, K: KeyPort<O>>(
    begins: bool,
    rt: &R,
    alloc: Global,
    words: &ServeWords,
    ring: &Ring,
    receiver: &mut LiveReceiver,
    sound: &mut Option<Reader>,
    end: &mut LoopEnd,
    output: &mut O,
    report: &mut E,
    ports: &mut N,
    key: &mut K,
)
    requires window { (window : ℕ) → ¬ IsRefusedWindow words.now.config.params window }
    requires fresh { IsFresh words.now ring.now receiver.old }
    requires sound { IsFreshSound ring.now sound.old }
    ensures readers { All (λ reader. reader_ring reader ≡ ring_id ring.now) (readers_in receiver.new) }
    ensures sound { IsSoundOf ring.now sound.new }
    ensures looped { IsLoopedIf begins words.now end.new (answers_if (ring_len ring.now) receiver.new sound.new)
        (outside_by N.told K.told O.told E.told ports.old key.old output.old report.old)
        (outside_by N.told K.told O.told E.told ports.new key.new output.new report.new) }
    ensures dials { (N.told ports.new).dials ≡ (N.told ports.old).dials }
{
    if begins {
        *end = station_loop(
            rt, alloc, words, ring, receiver, sound, output, report, ports, key,
        );
    }
}

/// Closes the ring once both have ended, with the reader of the sound after those of the lanes.
fn close(
    ring: Ring,
    pumped: Pumped,
    receiver: LiveReceiver,
    sound: Option<Reader>,
    room: Vec<Reader>,
    end: LoopEnd,
) -> ServeEnd
    requires cells { ring_len ring ≡ CELLS }
    requires readers { All (λ reader. reader_ring reader ≡ ring_id ring) (readers_in receiver) }
    requires sound { IsSoundOf ring sound }
    requires empty { room.items ≡ [] }
    requires room { 10 ≤ vec_capacity room }
    requires pumped { (rate : Rate) × (input : SourceTold) × (left : SourceTold) × Pumps rate ring pumped input left }
    ensures closed { (rate : Rate) (input left : SourceTold) → Pumps rate ring pumped input left
        → IsClosed rate end result (answers_if CELLS receiver sound) input left }
    ensures thread { result ≢ ServeEnd.NoThread }
{
    let Some(last) = sound else { unreachable!() };
    let readers = rejoined(receiver, last, room);
    let _history = ring.close(pumped.done, readers);
    end_of(end, pumped.end)
}

/// All readers in a Vec that is empty and has room for them. It takes no memory.
fn rejoined(receiver: LiveReceiver, sound: Reader, mut room: Vec<Reader>) -> Vec<Reader>
    requires empty { room.items ≡ [] }
    requires room { 10 ≤ vec_capacity room }
    ensures { result.items ≡ readers_in receiver ++ sound ∷ [] }
{
    let mut readers = receiver.finish();
    room.append(&mut readers).unwrap();
    room.push_reserved(sound);
    room
}

/// How serving ends by the ends of the turns and of the pump, of which that of the turns counts first.
fn end_of(end: LoopEnd, pump: PumpEnd) -> ServeEnd
    ensures end { result ≡ end_of end pump }
    ensures thread { result ≢ ServeEnd.NoThread }
{
    match (end, pump) {
        (LoopEnd::Memory, _) => ServeEnd::Memory,
        (LoopEnd::WriteFault, _) => ServeEnd::WriteFault,
        (LoopEnd::Done, PumpEnd::InputEnd) => ServeEnd::Done,
        (LoopEnd::Done, PumpEnd::ReadFault) => ServeEnd::ReadFault,
        (LoopEnd::Done, PumpEnd::TooLong) => ServeEnd::TooLong,
    }
}
