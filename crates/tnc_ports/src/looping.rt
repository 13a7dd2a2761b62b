//! The turns of a live station, from the first to the last.
ghost use Rattle.std.specs.Prelude.{◌≡◌, ℕ, [], false, All};
ghost use Rattle.link_machine.specs.Params.{IsRefusedWindow};
ghost use Rattle.sample_ring.specs.Ends.{ring_id, ring_len, reader_ring};
ghost use Rattle.live_receiver.specs.LiveReceivers.{readers_in, detection_of};
ghost use Rattle.tnc_ports.specs.FreshReceiver.{IsFresh};
ghost use Rattle.tnc_ports.specs.HeldMeter.{IsFreshSound, IsSoundOf, answers_if, answers_with};
ghost use Rattle.tnc_ports.specs.Sampled.{new_live};
ghost use Rattle.tnc_ports.specs.SampledHeld.{StandsForLive, KeyStands, RunsOut};
ghost use Rattle.tnc_ports.specs.SampledRun.{IsLooped, outside_by};

use crate::meter::Meter;
use crate::releasing::{key_of, release_key};
use crate::serve_words::ServeWords;
use crate::turning::Turning;
use host_ports::{Health, HostSide, Ports};
use key_port::KeyPort;
use live_receiver::LiveReceiver;
use sample_ring::{Reader, Ring};
use sound_rate::Outgoing;
use std::alloc::Global;
use std::net::Net;
use std::sync::Wait;
use std::thread::Threads;
use tnc_base::Sink;

/// How the turns of a live station end.
#[derive(Clone, Copy, Debug, PartialEq, Eq)]
pub enum LoopEnd {
    /// Every reader has met the end of the ring, and all is written.
    Done,
    /// Memory was wanted and not given.
    Memory,
    /// A write failed. The turns went on without writing until every reader had met the end of the ring.
    WriteFault,
}

/// Makes turn after turn until every lane's reader has met the end of the ring, or memory is wanted, and releases the key of
/// the transmitter, however the turns end. It may wait for the ring's writer, and for a second at most for the last
/// answers to the key. The reader of the sound is lent.
pub fn station_loop<R: Threads + Wait + Net + Sync, O: Sink, E: Sink, N: Ports, K: KeyPort<O>>(
    rt: &R,
    alloc: Global,
    words: &ServeWords,
    ring: &Ring,
    receiver: &mut LiveReceiver,
    sound: &mut Option<Reader>,
    output: &mut O,
    report: &mut E,
    ports: &mut N,
    key: &mut K,
) -> LoopEnd
    requires window { (window : ℕ) → ¬ IsRefusedWindow words.now.config.params window }
    requires fresh { IsFresh words.now ring.now receiver.old }
    requires sound { IsFreshSound ring.now sound.old }
    ensures sound { IsSoundOf ring.now sound.new }
    ensures readers { All (λ reader. reader_ring reader ≡ ring_id ring.now) (readers_in receiver.new) }
    ensures dials { (N.told ports.new).dials ≡ (N.told ports.old).dials }
    ensures looped { IsLooped words.now result (answers_if (ring_len ring.now) receiver.new sound.new)
        (outside_by N.told K.told O.told E.told ports.old key.old output.old report.old)
        (outside_by N.told K.told O.told E.told ports.new key.new output.new report.new) }
{
    let mut side = key_of(words.key);
    let Ok(hosts) = HostSide::new(alloc, words.config, words.seed) else {
        release_key(rt, &mut side, output, key);
        return LoopEnd::Memory;
    };
    let Some(reader) = sound.take() else {
        unreachable!()
    };
    let mut turning = Turning {
        alloc,
        words: *words,
        hosts,
        ticks: 0,
        failed: false,
        key: side,
        meter: Meter {
            reader,
            health: Health::new(),
            out: Outgoing::new(words.rate),
        },
    };
    let end = run(rt, &mut turning, ring, receiver, output, report, ports, key);
    turning.release(rt, output, key);
    let Turning { meter, .. } = turning;
    *sound = Some(meter.reader);
    end
}

/// Makes the turns.
fn run<R: Threads + Wait + Net + Sync, O: Sink, E: Sink, N: Ports, K: KeyPort<O>>(
    rt: &R,
    turning: &mut Turning,
    ring: &Ring,
    receiver: &mut LiveReceiver,
    output: &mut O,
    report: &mut E,
    ports: &mut N,
    key: &mut K,
) -> LoopEnd
    requires stands { StandsForLive turning.old (ring_len ring.now) receiver.old (new_live turning.old.words) }
    requires readers { All (λ reader. reader_ring reader ≡ ring_id ring.now) (readers_in receiver.old) }
    requires detection { detection_of receiver.old ≡ turning.old.words.dcd }
    requires meter { reader_ring turning.old.meter.reader ≡ ring_id ring.now }
    requires failed { turning.old.failed ≡ false }
    requires key { KeyStands turning.old.words.key turning.old.key [] }
    ensures readers { All (λ reader. reader_ring reader ≡ ring_id ring.now) (readers_in receiver.new) }
    ensures dials { (N.told ports.new).dials ≡ (N.told ports.old).dials }
    ensures meter { reader_ring turning.new.meter.reader ≡ ring_id ring.now }
    ensures run { RunsOut turning.old.words result
        (answers_with (ring_len ring.now) receiver.new turning.new.meter.reader) turning.new
        (outside_by N.told K.told O.told E.told ports.old key.old output.old report.old)
        (outside_by N.told K.told O.told E.told ports.new key.new output.new report.new) }
{
    'turns: for _ in rt.forever() {
        match turning.turn(rt, ring, receiver, output, report, ports, key) {
            Ok(false) => {}
            Ok(true) if turning.failed => return LoopEnd::WriteFault,
            Ok(true) => return LoopEnd::Done,
            Err(_) => return LoopEnd::Memory,
        }
    }
    unreachable!()
}
