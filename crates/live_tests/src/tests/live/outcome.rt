//! What a live station over streams in memory writes of an input.
ghost use Rattle.std.specs.Prelude.{◌≤◌, ℕ};
ghost use Rattle.link_machine.specs.Params.{IsRefusedWindow};
ghost use Rattle.live_receiver.specs.Listening.{CanBeAskedBy};

use host_ports::{Listen, MemPorts};
use key_port::MemKeyPort;
use link_machine::Params;
use live_receiver::Listening;
use slicer_bank::Detection;
use sound_rate::Rate;
use station::Config;
use std::alloc::Global;
use std::marker::Model;
use std::net::{Ipv4Addr, Net};
use std::sync::Wait;
use std::thread::Threads;
use tnc_base::{MemSink, MemSource, OutOfMemory};
use tnc_ports::{Live, ServeEnd, ServeWords, Spawner, serve};

/// Eight lanes listen for Bell 202.
pub(super) const EIGHT: Listening = Listening::Bell202 { sensitive: false };

/// All 26 lanes listen.
pub(super) const ALL: Listening = Listening::Bell202 { sensitive: true };

/// The 32 lanes of short wave listen.
pub(super) const SHORT_WAVE: Listening = Listening::ShortWave { sensitive: false };

/// All 59 of short wave listen.
pub(super) const ALL_SHORT_WAVE: Listening = Listening::ShortWave { sensitive: true };

/// Also in blocks, with eight lanes and with all 26.
pub(super) const FX25: Listening = Listening::Fx25 { sensitive: false };

pub(super) const ALL_FX25: Listening = Listening::Fx25 { sensitive: true };

pub(super) fn words(monitor: bool, listening: Listening) -> ServeWords
    ensures window { (window : ℕ) → ¬ IsRefusedWindow result.config.params window }
    ensures dcd { CanBeAskedBy result.listening result.dcd }
{
    ServeWords {
        listen: Listen {
            address: Ipv4Addr::LOCALHOST,
            kiss: Some(8001),
            agw: Some(8000),
        },
        seed: 1,
        config: Config::new(Params::default(), None),
        dcd: dcd(listening),
        monitor,
        stats: None,
        listening,
        rate: Rate::Narrow,
        key: None,
    }
}

/// By what the channel is busy: by tones, or on short wave, and where blocks are read, by three flags in a row.
fn dcd(listening: Listening) -> Detection
    ensures { CanBeAskedBy listening result }
{
    match listening {
        Listening::Bell202 { .. } => Detection::Tones,
        Listening::ShortWave { .. } | Listening::Fx25 { .. } => Detection::Flags(3),
    }
}

/// The numbers of the reads, of the writes and of the reports that fail.
pub(super) type Failing<'a> = [&'a [u64]; 3];

pub(super) const NONE: Failing<'static> = [&[], &[], &[]];

/// What a station writes of an input.
#[derive(Drop)]
pub(super) struct Outcome {
    pub end: ServeEnd,
    pub output: Vec<u8>,
    pub report: Vec<u8>,
}

// No test needs a fact about an outcome, so its value shows none. Each test is then proved faster.
impl Model for Outcome {
    ghost use Rattle.std.specs.Prelude.{⊤};

    ghost Value = { ⊤ };

    ghost view = { λ _. tt };
}

/// The streams of a station.
#[derive(Drop)]
struct Streams {
    source: MemSource,
    output: MemSink,
    report: MemSink,
}

impl Streams {
    fn new(
        alloc: Global,
        input: Vec<u8>,
        [reads, writes, reports]: Failing<'_>,
    ) -> Result<Box<Streams>, OutOfMemory> {
        let streams = Streams {
            source: MemSource::new(input, 4096, reads.to_vec(alloc)?),
            output: MemSink::new(alloc, 300_000, writes.to_vec(alloc)?)?,
            report: MemSink::new(alloc, 1_000_000, reports.to_vec(alloc)?)?,
        };
        Ok(Box::new(alloc, streams)?)
    }

    /// What was written, of a station that ended so.
    fn outcome(&self, alloc: Global, end: ServeEnd) -> Result<Box<Outcome>, OutOfMemory> {
        let outcome = Outcome {
            end,
            output: self.output.written().to_vec(alloc)?,
            report: self.report.written().to_vec(alloc)?,
        };
        Ok(Box::new(alloc, outcome)?)
    }
}

/// A station with a monitor, whose hosts are on these sockets. Eight lanes listen.
pub(super) fn served<R: Threads + Wait + Net + Sync, W: Spawner>(
    rt: &R,
    alloc: Global,
    input: Vec<u8>,
    failing: Failing<'_>,
    live: &mut Live<MemPorts, W, MemKeyPort>,
) -> Result<Box<Outcome>, OutOfMemory> {
    served_by(rt, alloc, EIGHT, input, failing, live)
}

/// The same, but it listens so.
pub(super) fn served_by<R: Threads + Wait + Net + Sync, W: Spawner>(
    rt: &R,
    alloc: Global,
    listening: Listening,
    input: Vec<u8>,
    failing: Failing<'_>,
    live: &mut Live<MemPorts, W, MemKeyPort>,
) -> Result<Box<Outcome>, OutOfMemory> {
    served_as(rt, alloc, words(true, listening), input, failing, live)
}

/// A station that is asked for this.
pub(super) fn served_as<R: Threads + Wait + Net + Sync, W: Spawner>(
    rt: &R,
    alloc: Global,
    words: ServeWords,
    input: Vec<u8>,
    failing: Failing<'_>,
    live: &mut Live<MemPorts, W, MemKeyPort>,
) -> Result<Box<Outcome>, OutOfMemory>
    requires window { (window : ℕ) → ¬ IsRefusedWindow words.config.params window }
    requires dcd { CanBeAskedBy words.listening words.dcd }
{
    let mut streams = Streams::new(alloc, input, failing)?;
    let Streams {
        source,
        output,
        report,
    } = &mut *streams;
    let end = serve(rt, alloc, words, source, output, report, live);
    streams.outcome(alloc, end)
}

/// So many samples of silence.
pub(super) fn silence(alloc: Global, samples: u32) -> Result<Vec<u8>, OutOfMemory> {
    Ok(vec![in alloc; 0; 2 * samples as usize]?)
}
