//! The command `serve`: a station on the air, until its input ends.
ghost use Rattle.std.specs.Prelude.{◌≡◌, ◌⊎◌, ◌≤◌, ℕ, List, Some, length, option_map};
ghost use Rattle.tnc_base.specs.Faults.{HasRisen};
ghost use Rattle.link_machine.specs.Params.{IsRefusedWindow};
ghost use Rattle.tnc_forms.specs.Reading.{input_limit};
ghost use Rattle.tnc_ports.specs.SampledRun.{Outside, outside_by};
ghost use Rattle.tnc_main.specs.declared.status.Status.{Status};
ghost use Rattle.live_receiver.specs.Listening.{CanBeAskedBy};
ghost use Rattle.tnc_main.specs.Serving.{IsServedInWant, IsToldAs, Serves, detection_of, last_line, status_of_end};
ghost use Rattle.tnc_main.specs.Serving.{channel_of, key_of, listening_of, octets_sent, rate_of, seed_of, sending_of, words_of};
ghost use Rattle.tnc_main.specs.Status.{code_of, IsLiveCode};

use crate::report::{NO_PORT, TOO_LONG, told};
use crate::status::Status;
use channel_access::{CheckOctets as ChannelOctets, Modem, Parameters};
use host_ports::{Listen, Ports};
use key_port::KeyPort;
use keying::Words;
use live_receiver::Listening;
use slicer_bank::Detection;
use sound_rate::Rate;
use station::Config;
use std::alloc::Global;
use std::net::Net;
use std::sync::Wait;
use std::thread::Threads;
use tnc_base::{Sink, Source};
use tnc_ports::{KeyWords, Live, ServeEnd, ServeWords, Spawner};
use tnc_words::{
    ChannelOptions, CheckOctets, Dcd, PttOptions, SampleRate, ServeOptions, StationModem,
};

/// Serves hosts until the input ends, tells how that ended, and answers the exit status. It may wait for the input.
pub(crate) fn serve<
    Rt: Threads + Wait + Net + Sync,
    I: Source + Send,
    O: Sink,
    E: Sink,
    N: Ports,
    W: Spawner,
    K: KeyPort<O>,
>(
    rt: &Rt,
    alloc: Global,
    words: ServeWords,
    input: &mut I,
    output: &mut O,
    report: &mut E,
    live: &mut Live<N, W, K>,
) -> u8
    requires window { (window : ℕ) → ¬ IsRefusedWindow words.config.params window }
    requires dcd { CanBeAskedBy words.listening words.dcd }
    ensures served { (status : Status) × (result ≡ code_of status)
        × Serves words status (I.told input.old) (I.told input.new)
        (outside_by N.told K.told O.told E.told live.old.ports live.old.key output.old report.old)
        (outside_by N.told K.told O.told E.told live.new.ports live.new.key output.new report.new) }

    // each status and its cause
    ensures own { IsLiveCode result }
    ensures faultless { result ≡ 0 → ((I.told input.new).faults ≡ (I.told input.old).faults)
        × ((O.told output.new).faults ≡ (O.told output.old).faults)
        × ((E.told report.new).faults ≡ (E.told report.old).faults) }
    ensures read_fault { result ≡ 4 → HasRisen (I.told input.old).faults (I.told input.new).faults }
    ensures write_fault { result ≡ 5
        → HasRisen (O.told output.old).faults (O.told output.new).faults
        ⊎ HasRisen (E.told report.old).faults (E.told report.new).faults }
    ensures want { result ≡ 3 → IsServedInWant words (W.faults live.old.spawner) (W.faults live.new.spawner)
        (I.told input.old) (I.told input.new)
        (outside_by N.told K.told O.told E.told live.old.ports live.old.key output.old report.old)
        (outside_by N.told K.told O.told E.told live.new.ports live.new.key output.new report.new) }
    ensures no_port { result ≡ 10 → HasRisen (N.told live.old.ports).faults (N.told live.new.ports).faults }
    ensures not_called { result ≤ 10 }
    ensures complete { (octets : List ℕ) → (I.told input.old).left ≡ Some octets → length octets ≤ input_limit
        → ¬ HasRisen (I.told input.old).faults (I.told input.new).faults
        → ¬ HasRisen (O.told output.old).faults (O.told output.new).faults
        → ¬ HasRisen (E.told report.old).faults (E.told report.new).faults
        → ¬ HasRisen (N.told live.old.ports).faults (N.told live.new.ports).faults → (result ≡ 0) ⊎ (result ≡ 3) }
{
    let end = tnc_ports::serve(rt, alloc, words, input, output, report, live);
    tell_end(end, report).code()
}

/// The status of an end, with the line that explains it.
fn tell_end<E: Sink>(end: ServeEnd, report: &mut E) -> Status
    ensures { (between : Outside) → between.report ≡ E.told report.old
        → IsToldAs (last_line end) (status_of_end end) result between
        (record between { report = E.told report.new }) }
{
    match end {
        ServeEnd::Done => Status::Done,
        ServeEnd::TooLong => told(report, TOO_LONG, Status::BadInput),
        ServeEnd::Memory => Status::Memory,
        ServeEnd::NoThread => Status::Memory,
        ServeEnd::ReadFault => Status::ReadFault,
        ServeEnd::WriteFault => Status::WriteFault,
        ServeEnd::NoPort => told(report, NO_PORT, Status::NoPort),
    }
}

/// What a live station is asked for by its options, with a seed of the outside if they name none.
pub(crate) fn serve_words(options: ServeOptions, outer: u64) -> ServeWords
    ensures { result ≡ words_of options outer }
{
    ServeWords {
        listen: Listen {
            address: options.bind,
            kiss: options.kiss,
            agw: options.agw,
        },
        seed: seed(options.seed, outer),
        config: Config {
            params: options.params,
            modem: sending(options.modem),
            channel: parameters(options.channel),
            paclen: options.paclen,
            digi: options.digi,
        },
        dcd: detection(options.dcd),
        monitor: options.monitor,
        stats: options.stats,
        listening: listening(options.modem),
        rate: rate(options.rate),
        key: key_words(options.ptt),
    }
}

/// How the station takes the channel, as the options say it.
fn parameters(channel: ChannelOptions) -> Parameters
    ensures { result ≡ channel_of channel }
{
    Parameters {
        tx_delay: channel.tx_delay,
        persist: channel.persist,
        slot_time: channel.slot_time,
        tx_tail: channel.tx_tail,
        full_duplex: channel.full_duplex,
    }
}

/// The seed that an option names, or that of the outside.
fn seed(named: Option<u64>, outer: u64) -> u64
    ensures { result ≡ seed_of named outer }
{
    match named {
        Some(seed) => seed,
        None => outer,
    }
}

/// How the transmitter is keyed, as the options say it.
fn key_words(ptt: Option<PttOptions>) -> Option<KeyWords>
    ensures { result ≡ option_map key_of ptt }
{
    match ptt {
        None => None,
        Some(ptt) => Some(KeyWords {
            port: ptt.port,
            words: Words {
                tail: ptt.tail,
                data: ptt.data_socket,
            },
        }),
    }
}

/// How a station of a modem listens.
fn listening(modem: StationModem) -> Listening
    ensures { result ≡ listening_of modem }
{
    match modem {
        StationModem::Bell202 { sensitive } => Listening::Bell202 { sensitive },
        StationModem::ShortWave { sensitive } => Listening::ShortWave { sensitive },
        StationModem::Fx25 { sensitive, .. } => Listening::Fx25 { sensitive },
    }
}

/// How many samples a second come and go.
fn rate(rate: SampleRate) -> Rate
    ensures { result ≡ rate_of rate }
{
    match rate {
        SampleRate::Narrow => Rate::Narrow,
        SampleRate::Wide => Rate::Wide,
    }
}

/// By what it sends.
fn sending(modem: StationModem) -> Modem
    ensures { result ≡ sending_of modem }
{
    match modem {
        StationModem::Bell202 { .. } | StationModem::Fx25 { checks: None, .. } => Modem::Bell202,
        StationModem::Fx25 {
            checks: Some(checks),
            ..
        } => Modem::Fx25(octets_sent(checks)),
        StationModem::ShortWave { .. } => Modem::ShortWave,
    }
}

/// The check octets that it sends.
fn octets_sent(checks: CheckOctets) -> ChannelOctets
    ensures { result ≡ octets_sent checks }
{
    match checks {
        CheckOctets::Sixteen => ChannelOctets::Sixteen,
        CheckOctets::ThirtyTwo => ChannelOctets::ThirtyTwo,
        CheckOctets::SixtyFour => ChannelOctets::SixtyFour,
    }
}

/// By what the lanes hear another station, as the options say it.
fn detection(dcd: Dcd) -> Detection
    ensures { result ≡ detection_of dcd }
{
    match dcd {
        Dcd::Tones => Detection::Tones,
        Dcd::Flags(count) => Detection::Flags(count),
    }
}
