//! `serve`.
use super::assert_asked;
use ax25_address::Call;
use link_machine::Params;
use selective_reject::Mode;
use std::alloc::Global;
use std::net::Ipv4Addr;
use std::process::Abort;
use std::test::Fail;
use tnc_words::{
    ChannelOptions, CheckOctets, Command, Dcd, PttOptions, SampleRate, ServeOptions, StationModem,
};

/// The word that is enough.
const LEAST: &str = "serve";

const PARAMS: Params = Params {
    mode: Mode::Rej,
    window: 4,
    wide: false,
    wide_mode: Mode::Srej,
    wide_window: 32,
    t1: 200,
    retries: 10,
};

const CHANNEL: ChannelOptions = ChannelOptions {
    tx_delay: 30,
    tx_tail: 2,
    persist: 63,
    slot_time: 10,
    full_duplex: false,
};

/// What that word alone asks for.
const SERVE: ServeOptions = ServeOptions {
    kiss: Some(8001),
    agw: Some(8000),
    bind: Ipv4Addr::LOCALHOST,
    seed: None,
    params: PARAMS,
    channel: CHANNEL,
    paclen: 256,
    digi: None,
    dcd: Dcd::Tones,
    modem: StationModem::Bell202 { sensitive: false },
    rate: SampleRate::Narrow,
    monitor: false,
    stats: None,
    ptt: None,
};

#[test]
fn serve_takes_what_links_are_made_with(rt: HostRuntime) -> Result<(), Fail> {
    let srej = Params {
        mode: Mode::Srej,
        ..PARAMS
    };
    let rej = Params {
        wide_mode: Mode::Rej,
        ..PARAMS
    };
    let table = [
        ("", PARAMS),
        ("--", PARAMS),
        ("--mode rej", rej),
        ("--mode=srej", srej),
        (
            "--window 7",
            Params {
                window: 7,
                ..PARAMS
            },
        ),
        (
            "--window=001",
            Params {
                window: 1,
                ..PARAMS
            },
        ),
        (
            "--wide",
            Params {
                wide: true,
                ..PARAMS
            },
        ),
        (
            "--wide-window 64",
            Params {
                wide_window: 64,
                ..PARAMS
            },
        ),
        (
            "--mode rej --wide-window 127",
            Params {
                wide_window: 127,
                ..rej
            },
        ),
        (
            "--wide-window=64 --mode srej --wide",
            Params {
                wide: true,
                wide_window: 64,
                ..srej
            },
        ),
        ("--t1 100", Params { t1: 100, ..PARAMS }),
        ("--t1=03000", Params { t1: 3000, ..PARAMS }),
        (
            "--retries 1",
            Params {
                retries: 1,
                ..PARAMS
            },
        ),
        (
            "--retries=20 --t1 300",
            Params {
                t1: 300,
                retries: 20,
                ..PARAMS
            },
        ),
    ];
    for (line, params) in table {
        let want = ServeOptions { params, ..SERVE };
        assert_asked(&rt, rt.alloc(), LEAST, line, Command::Serve(want))?;
    }
    Ok(())
}

#[test]
fn serve_takes_what_its_station_does(rt: HostRuntime) -> Result<(), Fail> {
    let digi = ServeOptions {
        digi: Some(Call::parse("N7LEM-1")?),
        ..SERVE
    };
    let monitor = ServeOptions {
        monitor: true,
        ..SERVE
    };
    let sensitive = ServeOptions {
        modem: StationModem::Bell202 { sensitive: true },
        ..SERVE
    };
    // A station for short wave, with T1 three times as long.
    let hf = ServeOptions {
        params: Params { t1: 600, ..PARAMS },
        dcd: Dcd::Flags(3),
        modem: StationModem::ShortWave { sensitive: false },
        ..SERVE
    };
    let table = [
        (
            "--seed 0",
            ServeOptions {
                seed: Some(0),
                ..SERVE
            },
        ),
        (
            "--seed=18446744073709551615",
            ServeOptions {
                seed: Some(u64::MAX),
                ..SERVE
            },
        ),
        (
            "--paclen 16",
            ServeOptions {
                paclen: 16,
                ..SERVE
            },
        ),
        ("--paclen=0256", SERVE),
        ("--digi N7LEM-1", digi),
        ("--digi=n7lem-1", digi),
        (
            "--dcd 1",
            ServeOptions {
                dcd: Dcd::Flags(1),
                ..SERVE
            },
        ),
        (
            "--dcd=8",
            ServeOptions {
                dcd: Dcd::Flags(8),
                ..SERVE
            },
        ),
        (
            "--dcd 003",
            ServeOptions {
                dcd: Dcd::Flags(3),
                ..SERVE
            },
        ),
        ("--dcd tones", SERVE),
        ("--dcd=tones", SERVE),
        ("--rate 9600", SERVE),
        (
            "--rate=048000 --stats 1",
            ServeOptions {
                rate: SampleRate::Wide,
                stats: Some(1),
                ..SERVE
            },
        ),
        (
            "--stats=086400",
            ServeOptions {
                stats: Some(86_400),
                ..SERVE
            },
        ),
        ("--hf", hf),
        (
            "--t1 200 --hf --dcd=2",
            ServeOptions {
                params: PARAMS,
                dcd: Dcd::Flags(2),
                ..hf
            },
        ),
        ("--sensitive", sensitive),
        ("--monitor", monitor),
        (
            "--monitor --seed 7 --sensitive --dcd 2",
            ServeOptions {
                seed: Some(7),
                dcd: Dcd::Flags(2),
                monitor: true,
                ..sensitive
            },
        ),
    ];
    for (line, want) in table {
        assert_asked(&rt, rt.alloc(), LEAST, line, Command::Serve(want))?;
    }
    Ok(())
}

/// Each row: what stands after `serve`, and the ports of KISS and of AGWPE.
const PORTS: &[(&str, Option<u16>, Option<u16>)] = &[
    ("", Some(8001), Some(8000)),
    ("--kiss 8001 --agw=8000", Some(8001), Some(8000)),
    ("--kiss 1", Some(1), Some(8000)),
    ("--agw=65535", Some(8001), Some(65_535)),
    ("--agw 08010 --kiss 8011", Some(8011), Some(8010)),
    ("--kiss none", None, Some(8000)),
    ("--agw=none", Some(8001), None),
    ("--agw none --kiss=none", None, None),
];

/// Asserts what `serve` asks for with words after it.
fn assert_serve<R: Abort>(
    rt: &R,
    alloc: Global,
    line: &str,
    want: ServeOptions,
) -> Result<(), Fail> {
    assert_asked(rt, alloc, LEAST, line, Command::Serve(want))
}

#[test]
fn serve_takes_how_it_hears_and_sends(rt: HostRuntime) -> Result<(), Fail> {
    let by_flags = ServeOptions {
        dcd: Dcd::Flags(3),
        ..SERVE
    };
    let fx25 = ServeOptions {
        modem: StationModem::Fx25 {
            checks: None,
            sensitive: false,
        },
        ..by_flags
    };
    // A station for short wave, with T1 three times as long.
    let hf = ServeOptions {
        params: Params { t1: 600, ..PARAMS },
        modem: StationModem::ShortWave { sensitive: true },
        ..by_flags
    };
    let table = [
        ("--hf --sensitive", hf),
        ("--fx25 0", fx25),
        (
            "--fx25=64 --sensitive",
            ServeOptions {
                modem: StationModem::Fx25 {
                    checks: Some(CheckOctets::SixtyFour),
                    sensitive: true,
                },
                ..by_flags
            },
        ),
    ];
    for (line, want) in table {
        assert_serve(&rt, rt.alloc(), line, want)?;
    }
    Ok(())
}

#[test]
fn serve_takes_its_ports(rt: HostRuntime) -> Result<(), Fail> {
    for (line, kiss, agw) in PORTS {
        let (kiss, agw) = (*kiss, *agw);
        assert_serve(&rt, rt.alloc(), line, ServeOptions { kiss, agw, ..SERVE })?;
    }
    Ok(())
}

/// Each row: what stands after `serve`, and the address.
const ADDRESSES: &[(&str, [u8; 4])] = &[
    ("--bind 127.0.0.1", [127, 0, 0, 1]),
    ("--bind=0.0.0.0", [0, 0, 0, 0]),
    ("--bind 192.168.1.10", [192, 168, 1, 10]),
    ("--bind=255.255.255.255", [255, 255, 255, 255]),
];

#[test]
fn serve_takes_its_address(rt: HostRuntime) -> Result<(), Fail> {
    for (line, octets) in ADDRESSES {
        let bind = Ipv4Addr::from(*octets);
        assert_serve(&rt, rt.alloc(), line, ServeOptions { bind, ..SERVE })?;
    }
    Ok(())
}

/// Each row: what stands after `serve`, and how the channel is taken.
const CHANNELS: &[(&str, ChannelOptions)] = &[
    (
        "--txdelay 0",
        ChannelOptions {
            tx_delay: 0,
            ..CHANNEL
        },
    ),
    (
        "--txdelay=255",
        ChannelOptions {
            tx_delay: 255,
            ..CHANNEL
        },
    ),
    (
        "--txtail 7",
        ChannelOptions {
            tx_tail: 7,
            ..CHANNEL
        },
    ),
    (
        "--persist 255",
        ChannelOptions {
            persist: 255,
            ..CHANNEL
        },
    ),
    (
        "--slot=001",
        ChannelOptions {
            slot_time: 1,
            ..CHANNEL
        },
    ),
    (
        "--duplex",
        ChannelOptions {
            full_duplex: true,
            ..CHANNEL
        },
    ),
    (
        "--slot 4 --persist 3 --duplex --txtail 2 --txdelay 1",
        ChannelOptions {
            tx_delay: 1,
            tx_tail: 2,
            persist: 3,
            slot_time: 4,
            full_duplex: true,
        },
    ),
];

#[test]
fn serve_takes_how_the_channel_is_taken(rt: HostRuntime) -> Result<(), Fail> {
    for (line, channel) in CHANNELS {
        let channel = *channel;
        assert_serve(&rt, rt.alloc(), line, ServeOptions { channel, ..SERVE })?;
    }
    Ok(())
}

/// A key at port 4532.
const PTT: PttOptions = PttOptions {
    port: 4532,
    tail: 70,
    data_socket: false,
};

/// Each row: what stands after `serve`, and how the transmitter is keyed.
const KEYS: &[(&str, PttOptions)] = &[
    ("--ptt 4532", PTT),
    ("--ptt=04532", PTT),
    ("--ptt 1", PttOptions { port: 1, ..PTT }),
    (
        "--ptt 65535",
        PttOptions {
            port: 65_535,
            ..PTT
        },
    ),
    ("--ptt 4532 --ptt-tail 0", PttOptions { tail: 0, ..PTT }),
    ("--ptt-tail=500 --ptt 4532", PttOptions { tail: 500, ..PTT }),
    (
        "--ptt-data --ptt 4532",
        PttOptions {
            data_socket: true,
            ..PTT
        },
    ),
    (
        "--ptt 4533 --ptt-data --ptt-tail 7",
        PttOptions {
            port: 4533,
            tail: 7,
            data_socket: true,
        },
    ),
];

#[test]
fn serve_takes_how_the_transmitter_is_keyed(rt: HostRuntime) -> Result<(), Fail> {
    for (line, ptt) in KEYS {
        let ptt = Some(*ptt);
        assert_serve(&rt, rt.alloc(), line, ServeOptions { ptt, ..SERVE })?;
    }
    Ok(())
}
