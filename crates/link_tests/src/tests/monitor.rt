//! Texts of frames as other programs write them.
use crate::tests::assertions::assert_equal;
use ax25_address::Call;
use ax25_frames::{Frame, Modulus, read_frame};
use frame_monitor::{HeardStation, hear_station, heard_text, monitor_letter, monitor_text};
use std::alloc::Global;
use std::process::Abort;
use std::test::Fail;

fn frame_of(alloc: Global, digits: &str) -> Result<Frame, Fail> {
    let octets = hex::decode(alloc, digits)?;
    Ok(read_frame(alloc, &octets, Modulus::Eight)?)
}

/// Asserts the text of a frame in hexadecimal after so many ticks.
fn assert_text<R: Abort>(
    rt: &R,
    alloc: Global,
    digits: &str,
    ticks: u64,
    want: &str,
) -> Result<(), Fail> {
    let text = text_after(alloc, digits, ticks)?;
    assert_equal(rt, &text.as_slice(), &want.as_bytes());
    Ok(())
}

fn text_after(alloc: Global, digits: &str, ticks: u64) -> Result<Vec<u8>, Fail> {
    let frame = frame_of(alloc, digits)?;
    Ok(monitor_text(alloc, &frame, ticks)?)
}

/// The letters of a frame, heard and sent.
fn letters(alloc: Global, digits: &str) -> Result<(u8, u8), Fail> {
    let frame = frame_of(alloc, digits)?;
    Ok((
        monitor_letter(&frame.kind, false),
        monitor_letter(&frame.kind, true),
    ))
}

/// Each row: the octets of a frame, the ticks before it, the letter, and the text.
const TEXTS: &[(&str, u64, u8, &str)] = &[
    (
        "9c946ea04040e09c6e988a9a406103f068690d",
        0,
        b'U',
        " 1:Fm N7LEM To NJ7P <UI pid=F0 Len=3 P=0 >[00:00:00]\rhi\r\r\0",
    ),
    (
        "9c946ea04040609c6e988a9a406103f0",
        8_640_099,
        b'U',
        " 1:Fm N7LEM To NJ7P <UI pid=F0 Len=0 PF=0 >[00:00:00]\r\0",
    ),
    (
        "9c946ea04040e09c6e988a9a40613f",
        100,
        b'S',
        " 1:Fm N7LEM To NJ7P <SABM P=1 >[00:00:01]\r\0",
    ),
    (
        "9c946ea04040609c6e988a9a40e121",
        8_639_999,
        b'S',
        " 1:Fm N7LEM To NJ7P <RR R1 F=0 >[23:59:59]\r\0",
    ),
    (
        "9c946ea04040e09c6e988a9a406120cf41424344",
        366_100,
        b'I',
        " 1:Fm N7LEM To NJ7P <I S0 R1 pid=0xCF Len=4 P=0 >[01:01:01]\rABCD\r\0",
    ),
    (
        "9c946ea04040609c6e988a9a40e197010203",
        0,
        b'S',
        " 1:Fm N7LEM To NJ7P <FRMR F=1 Len=3 >[00:00:00]\r\x01\x02\x03\r\0",
    ),
];

#[test]
fn texts_of_frames(rt: HostRuntime) -> Result<(), Fail> {
    for (digits, ticks, letter, want) in TEXTS {
        assert_text(&rt, rt.alloc(), digits, *ticks, want)?;
        let letters = letters(rt.alloc(), digits)?;
        assert_equal(&rt, &(*digits, letters), &(*digits, (*letter, b'T')));
    }
    Ok(())
}

/// Each row: the octets of a frame by way of three repeaters A, of which those repeated it that have the flag e0 or e1, and
/// its text.
const REPEATERS: &[(&str, &str)] = &[
    (
        "9c946ea04040e09c6e988a9a406082404040404060824040404040608240404040406103f0",
        " 1:Fm N7LEM To NJ7P Via A,A,A <UI pid=F0 Len=0 P=0 >[00:00:00]\r\0",
    ),
    (
        "9c946ea04040e09c6e988a9a4060824040404040e0824040404040608240404040406103f0",
        " 1:Fm N7LEM To NJ7P Via A*,A,A <UI pid=F0 Len=0 P=0 >[00:00:00]\r\0",
    ),
    (
        "9c946ea04040e09c6e988a9a4060824040404040e0824040404040e08240404040406103f0",
        " 1:Fm N7LEM To NJ7P Via A,A*,A <UI pid=F0 Len=0 P=0 >[00:00:00]\r\0",
    ),
    (
        "9c946ea04040e09c6e988a9a40608240404040406082404040404060824040404040e103f0",
        " 1:Fm N7LEM To NJ7P Via A,A,A* <UI pid=F0 Len=0 P=0 >[00:00:00]\r\0",
    ),
    (
        "9c946ea04040e09c6e988a9a4060824040404040e0824040404040e0824040404040e103f0",
        " 1:Fm N7LEM To NJ7P Via A,A,A* <UI pid=F0 Len=0 P=0 >[00:00:00]\r\0",
    ),
];

#[test]
fn the_last_repeater_has_the_star(rt: HostRuntime) -> Result<(), Fail> {
    for (digits, want) in REPEATERS {
        assert_text(&rt, rt.alloc(), digits, 0, want)?;
    }
    Ok(())
}

/// Each row: a call, when it was heard first and when last, in ticks, and the text of that.
const STATIONS: &[(&str, u64, u64, &str)] = &[
    ("N7LEM", 0, 99, "N7LEM 00:00:00  00:00:00\0"),
    ("NJ7P-15", 6_199, 366_100, "NJ7P-15 00:01:01  01:01:01\0"),
    ("A", 8_640_000, 36_005_999, "A 24:00:00  100:00:59\0"),
];

#[test]
fn texts_of_stations(rt: HostRuntime) -> Result<(), Fail> {
    for (call, first, last, want) in STATIONS {
        let text = station_text(rt.alloc(), call, *first, *last)?;
        assert_equal(&rt, &text.as_slice(), &want.as_bytes());
    }
    Ok(())
}

fn station_text(alloc: Global, call: &str, first: u64, last: u64) -> Result<Vec<u8>, Fail> {
    let station = HeardStation {
        call: Call::parse(call)?,
        first,
        last,
    };
    Ok(heard_text(alloc, &station)?)
}

/// Each row: who is heard, one after another and 100 ticks apart, and the texts of all that are kept.
const HEARINGS: &[(&[&str], &[&str])] = &[
    (&[], &[]),
    (&["A"], &["A 00:00:00  00:00:00\0"]),
    (
        &["A", "B"],
        &["B 00:00:01  00:00:01\0", "A 00:00:00  00:00:00\0"],
    ),
    (
        &["A", "B", "A"],
        &["A 00:00:00  00:00:02\0", "B 00:00:01  00:00:01\0"],
    ),
    (
        &[
            "A", "B", "C", "D", "E", "F", "G", "H", "I", "J", "K", "L", "M", "N", "O", "P", "Q",
            "R", "S", "T", "U", "B", "V", "A",
        ],
        &[
            "A 00:00:23  00:00:23\0",
            "V 00:00:22  00:00:22\0",
            "B 00:00:01  00:00:21\0",
            "U 00:00:20  00:00:20\0",
            "T 00:00:19  00:00:19\0",
            "S 00:00:18  00:00:18\0",
            "R 00:00:17  00:00:17\0",
            "Q 00:00:16  00:00:16\0",
            "P 00:00:15  00:00:15\0",
            "O 00:00:14  00:00:14\0",
            "N 00:00:13  00:00:13\0",
            "M 00:00:12  00:00:12\0",
            "L 00:00:11  00:00:11\0",
            "K 00:00:10  00:00:10\0",
            "J 00:00:09  00:00:09\0",
            "I 00:00:08  00:00:08\0",
            "H 00:00:07  00:00:07\0",
            "G 00:00:06  00:00:06\0",
            "F 00:00:05  00:00:05\0",
            "E 00:00:04  00:00:04\0",
        ],
    ),
];

#[test]
fn the_last_20_stations_are_kept(rt: HostRuntime) -> Result<(), Fail> {
    for (calls, texts) in HEARINGS {
        let got = text_of_all(rt.alloc(), calls)?;
        let want = joined(rt.alloc(), texts)?;
        assert_equal(&rt, &got.as_slice(), &want.as_slice());
    }
    Ok(())
}

/// The texts of the stations that are kept after each of these was heard.
fn text_of_all(alloc: Global, calls: &[&str]) -> Result<Vec<u8>, Fail> {
    let mut heard = Vec::new(alloc);
    let mut ticks = 0_u64;
    for call in calls {
        hear_station(&mut heard, &Call::parse(call)?, ticks)?;
        ticks = ticks.saturating_add(100);
    }
    let mut text = Vec::new(alloc);
    for station in &heard {
        text.extend_from_slice(&heard_text(alloc, station)?)?;
    }
    Ok(text)
}

fn joined(alloc: Global, texts: &[&str]) -> Result<Vec<u8>, Fail> {
    let mut all = Vec::new(alloc);
    for text in texts {
        all.extend_from_slice(text.as_bytes())?;
    }
    Ok(all)
}
