//! Frames against octets and lines from outside.
use crate::tests::assertions::assert_equal;
use ax25_frames::{
    Frame, FrameFault, Kind, Modulus, is_command, read_frame, text_of, text_of_fault, write_frame,
};
use std::alloc::Global;
use std::process::Abort;
use std::test::Fail;
use tnc_base::Octets;

/// The line that is printed for octets in hexadecimal.
fn shown(alloc: Global, digits: &str, modulus: Modulus) -> Result<String, Fail> {
    let octets = hex::decode(alloc, digits)?;
    Ok(match read_frame(alloc, &octets, modulus) {
        Ok(frame) => text_of(alloc, &frame)?,
        Err(fault) => text_of_fault(alloc, fault)?,
    })
}

/// Asserts the line that is printed for octets in hexadecimal.
fn assert_shown<R: Abort>(
    rt: &R,
    alloc: Global,
    digits: &str,
    modulus: Modulus,
    line: &str,
) -> Result<(), Fail> {
    let text = shown(alloc, digits, modulus)?;
    assert_equal(rt, &(digits, text.as_str()), &(digits, line));
    Ok(())
}

/// Asserts the line of each row, the octets in hexadecimal and the line.
fn assert_rows<R: Abort>(
    rt: &R,
    alloc: Global,
    modulus: Modulus,
    rows: &[(&str, &str)],
) -> Result<(), Fail> {
    for (digits, line) in rows {
        assert_shown(rt, alloc, digits, modulus, line)?;
    }
    Ok(())
}

/// The address of N7LEM to NJ7P as a command, with which the frames below begin.
const ADDRESS: &str = "9c946ea04040e09c6e988a9a4061";

const LINES: &[(&str, &str)] = &[
    ("9c946ea04040e09c6e988a9a40613f", "N7LEM>NJ7P SABM cmd f=1"),
    ("9c946ea04040e09c6e988a9a40617f", "N7LEM>NJ7P SABME cmd f=1"),
    ("9c946ea04040e09c6e988a9a406143", "N7LEM>NJ7P DISC cmd f=0"),
    ("9c946ea04040e09c6e988a9a40611f", "N7LEM>NJ7P DM rsp f=1"),
    ("9c946ea04040e09c6e988a9a406163", "N7LEM>NJ7P UA rsp f=0"),
    (
        "9c946ea04040e09c6e988a9a406187010203",
        "N7LEM>NJ7P FRMR rsp f=0 len=3 010203",
    ),
    (
        "9c946ea04040e09c6e988a9a4061af",
        "N7LEM>NJ7P XID cmd f=0 len=0",
    ),
    (
        "9c946ea04040e09c6e988a9a4061f3aBcD",
        "N7LEM>NJ7P TEST cmd f=1 len=2 abcd",
    ),
    (
        "9c946ea04040e09c6e988a9a406174f06869",
        "N7LEM>NJ7P I cmd ns=2 nr=3 p=1 pid=f0 len=2 6869",
    ),
    (
        "9c946ea04040e09c6e988a9a406100f0",
        "N7LEM>NJ7P I cmd ns=0 nr=0 p=0 pid=f0 len=0",
    ),
    (
        "9c946ea04040e09c6e988a9a406171",
        "N7LEM>NJ7P RR cmd nr=3 f=1",
    ),
    (
        "9c946ea04040e09c6e988a9a4061e5",
        "N7LEM>NJ7P RNR cmd nr=7 f=0",
    ),
    (
        "9c946ea04040e09c6e988a9a406109",
        "N7LEM>NJ7P REJ cmd nr=0 f=0",
    ),
    (
        "9c946ea04040e09c6e988a9a40615d",
        "N7LEM>NJ7P SREJ cmd nr=2 f=1",
    ),
    (
        "9c946ea04040e09c6e988a9a406103f0",
        "N7LEM>NJ7P UI cmd f=0 pid=f0 len=0",
    ),
    (
        "9c946ea04040e09c6e988a9a406113ccff",
        "N7LEM>NJ7P UI cmd f=1 pid=cc len=1 ff",
    ),
];

#[test]
fn lines_of_frames(rt: HostRuntime) -> Result<(), Fail> {
    assert_rows(&rt, rt.alloc(), Modulus::Eight, LINES)
}

const EXTENDED: &[(&str, &str)] = &[
    (
        "9c946ea04040e09c6e988a9a40610407f06869",
        "N7LEM>NJ7P I cmd ns=2 nr=3 p=1 pid=f0 len=2 6869",
    ),
    (
        "9c946ea04040e09c6e988a9a4061fefef0",
        "N7LEM>NJ7P I cmd ns=127 nr=127 p=0 pid=f0 len=0",
    ),
    (
        "9c946ea04040e09c6e988a9a40610dc9",
        "N7LEM>NJ7P SREJ cmd nr=100 f=1",
    ),
    ("9c946ea04040e09c6e988a9a40617f", "N7LEM>NJ7P SABME cmd f=1"),
    ("9c946ea04040e09c6e988a9a406104", "! no control at 15"),
    ("9c946ea04040e09c6e988a9a40610d", "! no control at 15"),
    ("9c946ea04040e09c6e988a9a406111", "! unknown control 11"),
    ("9c946ea04040e09c6e988a9a40610400", "! no pid at 16"),
    ("9c946ea04040e09c6e988a9a4061010000", "! stray info at 16"),
];

#[test]
fn lines_of_extended_frames(rt: HostRuntime) -> Result<(), Fail> {
    assert_rows(&rt, rt.alloc(), Modulus::OneTwentyEight, EXTENDED)
}

/// The last row has eleven addresses.
const FAULTS: &[(&str, &str)] = &[
    ("", "! short at 0"),
    ("9c946ea04040e0", "! short at 7"),
    ("9c946ea04041e0", "! bad character at 5"),
    ("9c946ea0404061", "! one address"),
    ("9c946ea04040e09c6e988a9a4061", "! no control at 14"),
    ("9c946ea04040e09c6e988a9a406103", "! no pid at 15"),
    ("9c946ea04040e09c6e988a9a406100", "! no pid at 15"),
    ("9c946ea04040e09c6e988a9a406107", "! unknown control 07"),
    ("9c946ea04040e09c6e988a9a40613f00", "! stray info at 15"),
    ("9c946ea04040e09c6e988a9a4061010203", "! stray info at 15"),
    (
        "8240404040406082404040404060824040404040608240404040406082404040404060824040404040608240404040406082404040404060824040404040608240404040406082404040404060",
        "! no end",
    ),
];

#[test]
fn lines_of_faults(rt: HostRuntime) -> Result<(), Fail> {
    assert_rows(&rt, rt.alloc(), Modulus::Eight, FAULTS)
}

/// An I frame with so many octets.
fn info(alloc: Global, len: usize) -> Result<Vec<u8>, Fail> {
    let mut octets = hex::decode(alloc, ADDRESS)?;
    octets.extend_from_slice(&[0x00, 0xf0])?;
    for _ in 0..len {
        octets.push(0x41)?;
    }
    Ok(octets)
}

/// Why an I frame with so many octets is not read, if it is not.
fn fault_of_info(alloc: Global, len: usize) -> Result<Option<FrameFault>, Fail> {
    let octets = info(alloc, len)?;
    Ok(read_frame(alloc, &octets, Modulus::Eight).err())
}

#[test]
fn information_of_256_octets_at_most(rt: HostRuntime) -> Result<(), Fail> {
    assert_equal(&rt, &fault_of_info(rt.alloc(), 256)?, &None);
    let long = FrameFault::InfoTooLong { len: 257 };
    assert_equal(&rt, &fault_of_info(rt.alloc(), 257)?, &Some(long));
    Ok(())
}

/// The octets of a UI frame, written; none of another frame.
fn written(alloc: Global, frame: &Frame) -> Result<Octets, Fail> {
    match &frame.kind {
        Kind::Ui { octets, .. } if octets.len() <= 937 => {
            Ok(write_frame(alloc, frame, Modulus::Eight)?)
        }
        _ => Ok(Octets::from_slice(alloc, &[])?),
    }
}

/// Asserts the line of a command of these octets, and that it is written again as it came.
fn assert_recorded<R: Abort>(rt: &R, alloc: Global, octets: &[u8], line: &str) -> Result<(), Fail> {
    let frame = read_frame(alloc, octets, Modulus::Eight)?;
    assert_frame(rt, alloc, &frame, octets, line)
}

fn assert_frame<R: Abort>(
    rt: &R,
    alloc: Global,
    frame: &Frame,
    octets: &[u8],
    line: &str,
) -> Result<(), Fail> {
    assert_line(rt, alloc, frame, line)?;
    let again = written(alloc, frame)?;
    assert_equal(rt, &(is_command(frame), again.as_slice()), &(true, octets));
    Ok(())
}

fn assert_line<R: Abort>(rt: &R, alloc: Global, frame: &Frame, line: &str) -> Result<(), Fail> {
    let text = text_of(alloc, frame)?;
    assert_equal(rt, &text.as_str(), &line);
    Ok(())
}

/// Frames on the air, of the recordings of Dire Wolf and minimodem, and their lines. They are written again as they
/// came.
const RECORDED: &[(&str, &str)] = &[
    (
        "ae84649ea6b4fe98aa72b4b4b4e29c648e9040406103f030303037207365636f6e642e0a",
        "LU9ZZZ-1>WB2OSZ-15,N2GH UI cmd f=0 pid=f0 len=13 30303037207365636f6e642e0a",
    ),
    (
        "948262828282f88c6a82848640e0a8a482868a6e6eae92888a62406303f030303134207374616e64696e672066722e0a",
        "F5ABC>JA1AAA-12,TRACE7-7,WIDE1-1 UI cmd f=0 pid=f0 len=18 30303134207374616e64696e672066722e0a",
    ),
    (
        "9c946ea04040e0ae84649ea6b4fea48a9882b2406103f030303037206e696e65206d6574726573206e696e6520747261666669632e0a",
        "WB2OSZ-15>NJ7P,RELAY UI cmd f=0 pid=f0 len=31 30303037206e696e65206d6574726573206e696e6520747261666669632e0a",
    ),
    (
        "9c6e988a9a40e0889862b0b2b4ef03f0303030322e",
        "DL1XYZ-7>N7LEM UI cmd f=0 pid=f0 len=5 303030322e",
    ),
];

#[test]
fn frames_of_recordings(rt: HostRuntime) -> Result<(), Fail> {
    for (digits, line) in RECORDED {
        let octets = hex::decode(rt.alloc(), digits)?;
        assert_recorded(&rt, rt.alloc(), &octets, line)?;
    }
    Ok(())
}
