//! What hosts that monitor the channel are shown.

use super::desk::{Desk, filled};
use super::script::Sight::{Message, Tells};
use super::script::Step::{Asks, Gives, Hears, Ticks};
use super::script::{Ends, Made, Row, plays};
use crate::assert_equal;
use link_machine::Params;
use std::alloc::Global;
use std::process::Abort;
use std::test::Fail;

/// UI from BBBB to AAAA.
const UI: &[u8] = b"\x82\x82\x82\x82\x40\x40\xe0\x84\x84\x84\x84\x40\x40\x61\x03\xf0hi";

const HEARD: &[u8] = b" 1:Fm BBBB To AAAA <UI pid=F0 Len=2 P=0 >[00:00:01]\rhi\r\0";

const SENT: &[u8] = b" 1:Fm AAAA To BBBB <UI pid=F0 Len=2 P=0 >[00:00:00]\rhi\r\0";

/// Connection 2 turns monitoring on, or off again.
const TOGGLED: Row = (Asks(2, (b'm', 0), ("", ""), b""), &[]);

const BACK: Ends = ("BBBB", "AAAA");

/// Whether the frame is shown when it is heard, before connection 2 asks again.
const SHOWN: &[Row] = &[
    (Ticks(100), &[]),
    (Hears(UI), &[Tells(false, b'U', BACK, HEARD)]),
    TOGGLED,
    (Hears(UI), &[Tells(true, b'U', BACK, HEARD)]),
    TOGGLED,
    (Hears(UI), &[Tells(false, b'U', BACK, HEARD)]),
    TOGGLED,
];

#[test]
fn shows_what_is_heard_until_asked_again(rt: HostRuntime) -> Result<(), Fail> {
    plays(&rt, rt.alloc(), Made::Usual, &[SHOWN])
}

/// UI from BBBB to AAAA with so many octets.
fn long_ui(alloc: Global, len: usize) -> Result<Vec<u8>, Fail> {
    let mut octets = Vec::new(alloc);
    octets.extend_from_slice(b"\x82\x82\x82\x82\x40\x40\xe0\x84\x84\x84\x84\x40\x40\x61\x03\xf0")?;
    octets.extend_from_slice(&filled(alloc, 65, len)?)?;
    Ok(octets)
}

/// What is told of it.
fn long_text(alloc: Global, len: usize) -> Result<Vec<u8>, Fail> {
    let line = format!(in alloc; " 1:Fm BBBB To AAAA <UI pid=F0 Len={len} P=0 >[00:00:00]\r")?;
    let mut octets = Vec::new(alloc);
    octets.extend_from_slice(line.as_bytes())?;
    octets.extend_from_slice(&filled(alloc, 65, len)?)?;
    octets.extend_from_slice(b"\r\0")?;
    Ok(octets)
}

/// Such a frame is heard.
fn hear_long(desk: &mut Desk, len: usize) -> Result<(), Fail> {
    let frame = long_ui(desk.alloc(), len)?;
    desk.hear(&frame)
}

/// Whether it is told.
fn tells_long(desk: &mut Desk, len: usize) -> Result<bool, Fail> {
    let want = long_text(desk.alloc(), len)?;
    desk.tells(b'U', ["BBBB", "AAAA"], &want)
}

/// Ends the test unless each frame is shown whole once connection 2 has asked for it.
fn assert_shows_long<R: Abort>(rt: &R, desk: &mut Desk, lens: &[usize]) -> Result<(), Fail> {
    desk.ask(2, b'm', ["", ""], b"")?;
    for len in lens {
        hear_long(desk, *len)?;
        let shown = tells_long(desk, *len)?;
        assert_equal(rt, &(*len, shown), &(*len, true));
    }
    Ok(())
}

// A link's frames have at most 256 octets; others may have up to 937.
#[test]
fn shows_a_long_frame_whole(rt: HostRuntime) -> Result<(), Fail> {
    let mut desk = Desk::new(rt.alloc(), Params::default())?;
    assert_shows_long(&rt, &mut desk, &[256, 257, 300, 937])
}

/// Connection 1 sends a frame, in full duplex with one flag before it.
const SENDS: &[Row] = &[
    TOGGLED,
    (Gives(3, b"\xc0\x01\0\xc0\x05\x01\xc0"), &[]),
    (Asks(1, (b'M', 0), ("AAAA", "BBBB"), b"hi"), &[]),
    (Ticks(40), &[Message(b'T', ("AAAA", "BBBB"), SENT)]),
];

#[test]
fn shows_what_is_sent(rt: HostRuntime) -> Result<(), Fail> {
    plays(&rt, rt.alloc(), Made::Usual, &[SENDS])
}
