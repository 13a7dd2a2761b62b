//! What hosts ask by octets.

use super::desk::Desk;
use super::script::Sight::{Closed, Connections, Lens, Message, Pieces, SendsLen, Tells, Told};
use super::script::Step::{
    Asks, Fills, Forgets, Gives, GivesWholeCall, Hears, Joins, Leaves, Registers, SendsAtOnce,
    Ticks,
};
use super::script::{Ends, Made, Row, each_plays, plays, whole_call};
use crate::assert_equal;
use channel_access::Parameters;
use link_machine::Params;
use station::PortKind;
use std::alloc::Global;
use std::test::Fail;

/// UA with F from BBBB to AAAA.
const UA: &[u8] = b"\x82\x82\x82\x82\x40\x40\x60\x84\x84\x84\x84\x40\x40\xe1\x73";

/// RR from BBBB to AAAA, which acknowledges three frames.
const RR: &[u8] = b"\x82\x82\x82\x82\x40\x40\x60\x84\x84\x84\x84\x40\x40\xe1\x61";

const ENDS: Ends = ("AAAA", "BBBB");

const BACK: Ends = ("BBBB", "AAAA");

const NOBODY: Ends = ("", "");

const END: (u8, u8) = (b'd', 0);

/// AAAA registers and calls BBBB, and gives 600 octets, all in one piece. Data goes out as the channel takes it, after the
/// SABM.
const WHOLE_CALL: &[Row] = &[
    (SendsAtOnce, &[]),
    (GivesWholeCall(1), &[Lens(&[15])]),
    (Hears(UA), &[]),
    (Asks(1, END, ENDS, b""), &[Lens(&[])]),
    (Ticks(500), &[Lens(&[272, 272, 104])]),
    (Hears(RR), &[Lens(&[15])]),
];

#[test]
fn a_whole_call_in_one_piece(rt: HostRuntime) -> Result<(), Fail> {
    plays(&rt, rt.alloc(), Made::Usual, &[WHOLE_CALL])
}

/// The same, and what the host is told of last.
const TOLD: &[Row] = &[
    (SendsAtOnce, &[]),
    (
        GivesWholeCall(1),
        &[Tells(true, b'X', ("AAAA", ""), b"\x01")],
    ),
    (
        Hears(UA),
        &[Tells(true, b'C', BACK, b"*** CONNECTED With Station BBBB\r")],
    ),
    (Asks(1, END, ENDS, b""), &[]),
    (Ticks(500), &[]),
    (Hears(RR), &[]),
    (
        Hears(UA),
        &[Tells(true, b'd', BACK, b"*** DISCONNECTED From Station BBBB\r")],
    ),
];

#[test]
fn tells_how_a_whole_call_goes(rt: HostRuntime) -> Result<(), Fail> {
    plays(&rt, rt.alloc(), Made::Usual, &[TOLD])
}

/// How many link frames and pieces there are after two pieces of a whole call and its answer, and whether three packets
/// wait.
fn counts_after(
    desk: &mut Desk,
    (front, rest): (&[u8], &[u8]),
) -> Result<(usize, usize, bool), Fail> {
    desk.take(1, front)?;
    desk.take(1, rest)?;
    desk.hear(UA)?;
    let (frames, pieces) = (desk.out().queued.len(), desk.out().pieces.len());
    let ends = ["AAAA", "BBBB"];
    desk.ask(1, b'Y', ends, b"")?;
    let waits = desk.tells(b'Y', ends, b"\x03\0\0\0")?;
    Ok((frames, pieces, waits))
}

/// The same of a new station.
fn counts(alloc: Global, pieces: (&[u8], &[u8])) -> Result<(usize, usize, bool), Fail> {
    let mut desk = Desk::new(alloc, Params::default())?;
    counts_after(&mut desk, pieces)
}

#[test]
fn a_whole_call_cut_at_every_octet(rt: HostRuntime) -> Result<(), Fail> {
    let octets = whole_call(rt.alloc())?;
    for cut in 0..octets.len() {
        let got = counts(rt.alloc(), octets.split_at(cut))?;
        assert_equal(&rt, &(cut, got), &(cut, (1, 3, true)));
    }
    Ok(())
}

/// Each row: what connection 1 asks, and the reply.
const REPLIES: &[&[Row]] = &[
    &[(
        Asks(1, (b'R', 0), NOBODY, b""),
        &[Message(b'R', NOBODY, b"\x01\0\0\0\0\0\0\0")],
    )],
    &[(
        Asks(1, (b'G', 0), NOBODY, b""),
        &[Message(b'G', NOBODY, b"1;Port1 sound card;\0")],
    )],
    &[(
        Asks(1, (b'g', 0), NOBODY, b""),
        &[Message(b'g', NOBODY, b"\0\xff\x1e\x02\x3f\x0a\x04\0\x01\0\0\0")],
    )],
    &[(
        Asks(1, (b'y', 0), NOBODY, b""),
        &[Message(b'y', NOBODY, b"\0\0\0\0")],
    )],
];

#[test]
fn tells_of_itself(rt: HostRuntime) -> Result<(), Fail> {
    each_plays(&rt, rt.alloc(), Made::Usual, &[], REPLIES)
}

/// UI from BBBB to AAAA, and from CCCC-1 to AAAA.
const UI: &[u8] = b"\x82\x82\x82\x82\x40\x40\xe0\x84\x84\x84\x84\x40\x40\x61\x03\xf0hi";

const OTHER_UI: &[u8] = b"\x82\x82\x82\x82\x40\x40\xe0\x86\x86\x86\x86\x40\x40\x63\x03\xf0hi";

/// Nobody was heard; then BBBB, then CCCC-1 as well, and BBBB again.
const WHO: &[Row] = &[
    (Asks(1, (b'H', 0), NOBODY, b""), &[Pieces(0)]),
    (Ticks(100), &[]),
    (Hears(UI), &[]),
    (Forgets, &[]),
    (
        Asks(1, (b'H', 0), NOBODY, b""),
        &[Message(b'H', NOBODY, b"BBBB 00:00:01  00:00:01\0")],
    ),
    (Ticks(200), &[]),
    (Hears(OTHER_UI), &[]),
    (Forgets, &[]),
    (Asks(1, (b'H', 0), NOBODY, b""), &[Pieces(2)]),
    (
        Asks(1, (b'H', 0), NOBODY, b""),
        &[Tells(true, b'H', NOBODY, b"BBBB 00:00:01  00:00:01\0")],
    ),
    (Ticks(100), &[]),
    (Hears(UI), &[]),
    (Forgets, &[]),
    (
        Asks(1, (b'H', 0), NOBODY, b""),
        &[Tells(true, b'H', NOBODY, b"CCCC-1 00:00:03  00:00:03\0")],
    ),
];

#[test]
fn tells_who_was_heard_last(rt: HostRuntime) -> Result<(), Fail> {
    plays(&rt, rt.alloc(), Made::Usual, &[WHO])
}

/// KISS sets TXDELAY, the persistence, the slot time and TXTAIL of port 0, and TXDELAY of port 1.
const SETTINGS: &[u8] = b"\xc0\x01\x28\xc0\x02\xff\xc0\x03\x05\xc0\x04\x07\xc0\x11\x63\xc0";

const SET: &[Row] = &[
    (Gives(3, SETTINGS), &[]),
    (
        Asks(1, (b'g', 0), NOBODY, b""),
        &[Message(b'g', NOBODY, b"\0\xff\x28\x07\xff\x05\x04\0\x01\0\0\0")],
    ),
];

#[test]
fn tells_what_kiss_has_set(rt: HostRuntime) -> Result<(), Fail> {
    plays(&rt, rt.alloc(), Made::Usual, &[SET])
}

const MADE: &[Row] = &[(
    Asks(1, (b'g', 0), NOBODY, b""),
    &[Message(b'g', NOBODY, b"\0\xff\x05\x09\xc8\x03\x04\0\x01\0\0\0")],
)];

// The words of the channel stand until KISS sets them.
#[test]
fn tells_what_it_is_made_with(rt: HostRuntime) -> Result<(), Fail> {
    let channel = Parameters {
        tx_delay: 5,
        persist: 200,
        slot_time: 3,
        tx_tail: 9,
        full_duplex: true,
    };
    plays(&rt, rt.alloc(), Made::Channel(channel), &[MADE, SET])
}

const AT_ONCE: &[Row] = &[(SendsAtOnce, &[])];

/// Each row: a kind, how long the body is, and how many octets are sent, which are none or those of one frame.
const SENT: &[&[Row]] = &[
    &[(Fills(1, (b'K', 0), ENDS, 0), &[SendsLen(700, 0)])],
    &[(Fills(1, (b'K', 0), ENDS, 15), &[SendsLen(700, 0)])],
    &[(Fills(1, (b'K', 0), ENDS, 16), &[SendsLen(700, 15)])],
    &[(Fills(1, (b'M', 0), ENDS, 937), &[SendsLen(700, 953)])],
    &[(Fills(1, (b'M', 0), ENDS, 938), &[SendsLen(700, 0)])],
    &[(Fills(1, (b'V', 0), ENDS, 92), &[SendsLen(700, 0)])],
];

#[test]
fn sends_frames_that_fit(rt: HostRuntime) -> Result<(), Fail> {
    each_plays(&rt, rt.alloc(), Made::Usual, &[AT_ONCE], SENT)
}

/// Each row: a body with repeaters before its octets, and how many octets are sent.
const BY_WAY: &[Row] = &[
    (
        Asks(1, (b'V', 0), ENDS, b"\x01WIDE1-1\0\0\0A"),
        &[SendsLen(40, 24)],
    ),
    (
        Asks(1, (b'V', 0), ENDS, b"\x01WIDE1-16\0\0A"),
        &[SendsLen(40, 0)],
    ),
];

#[test]
fn sends_by_way_of_repeaters(rt: HostRuntime) -> Result<(), Fail> {
    plays(&rt, rt.alloc(), Made::Usual, &[AT_ONCE, BY_WAY])
}

/// Each row: who asks, a kind, a call, and the body of the reply to X. Nothing answers x.
const REGISTERED: &[Row] = &[
    (
        Asks(1, (b'X', 0), ("AAAA", ""), b""),
        &[Message(b'X', ("AAAA", ""), b"\x01")],
    ),
    (
        Asks(1, (b'X', 0), ("AAAA", ""), b""),
        &[Message(b'X', ("AAAA", ""), b"\x01")],
    ),
    (
        Asks(2, (b'X', 0), ("AAAA", ""), b""),
        &[Message(b'X', ("AAAA", ""), b"\0")],
    ),
    (Asks(2, (b'x', 0), ("AAAA", ""), b""), &[Told(b"")]),
    (
        Asks(2, (b'X', 0), ("AAAA", ""), b""),
        &[Message(b'X', ("AAAA", ""), b"\0")],
    ),
    (Asks(1, (b'x', 0), ("AAAA", ""), b""), &[Told(b"")]),
    (
        Asks(2, (b'X', 0), ("AAAA", ""), b""),
        &[Message(b'X', ("AAAA", ""), b"\x01")],
    ),
    (
        Asks(1, (b'X', 0), ("A-A", ""), b""),
        &[Message(b'X', ("A-A", ""), b"\0")],
    ),
];

#[test]
fn a_call_is_registered_once(rt: HostRuntime) -> Result<(), Fail> {
    plays(&rt, rt.alloc(), Made::Usual, &[REGISTERED])
}

/// Connections 4 to 65 join.
fn join_many(desk: &mut Desk) -> Result<(), Fail> {
    for id in 4..66 {
        desk.join(id, PortKind::Kiss)?;
    }
    Ok(())
}

#[test]
fn a_65th_connection_is_closed(rt: HostRuntime) -> Result<(), Fail> {
    let mut desk = Desk::new(rt.alloc(), Params::default())?;
    join_many(&mut desk)?;
    let got = (desk.out().closed.as_slice(), desk.count());
    assert_equal(&rt, &got, &([65].as_slice(), 64));
    Ok(())
}

/// A header that tells a body of 4097 octets.
const TOO_LONG: &[Row] = &[(
    Gives(
        1,
        b"\0\0\0\0\0\0\0\0\0\0\0\0\0\0\0\0\0\0\0\0\0\0\0\0\0\0\0\0\x01\x10\0\0\0\0\0\0\0",
    ),
    &[Closed(&[1]), Connections(2)],
)];

#[test]
fn too_long_a_body_closes(rt: HostRuntime) -> Result<(), Fail> {
    plays(&rt, rt.alloc(), Made::Usual, &[TOO_LONG])
}

const BY_KISS: &[Row] = &[(SendsAtOnce, &[]), (Joins(4, PortKind::Kiss), &[])];

/// Each row: the octets of a KISS connection in two pieces, how many octets are sent for them, whether it is closed.
const WEB: &[&[Row]] = &[
    &[
        (Gives(4, b"kiss on\r"), &[]),
        (
            Gives(4, b"\xc0\0ABCDEFGHIJKLMNO\xc0"),
            &[SendsLen(40, 15), Closed(&[])],
        ),
    ],
    &[
        (
            Gives(4, b"POST / HTTP/1.1\r\n\r\n\xc0\0ABCDEFGHIJKLMNO\xc0"),
            &[],
        ),
        (Gives(4, b""), &[SendsLen(40, 0), Closed(&[4])]),
    ],
    &[
        (Gives(4, b"POST"), &[]),
        (
            Gives(4, b" / HTTP/1.1\r\n\r\n\xc0\0ABCDEFGHIJKLMNO\xc0"),
            &[SendsLen(40, 0), Closed(&[4])],
        ),
    ],
    &[
        (Gives(4, b"PRI "), &[]),
        (
            Gives(4, b"\xc0\0ABCDEFGHIJKLMNO\xc0"),
            &[SendsLen(40, 0), Closed(&[4])],
        ),
    ],
    &[
        (Gives(4, b"\x16"), &[]),
        (
            Gives(4, b"\x03\x01\xc0\0ABCDEFGHIJKLMNO\xc0"),
            &[SendsLen(40, 0), Closed(&[4])],
        ),
    ],
    &[
        (Gives(4, b"\xc0\0ABCDEFGHIJKLMNO\xc0"), &[]),
        (
            Gives(4, b"GET / HTTP/1.1\r\n"),
            &[SendsLen(40, 15), Closed(&[])],
        ),
    ],
];

#[test]
fn a_program_of_the_web_sends_nothing(rt: HostRuntime) -> Result<(), Fail> {
    each_plays(&rt, rt.alloc(), Made::Usual, &[BY_KISS], WEB)
}

/// Connection 1 registers AAAA, and leaves in the middle of a message.
const FREE: &[Row] = &[
    (Registers(1, "AAAA"), &[]),
    (Gives(1, b"\0\0\0\0\0\0\0\0\0\0\0\0\0\0\0\0\0\0\0\0"), &[]),
    (Leaves(1), &[]),
    (Forgets, &[]),
    (
        Registers(2, "AAAA"),
        &[Message(b'X', ("AAAA", ""), b"\x01")],
    ),
];

#[test]
fn a_call_is_free_once_its_connection_left(rt: HostRuntime) -> Result<(), Fail> {
    plays(&rt, rt.alloc(), Made::Usual, &[FREE])
}

const RAW: (u8, u8) = (b'k', 0);

/// To how many connections a heard frame is shown, before connection 2 asks for raw frames, or for no more of them.
const SHOWN: &[Row] = &[
    (Hears(UA), &[Pieces(1)]),
    (Asks(2, RAW, NOBODY, b""), &[]),
    (Hears(UA), &[Pieces(2)]),
    (Asks(2, RAW, NOBODY, b""), &[]),
    (Hears(UA), &[Pieces(1)]),
    (Asks(2, RAW, NOBODY, b""), &[]),
];

#[test]
fn shows_raw_frames_until_asked_again(rt: HostRuntime) -> Result<(), Fail> {
    plays(&rt, rt.alloc(), Made::Usual, &[SHOWN])
}

const COUNT: (u8, u8) = (b'Y', 0);

/// Who asks for the packets of which calls, and how many there are.
const COUNTS: &[Row] = &[
    (SendsAtOnce, &[]),
    (GivesWholeCall(1), &[]),
    (Forgets, &[]),
    (
        Asks(1, COUNT, ENDS, b""),
        &[Message(b'Y', ENDS, b"\x03\0\0\0")],
    ),
    (
        Asks(2, COUNT, ENDS, b""),
        &[Message(b'Y', ENDS, b"\x03\0\0\0")],
    ),
    (
        Asks(1, COUNT, BACK, b""),
        &[Message(b'Y', BACK, b"\0\0\0\0")],
    ),
];

#[test]
fn counts_the_packets_of_two_calls(rt: HostRuntime) -> Result<(), Fail> {
    plays(&rt, rt.alloc(), Made::Usual, &[COUNTS])
}
