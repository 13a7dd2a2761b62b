//! Calls of hosts, the data that they give to links, and disconnects.

use super::desk::Desk;
use super::script::Sight::{Ended, Frame, Frames, Lens, Nothing, OneFrame, Pid, Refusal};
use super::script::Step::{
    Asks, Calls, Fills, Forgets, Hears, Leaves, Registers, SendsAtOnce, Ticks,
};
use super::script::{Ends, Fields, Made, Row, each_plays, plays};
use crate::assert_equal;
use link_machine::Params;
use std::alloc::Global;
use std::test::Fail;

/// SABM with P from N7LEM to NJ7P.
const SABM: &[u8] = b"\x9c\x94\x6e\xa0\x40\x40\xe0\x9c\x6e\x98\x8a\x9a\x40\x61\x3f";

/// The same by way of WIDE1-1.
const SABM_VIA: &[u8] =
    b"\x9c\x94\x6e\xa0\x40\x40\xe0\x9c\x6e\x98\x8a\x9a\x40\x60\xae\x92\x88\x8a\x62\x40\x63\x3f";

/// UA with F from NJ7P to N7LEM.
const UA: &[u8] = b"\x9c\x6e\x98\x8a\x9a\x40\x60\x9c\x94\x6e\xa0\x40\x40\xe1\x73";

/// DISC with P from N7LEM to NJ7P.
const DISC: &[u8] = b"\x9c\x94\x6e\xa0\x40\x40\xe0\x9c\x6e\x98\x8a\x9a\x40\x61\x53";

/// DM with F = 0 from N7LEM to NJ7P.
const DM: &[u8] = b"\x9c\x94\x6e\xa0\x40\x40\x60\x9c\x6e\x98\x8a\x9a\x40\xe1\x0f";

/// RR with F = 0 from NJ7P to N7LEM, which acknowledges the frames below 4, and those below 0.
const RR_4: &[u8] = b"\x9c\x6e\x98\x8a\x9a\x40\x60\x9c\x94\x6e\xa0\x40\x40\xe1\x81";

const RR_0: &[u8] = b"\x9c\x6e\x98\x8a\x9a\x40\x60\x9c\x94\x6e\xa0\x40\x40\xe1\x01";

const CALL: (u8, u8) = (b'C', 0);

const VIA: (u8, u8) = (b'v', 0);

const DATA: (u8, u8) = (b'D', 0);

const END: (u8, u8) = (b'd', 0);

const ENDS: Ends = ("N7LEM", "NJ7P");

/// What is told of a call from N7LEM to NJ7P that is refused or has ended.
const BACK: Fields = ("NJ7P", "N7LEM", "NJ7P");

/// Connection 1 has registered N7LEM, and connection 2 AAAA.
const REGISTERED: &[Row] = &[
    (Registers(1, "N7LEM"), &[]),
    (Registers(2, "AAAA"), &[]),
    (Forgets, &[]),
];

/// And connection 1 has called NJ7P, and is answered.
const CONNECTED: &[Row] = &[
    (Registers(1, "N7LEM"), &[]),
    (Registers(2, "AAAA"), &[]),
    (Forgets, &[]),
    (SendsAtOnce, &[]),
    (Asks(1, CALL, ENDS, b""), &[OneFrame]),
    (Hears(UA), &[Frames(0)]),
];

/// Each row: how NJ7P is called, and the frame.
const MADE: &[&[Row]] = &[
    &[(Asks(1, CALL, ENDS, b""), &[Frame(SABM)])],
    &[(Asks(1, (b'c', 0xcf), ENDS, b""), &[Frame(SABM)])],
    &[(Asks(1, VIA, ENDS, b"\x01WIDE1-1\0\0\0"), &[Frame(SABM_VIA)])],
    &[(Asks(1, VIA, ENDS, b"\x00behind"), &[Frame(SABM)])],
];

#[test]
fn a_call_is_a_sabm(rt: HostRuntime) -> Result<(), Fail> {
    each_plays(&rt, rt.alloc(), Made::Usual, &[REGISTERED], MADE)
}

/// More than the octets of nine repeaters.
const NINE: &[u8] = &[9; 91];

/// N7LEM has called BBBB.
const CALLED: &[Row] = &[(Calls(1, ("N7LEM", "BBBB")), &[OneFrame])];

/// Each row: who asks and how, the fields, the body, and the fields and the text of the answer.
const REFUSED: &[&[Row]] = &[
    &[(
        Asks(1, CALL, ("", "NJ7P"), b""),
        &[Refusal(1, ("NJ7P", "", "NJ7P"))],
    )],
    &[(
        Asks(1, CALL, ("N7LEM", "a b"), b""),
        &[Refusal(1, ("a b", "N7LEM", "a b"))],
    )],
    &[(
        Asks(1, CALL, ("N7LEM", ""), b""),
        &[Refusal(1, ("", "N7LEM", ""))],
    )],
    &[(
        Asks(1, CALL, ("N7LEM", "ABCDEFGHIJ"), b""),
        &[Refusal(1, ("ABCDEFGHIJ", "N7LEM", "ABCDEFGHIJ"))],
    )],
    &[(
        Asks(1, CALL, ("BBBB", "NJ7P"), b""),
        &[Refusal(1, ("NJ7P", "BBBB", "NJ7P"))],
    )],
    &[(
        Asks(2, CALL, ("n7lem", "nj7p-15"), b""),
        &[Refusal(2, ("NJ7P-15", "N7LEM", "NJ7P-15"))],
    )],
    &[(
        Asks(1, (b'c', 7), ("AAAA", "NJ7P"), b""),
        &[Refusal(1, ("NJ7P", "AAAA", "NJ7P"))],
    )],
    &[(Asks(1, VIA, ENDS, b""), &[Refusal(1, BACK)])],
    &[(Asks(1, VIA, ENDS, NINE), &[Refusal(1, BACK)])],
    &[(
        Asks(1, VIA, ENDS, b"\x02WIDE1-1\0\0\0WIDE2-1\0\0"),
        &[Refusal(1, BACK)],
    )],
    &[(
        Asks(1, VIA, ENDS, b"\x01WIDE 1\0\0\0\0"),
        &[Refusal(1, BACK)],
    )],
    &[(
        Asks(1, CALL, ("N7LEM", "BBBB"), b""),
        &[Refusal(1, ("BBBB", "N7LEM", "BBBB"))],
    )],
];

#[test]
fn a_call_that_is_not_made_is_answered(rt: HostRuntime) -> Result<(), Fail> {
    each_plays(&rt, rt.alloc(), Made::Usual, &[REGISTERED, CALLED], REFUSED)
}

/// N7LEM calls the station of a number. Tells how many pieces and link frames there are so far.
fn call_numbered(desk: &mut Desk, number: u32) -> Result<(usize, usize), Fail> {
    let to = format!(in desk.alloc(); "X{number}")?;
    desk.call(1, "N7LEM", &to)?;
    Ok((desk.out().pieces.len(), desk.out().queued.len()))
}

/// The first of 65 calls after which there are not as many link frames as calls, up to 64, and else refusals.
fn first_other(desk: &mut Desk) -> Result<Option<u32>, Fail> {
    for number in 0..65_u32 {
        let got = call_numbered(desk, number)?;
        let refused = usize::from(number == 64);
        if got != (refused, (number as usize + 1).min(64)) {
            return Ok(Some(number));
        }
    }
    Ok(None)
}

/// A station at which connection 1 has registered N7LEM, and connection 2 AAAA.
fn registered(alloc: Global) -> Result<Box<Desk>, Fail> {
    let mut desk = Desk::new(alloc, Params::default())?;
    register(&mut desk)?;
    Ok(desk)
}

fn register(desk: &mut Desk) -> Result<(), Fail> {
    desk.register(1, "N7LEM")?;
    desk.register(2, "AAAA")?;
    desk.look();
    Ok(())
}

#[test]
fn a_65th_link_is_not_made(rt: HostRuntime) -> Result<(), Fail> {
    let mut desk = registered(rt.alloc())?;
    let other = first_other(&mut desk)?;
    assert_equal(&rt, &other, &None);
    Ok(())
}

/// Each row: how many octets are given, in how many ticks the channel takes them, and how long the frames are. The SABM
/// goes out first, in 13 ticks, and each whole packet in 184. T1 runs out after 200 silent ticks.
const PACKETS: &[&[Row]] = &[
    &[(Fills(1, DATA, ENDS, 0), &[]), (Ticks(200), &[Lens(&[])])],
    &[(Fills(1, DATA, ENDS, 1), &[]), (Ticks(200), &[Lens(&[17])])],
    &[
        (Fills(1, DATA, ENDS, 256), &[]),
        (Ticks(300), &[Lens(&[272])]),
    ],
    &[
        (Fills(1, DATA, ENDS, 257), &[]),
        (Ticks(300), &[Lens(&[272, 17])]),
    ],
    &[
        (Fills(1, DATA, ENDS, 600), &[]),
        (Ticks(500), &[Lens(&[272, 272, 104])]),
    ],
];

#[test]
fn data_goes_in_packets_of_256_octets(rt: HostRuntime) -> Result<(), Fail> {
    each_plays(&rt, rt.alloc(), Made::Usual, &[CONNECTED], PACKETS)
}

/// Each row: how many octets go into a packet, how many are given, in how many ticks the channel takes them, and how long
/// the frames are.
const LENGTHS: &[(u16, &[Row])] = &[
    (
        16,
        &[
            (Fills(1, DATA, ENDS, 40), &[]),
            (Ticks(200), &[Lens(&[32, 32, 24])]),
        ],
    ),
    (
        100,
        &[
            (Fills(1, DATA, ENDS, 200), &[]),
            (Ticks(200), &[Lens(&[116, 116])]),
        ],
    ),
    (
        0,
        &[
            (Fills(1, DATA, ENDS, 3), &[]),
            (Ticks(200), &[Lens(&[17, 17, 17])]),
        ],
    ),
    (
        300,
        &[
            (Fills(1, DATA, ENDS, 257), &[]),
            (Ticks(300), &[Lens(&[272, 17])]),
        ],
    ),
];

#[test]
fn packets_are_as_long_as_the_station_is_made_for(rt: HostRuntime) -> Result<(), Fail> {
    for (paclen, row) in LENGTHS {
        plays(&rt, rt.alloc(), Made::Paclen(*paclen), &[CONNECTED, row])?;
    }
    Ok(())
}

/// 40 packets are given.
const MANY: &[Row] = &[
    (Fills(1, DATA, ENDS, 2560), &[]),
    (Fills(1, DATA, ENDS, 2560), &[]),
    (Fills(1, DATA, ENDS, 2560), &[]),
    (Fills(1, DATA, ENDS, 2560), &[]),
];

/// A window of four goes out in 736 ticks, and is acknowledged, up to frame 4 or to frame 0.
const TO_4: &[Row] = &[
    (Ticks(760), &[Lens(&[272, 272, 272, 272])]),
    (Hears(RR_4), &[]),
];

const TO_0: &[Row] = &[
    (Ticks(760), &[Lens(&[272, 272, 272, 272])]),
    (Hears(RR_0), &[]),
];

const NO_MORE: &[Row] = &[(Ticks(0), &[Frames(0)])];

#[test]
fn a_link_carries_many_packets(rt: HostRuntime) -> Result<(), Fail> {
    let parts = [
        CONNECTED, MANY, TO_4, TO_0, TO_4, TO_0, TO_4, TO_0, TO_4, TO_0, TO_4, TO_0, NO_MORE,
    ];
    plays(&rt, rt.alloc(), Made::Usual, &parts)
}

/// Each row: the kind and the PID of the call, the PID of the data, and that of the frame.
const PIDS: &[&[Row]] = &[
    &[
        (Asks(1, CALL, ENDS, b""), &[OneFrame]),
        (Hears(UA), &[Frames(0)]),
        (Asks(1, (b'D', 0), ENDS, b"A"), &[]),
        (Ticks(20), &[Pid(0xf0)]),
    ],
    &[
        (Asks(1, (b'C', 0xcf), ENDS, b""), &[OneFrame]),
        (Hears(UA), &[Frames(0)]),
        (Asks(1, (b'D', 0), ENDS, b"A"), &[]),
        (Ticks(20), &[Pid(0xf0)]),
    ],
    &[
        (Asks(1, (b'c', 0xcf), ENDS, b""), &[OneFrame]),
        (Hears(UA), &[Frames(0)]),
        (Asks(1, (b'D', 0), ENDS, b"A"), &[]),
        (Ticks(20), &[Pid(0xcf)]),
    ],
    &[
        (Asks(1, (b'c', 0xcf), ENDS, b""), &[OneFrame]),
        (Hears(UA), &[Frames(0)]),
        (Asks(1, (b'D', 0xbb), ENDS, b"A"), &[]),
        (Ticks(20), &[Pid(0xbb)]),
    ],
    &[
        (Asks(1, (b'c', 0), ENDS, b""), &[OneFrame]),
        (Hears(UA), &[Frames(0)]),
        (Asks(1, (b'D', 0), ENDS, b"A"), &[]),
        (Ticks(20), &[Pid(0xf0)]),
    ],
];

/// The channel is taken at once.
const AT_ONCE: &[Row] = &[(SendsAtOnce, &[])];

#[test]
fn data_without_a_pid_has_that_of_the_call(rt: HostRuntime) -> Result<(), Fail> {
    each_plays(&rt, rt.alloc(), Made::Usual, &[REGISTERED, AT_ONCE], PIDS)
}

/// N7LEM has called NJ7P and given data.
const GIVEN: &[Row] = &[
    (Asks(1, CALL, ENDS, b""), &[]),
    (Asks(1, DATA, ENDS, b"A"), &[OneFrame]),
];

/// It takes the call back by a message, or by leaving. An answer to the call then is passed over.
const TAKEN_BACK: &[&[Row]] = &[
    &[
        (Asks(1, END, ENDS, b""), &[Ended(DM, Some(BACK))]),
        (Hears(UA), &[Frames(0)]),
    ],
    &[(Leaves(1), &[Ended(DM, None)]), (Hears(UA), &[Frames(0)])],
];

#[test]
fn a_call_is_taken_back_at_once(rt: HostRuntime) -> Result<(), Fail> {
    each_plays(
        &rt,
        rt.alloc(),
        Made::Usual,
        &[REGISTERED, GIVEN],
        TAKEN_BACK,
    )
}

/// Data waits, and the host disconnects.
const WAITING: &[Row] = &[
    (Fills(1, DATA, ENDS, 600), &[]),
    (Asks(1, END, ENDS, b""), &[Nothing]),
];

/// It disconnects again, or leaves.
const GIVEN_UP: &[&[Row]] = &[
    &[(Leaves(1), &[Frame(DISC)])],
    &[(Asks(1, END, ENDS, b""), &[Frame(DISC)])],
];

#[test]
fn a_second_disconnect_gives_data_up(rt: HostRuntime) -> Result<(), Fail> {
    each_plays(
        &rt,
        rt.alloc(),
        Made::Usual,
        &[CONNECTED, WAITING],
        GIVEN_UP,
    )
}

/// What a stranger gives and ends between two calls gives nothing.
const STRANGERS: &[Row] = &[
    (Asks(2, DATA, ENDS, b"A"), &[]),
    (Asks(2, END, ENDS, b""), &[Nothing]),
    (Asks(1, DATA, ("NJ7P", "N7LEM"), b"A"), &[]),
    (Asks(1, END, ("NJ7P", "N7LEM"), b""), &[Nothing]),
    (Asks(1, DATA, ("N7LEM", "BBBB"), b"A"), &[]),
    (Asks(1, END, ("N7LEM", "BBBB"), b""), &[Nothing]),
    (Asks(1, DATA, ("", "NJ7P"), b"A"), &[]),
    (Asks(1, END, ("", "NJ7P"), b""), &[Nothing]),
    (Asks(1, END, ENDS, b""), &[Frame(DISC)]),
];

#[test]
fn only_the_owner_gives_and_disconnects(rt: HostRuntime) -> Result<(), Fail> {
    plays(&rt, rt.alloc(), Made::Usual, &[CONNECTED, STRANGERS])
}
