//! Calls that pass from a connection from which nothing comes to another one.

use super::script::Sight::{Closed, Frames, Message, Queued};
use super::script::Step::{Calls, Forgets, Gives, Hears, Registers, SendsAtOnce, Ticks};
use super::script::{Ends, Made, Row, each_plays, plays};
use std::test::Fail;

/// UA with F from NJ7P to N7LEM.
const UA: &[u8] = b"\x9c\x6e\x98\x8a\x9a\x40\x60\x9c\x94\x6e\xa0\x40\x40\xe1\x73";

/// DISC with P from N7LEM to NJ7P.
const DISC: &[u8] = b"\x9c\x94\x6e\xa0\x40\x40\xe0\x9c\x6e\x98\x8a\x9a\x40\x61\x53";

/// The call of each script, as the fields of the reply to X.
const CALL: Ends = ("N7LEM", "");

/// Connection 1 has registered N7LEM.
const REGISTERED: &[Row] = &[(Registers(1, "N7LEM"), &[])];

/// Each row: after how many ticks an octet comes from the connection that has the call, the first of a header, after how
/// many ticks more another connection asks for it, and whether the call passes.
const ROWS: &[&[Row]] = &[
    &[
        (Ticks(0), &[]),
        (Gives(1, b"\0"), &[]),
        (Ticks(5999), &[]),
        (Forgets, &[]),
        (
            Registers(2, "N7LEM"),
            &[Closed(&[]), Message(b'X', CALL, b"\0")],
        ),
    ],
    &[
        (Ticks(0), &[]),
        (Gives(1, b"\0"), &[]),
        (Ticks(6000), &[]),
        (Forgets, &[]),
        (
            Registers(2, "N7LEM"),
            &[Closed(&[1]), Message(b'X', CALL, b"\x01")],
        ),
    ],
    &[
        (Ticks(1), &[]),
        (Gives(1, b"\0"), &[]),
        (Ticks(5999), &[]),
        (Forgets, &[]),
        (
            Registers(2, "N7LEM"),
            &[Closed(&[]), Message(b'X', CALL, b"\0")],
        ),
    ],
    &[
        (Ticks(1), &[]),
        (Gives(1, b"\0"), &[]),
        (Ticks(6000), &[]),
        (Forgets, &[]),
        (
            Registers(2, "N7LEM"),
            &[Closed(&[1]), Message(b'X', CALL, b"\x01")],
        ),
    ],
    &[
        (Ticks(5999), &[]),
        (Gives(1, b"\0"), &[]),
        (Ticks(1), &[]),
        (Forgets, &[]),
        (
            Registers(2, "N7LEM"),
            &[Closed(&[]), Message(b'X', CALL, b"\0")],
        ),
    ],
    &[
        (Ticks(6000), &[]),
        (Gives(1, b"\0"), &[]),
        (Ticks(0), &[]),
        (Forgets, &[]),
        (
            Registers(2, "N7LEM"),
            &[Closed(&[]), Message(b'X', CALL, b"\0")],
        ),
    ],
];

#[test]
fn a_call_passes_after_a_minute(rt: HostRuntime) -> Result<(), Fail> {
    each_plays(&rt, rt.alloc(), Made::Usual, &[REGISTERED], ROWS)
}

/// Connection 1 has a link from N7LEM to NJ7P, and the call passes to connection 2.
const LINKED: &[Row] = &[
    (SendsAtOnce, &[]),
    (Registers(1, "N7LEM"), &[]),
    (Calls(1, ("N7LEM", "NJ7P")), &[]),
    (Hears(UA), &[]),
    (Ticks(6000), &[]),
    (Forgets, &[]),
    (Registers(2, "N7LEM"), &[Closed(&[1]), Queued(DISC)]),
    (Calls(2, ("N7LEM", "AAAA")), &[Frames(1)]),
];

#[test]
fn the_links_of_a_call_that_passes_disconnect(rt: HostRuntime) -> Result<(), Fail> {
    plays(&rt, rt.alloc(), Made::Usual, &[LINKED])
}
