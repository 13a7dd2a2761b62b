//! Frames whose sending a host wants to be told.

use super::script::Sight::{Pieces, PiecesAre};
use super::script::Step::{Gives, Joins, Leaves, SendsAtOnce, Ticks};
use super::script::{Made, Row, plays};
use station::PortKind;
use std::test::Fail;

/// An unnumbered frame from AAAA to BBBB, by command 12 with the octets c0 and db.
const FIRST: &[u8] =
    b"\xc0\x0c\xdb\xdc\xdb\xdd\x84\x84\x84\x84\x40\x40\x60\x82\x82\x82\x82\x40\x40\x61\x03\xf0\xc0";

/// The same by command 0.
const PLAIN: &[u8] =
    b"\xc0\x00\x84\x84\x84\x84\x40\x40\x60\x82\x82\x82\x82\x40\x40\x61\x03\xf0\xc0";

/// The same with the octets 01 and 02.
const SECOND: &[u8] =
    b"\xc0\x0c\x01\x02\x84\x84\x84\x84\x40\x40\x60\x82\x82\x82\x82\x40\x40\x61\x03\xf0\xc0";

/// The same on port 1, and 14 octets on port 0.
const PASSED_OVER: &[u8] =
    b"\xc0\x1c\x03\x04\x84\x84\x84\x84\x40\x40\x60\x82\x82\x82\x82\x40\x40\x61\x03\xf0\xc0\
\x0c\x05\x06\x84\x84\x84\x84\x40\x40\x60\x82\x82\x82\x82\x40\x40\x61\xc0";

const TOLD: &[Row] = &[
    (Joins(4, PortKind::Kiss), &[]),
    (SendsAtOnce, &[]),
    (Gives(3, FIRST), &[]),
    (Gives(4, PLAIN), &[]),
    (Gives(4, SECOND), &[]),
    (Gives(3, PASSED_OVER), &[Pieces(0)]),
    (
        Ticks(100),
        &[PiecesAre(&[
            (3, b"\xc0\x0c\xdb\xdc\xdb\xdd\xc0"),
            (4, b"\xc0\x0c\x01\x02\xc0"),
        ])],
    ),
];

#[test]
fn a_host_is_told_when_its_frame_has_been_sent(rt: HostRuntime) -> Result<(), Fail> {
    plays(&rt, rt.alloc(), Made::Usual, &[TOLD])
}

const LEFT: &[Row] = &[
    (Joins(4, PortKind::Kiss), &[]),
    (SendsAtOnce, &[]),
    (Gives(4, FIRST), &[]),
    (Leaves(4), &[]),
    (Joins(4, PortKind::Kiss), &[]),
    (Ticks(100), &[Pieces(0)]),
];

#[test]
fn a_host_that_has_left_is_told_nothing(rt: HostRuntime) -> Result<(), Fail> {
    plays(&rt, rt.alloc(), Made::Usual, &[LEFT])
}
