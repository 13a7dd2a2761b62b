//! XID from N7LEM to NJ7P, as Dire Wolf sends it, and what a station answers.

use super::script::Sight::{Kinds, Links, Sends};
use super::script::Step::{Forgets, Hears, Registers, SendsAtOnce, Ticks};
use super::script::{Made, Row, each_plays};
use std::test::Fail;

/// SABM with P from N7LEM to NJ7P.
const SABM: &[u8] = b"\x9c\x94\x6e\xa0\x40\x40\xe0\x9c\x6e\x98\x8a\x9a\x40\x61\x3f";

/// XID with P that tells a window of 2, and the same with C bits and F as a response has them.
const XID: &[u8] =
    b"\x9c\x94\x6e\xa0\x40\x40\xe0\x9c\x6e\x98\x8a\x9a\x40\x61\xbf\x82\x80\x00\x03\x08\x01\x02";

const RESPONSE: &[u8] =
    b"\x9c\x94\x6e\xa0\x40\x40\x60\x9c\x6e\x98\x8a\x9a\x40\xe1\xbf\x82\x80\x00\x03\x08\x01\x02";

/// The answers with F from NJ7P to N7LEM: what it can do, and a link modulo 8 with a window of 2.
const WIDEST: &[u8] = b"\x9c\x6e\x98\x8a\x9a\x40\x60\x9c\x94\x6e\xa0\x40\x40\xe1\xbf\
\x82\x80\x00\x17\x02\x02\x21\x00\x03\x03\x86\x88\x02\x06\x02\x08\x00\x08\x01\x20\x09\x02\x07\xd0\x0a\x01\x0a";

const AGREED: &[u8] = b"\x9c\x6e\x98\x8a\x9a\x40\x60\x9c\x94\x6e\xa0\x40\x40\xe1\xbf\
\x82\x80\x00\x17\x02\x02\x21\x00\x03\x03\x82\x84\x02\x06\x02\x08\x00\x08\x01\x02\x09\x02\x07\xd0\x0a\x01\x0a";

/// Longer than such a frame is sent, and shorter than a link waits for an answer.
const LONG: usize = 120;

/// Connection 1 has registered NJ7P.
const REGISTERED: &[Row] = &[(SendsAtOnce, &[]), (Registers(1, "NJ7P"), &[])];

const EXCHANGED: &[&[Row]] = &[
    &[
        (Ticks(LONG), &[]),
        (Forgets, &[]),
        (Hears(XID), &[Sends(LONG, WIDEST), Kinds(b""), Links(0)]),
    ],
    &[
        (Ticks(LONG), &[]),
        (Forgets, &[]),
        (Hears(RESPONSE), &[Sends(LONG, b""), Kinds(b""), Links(0)]),
    ],
    &[
        (Hears(SABM), &[]),
        (Ticks(LONG), &[]),
        (Forgets, &[]),
        (Hears(XID), &[Sends(LONG, AGREED), Kinds(b""), Links(1)]),
    ],
];

#[test]
fn xid_is_answered(rt: HostRuntime) -> Result<(), Fail> {
    each_plays(&rt, rt.alloc(), Made::Digi, &[REGISTERED], EXCHANGED)
}
