//! Frames that no station would send, and what a station makes of them.

use super::desk::Desk;
use super::script::Sight::{Kinds, Links, Sends};
use super::script::Step::{Forgets, Hears, Registers, SendsAtOnce, Ticks};
use super::script::{Made, Row, desk, each_plays};
use crate::assert_equal;
use std::alloc::Global;
use std::test::Fail;

/// SABM with P from N7LEM to NJ7P.
const SABM: &[u8] = b"\x9c\x94\x6e\xa0\x40\x40\xe0\x9c\x6e\x98\x8a\x9a\x40\x61\x3f";

/// UA with F from N7LEM to NJ7P, DM with F, and FRMR.
const UA: &[u8] = b"\x9c\x94\x6e\xa0\x40\x40\x60\x9c\x6e\x98\x8a\x9a\x40\xe1\x73";

const DM: &[u8] = b"\x9c\x94\x6e\xa0\x40\x40\x60\x9c\x6e\x98\x8a\x9a\x40\xe1\x1f";

const FRMR: &[u8] = b"\x9c\x94\x6e\xa0\x40\x40\x60\x9c\x6e\x98\x8a\x9a\x40\xe1\x97\0\0\0";

/// I with P and N(R) = 0 from N7LEM to NJ7P, and I with N(R) = 3.
const INFO: &[u8] = b"\x9c\x94\x6e\xa0\x40\x40\xe0\x9c\x6e\x98\x8a\x9a\x40\x61\x10\xf0";

const INFO_3: &[u8] = b"\x9c\x94\x6e\xa0\x40\x40\xe0\x9c\x6e\x98\x8a\x9a\x40\x61\x60\xf0";

/// DM with F from NJ7P to N7LEM, and SABM with P.
const DM_BACK: &[u8] = b"\x9c\x6e\x98\x8a\x9a\x40\x60\x9c\x94\x6e\xa0\x40\x40\xe1\x1f";

const SABM_BACK: &[u8] = b"\x9c\x6e\x98\x8a\x9a\x40\xe0\x9c\x94\x6e\xa0\x40\x40\x61\x3f";

/// From NJ7P to NJ7P: SABM with P, DISC with P, UA with F, and DM with F.
const SABM_SELF: &[u8] = b"\x9c\x94\x6e\xa0\x40\x40\xe0\x9c\x94\x6e\xa0\x40\x40\x61\x3f";

const DISC_SELF: &[u8] = b"\x9c\x94\x6e\xa0\x40\x40\xe0\x9c\x94\x6e\xa0\x40\x40\x61\x53";

const UA_SELF: &[u8] = b"\x9c\x94\x6e\xa0\x40\x40\x60\x9c\x94\x6e\xa0\x40\x40\xe1\x73";

const DM_SELF: &[u8] = b"\x9c\x94\x6e\xa0\x40\x40\x60\x9c\x94\x6e\xa0\x40\x40\xe1\x1f";

/// SABM with P from N7LEM to NJ7P by way of DIGI and DIGI: neither has repeated it, the first has, and both have.
const VIA_0: &[u8] =
    b"\x9c\x94\x6e\xa0@@\xe0\x9c\x6e\x98\x8a\x9a@\x60\x88\x92\x8e\x92@@\x60\x88\x92\x8e\x92@@\x61\x3f";

const VIA_1: &[u8] =
    b"\x9c\x94\x6e\xa0@@\xe0\x9c\x6e\x98\x8a\x9a@\x60\x88\x92\x8e\x92@@\xe0\x88\x92\x8e\x92@@\x61\x3f";

const VIA_2: &[u8] =
    b"\x9c\x94\x6e\xa0@@\xe0\x9c\x6e\x98\x8a\x9a@\x60\x88\x92\x8e\x92@@\xe0\x88\x92\x8e\x92@@\xe1\x3f";

/// UA with F from NJ7P to N7LEM by way of both.
const UA_VIA: &[u8] =
    b"\x9c\x6e\x98\x8a\x9a@\x60\x9c\x94\x6e\xa0@@\xe0\x88\x92\x8e\x92@@\x60\x88\x92\x8e\x92@@\x61\x73";

impl Desk {
    /// The kinds of the messages to connection 1 since the last look.
    pub(super) fn kinds(&mut self) -> Result<Vec<u8>, Fail> {
        let pieces = self.look().pieces;
        let mut kinds = Vec::new(self.alloc());
        for piece in &pieces {
            if piece.id == 1 {
                kinds.push(piece.octets.as_slice().get(4).copied().unwrap_or(0))?;
            }
        }
        Ok(kinds)
    }

    /// How many links NJ7P has to N7LEM and to itself. A call to either is refused if there is a link.
    pub(super) fn links(&mut self) -> Result<usize, Fail> {
        self.call(1, "NJ7P", "N7LEM")?;
        self.call(1, "NJ7P", "NJ7P")?;
        Ok(self.kinds()?.len())
    }
}

/// Longer than a frame with two repeaters is sent, and shorter than a link waits for an answer.
const LONG: usize = 60;

/// Connection 1 has registered NJ7P.
const REGISTERED: &[Row] = &[(SendsAtOnce, &[]), (Registers(1, "NJ7P"), &[])];

/// Each row: the frame before, if there is one, the frame, what is sent for it, the kinds that the host is told, and the
/// number of links.
const ABSURD: &[&[Row]] = &[
    &[
        (Ticks(LONG), &[]),
        (Forgets, &[]),
        (Hears(INFO), &[Sends(LONG, DM_BACK), Kinds(b""), Links(0)]),
    ],
    &[
        (Ticks(LONG), &[]),
        (Forgets, &[]),
        (Hears(UA), &[Sends(LONG, b""), Kinds(b""), Links(0)]),
    ],
    &[
        (Ticks(LONG), &[]),
        (Forgets, &[]),
        (Hears(DM), &[Sends(LONG, b""), Kinds(b""), Links(0)]),
    ],
    &[
        (Ticks(LONG), &[]),
        (Forgets, &[]),
        (Hears(FRMR), &[Sends(LONG, b""), Kinds(b""), Links(0)]),
    ],
    &[
        (Hears(SABM), &[]),
        (Ticks(LONG), &[]),
        (Forgets, &[]),
        (
            Hears(INFO_3),
            &[Sends(LONG, SABM_BACK), Kinds(b"d"), Links(1)],
        ),
    ],
    &[
        (Ticks(LONG), &[]),
        (Forgets, &[]),
        (
            Hears(SABM_SELF),
            &[Sends(LONG, UA_SELF), Kinds(b"C"), Links(1)],
        ),
    ],
    &[
        (Hears(SABM_SELF), &[]),
        (Ticks(LONG), &[]),
        (Forgets, &[]),
        (Hears(UA_SELF), &[Sends(LONG, b""), Kinds(b""), Links(1)]),
    ],
    &[
        (Ticks(LONG), &[]),
        (Forgets, &[]),
        (
            Hears(DISC_SELF),
            &[Sends(LONG, DM_SELF), Kinds(b""), Links(0)],
        ),
    ],
    &[
        (Ticks(LONG), &[]),
        (Forgets, &[]),
        (Hears(UA_SELF), &[Sends(LONG, b""), Kinds(b""), Links(0)]),
    ],
    &[
        (Ticks(LONG), &[]),
        (Forgets, &[]),
        (Hears(VIA_0), &[Sends(LONG, VIA_1), Kinds(b""), Links(0)]),
    ],
    &[
        (Ticks(LONG), &[]),
        (Forgets, &[]),
        (Hears(VIA_1), &[Sends(LONG, VIA_2), Kinds(b""), Links(0)]),
    ],
    &[
        (Ticks(LONG), &[]),
        (Forgets, &[]),
        (Hears(VIA_2), &[Sends(LONG, UA_VIA), Kinds(b"C"), Links(1)]),
    ],
    &[
        (Hears(SABM), &[]),
        (Ticks(LONG), &[]),
        (Forgets, &[]),
        (Hears(VIA_0), &[Sends(LONG, VIA_1), Kinds(b""), Links(1)]),
    ],
];

#[test]
fn absurd_frames(rt: HostRuntime) -> Result<(), Fail> {
    each_plays(&rt, rt.alloc(), Made::Digi, &[REGISTERED], ABSURD)
}

/// UA with F to NJ7P from X and a number of at most five digits.
fn ua_from(alloc: Global, number: u32) -> Result<Vec<u8>, Fail> {
    let mut octets = b"\x9c\x94\x6e\xa0\x40\x40\x60".to_vec(alloc)?;
    for octet in format!(in alloc; "X{number:<5}")?.as_bytes() {
        octets.push(octet.wrapping_mul(2))?;
    }
    octets.extend_from_slice(b"\xe1\x73")?;
    Ok(octets)
}

/// NJ7P calls 64 stations. Tells how many frames are queued.
fn call_64(desk: &mut Desk) -> Result<usize, Fail> {
    for number in 0..64_u32 {
        let to = format!(in desk.alloc(); "X{number}")?;
        desk.call(1, "NJ7P", &to)?;
    }
    Ok(desk.frames())
}

/// Each of the 64 answers. Tells the kinds that the host is told.
fn answer_64(desk: &mut Desk) -> Result<Vec<u8>, Fail> {
    for number in 0..64_u32 {
        let answer = ua_from(desk.alloc(), number)?;
        desk.hear(&answer)?;
    }
    desk.kinds()
}

/// A station at which connection 1 has registered NJ7P.
fn registered(alloc: Global) -> Result<Box<Desk>, Fail> {
    let mut desk = desk(alloc, Made::Digi)?;
    register(&mut desk)?;
    Ok(desk)
}

fn register(desk: &mut Desk) -> Result<(), Fail> {
    desk.send_at_once()?;
    desk.register(1, "NJ7P")?;
    desk.tick(LONG)?;
    desk.look();
    Ok(())
}

/// How many frames 64 calls and then a heard call bring.
fn frames_of_65(desk: &mut Desk) -> Result<(usize, usize), Fail> {
    let called = call_64(desk)?;
    desk.hear(SABM)?;
    Ok((called, desk.frames()))
}

// The 64 calls are still there when they are answered.
#[test]
fn a_65th_link_is_not_made_for_a_frame(rt: HostRuntime) -> Result<(), Fail> {
    let mut desk = registered(rt.alloc())?;
    assert_equal(&rt, &frames_of_65(&mut desk)?, &(64, 0));
    let told = answer_64(&mut desk)?;
    assert_equal(&rt, &told.as_slice(), &[b'C'; 64].as_slice());
    Ok(())
}
