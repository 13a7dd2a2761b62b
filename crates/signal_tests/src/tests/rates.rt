//! A live station's sound at its two rates. A second program computed the samples at 48,000 by the sums over all taps.

use crate::tests::assertions::assert_equal;
use sound_rate::{Incoming, Outgoing, Rate};
use std::alloc::Global;
use std::test::Fail;

/// What comes.
const SOUND: [i16; 23] = [
    -6000, 1000, -5000, 2000, -4000, 3000, -3000, 4000, -2000, 5000, 32767, 32767, 32767, 32767,
    32767, 32767, 2000, -4000, 3000, -3000, 4000, -2000, 5000,
];

/// Each rate, and the modem's samples of it.
const RECEIVED: &[(Rate, &[i16])] = &[
    (Rate::Narrow, &SOUND),
    (Rate::Wide, &[-1170, -3008, 22869, 21505, -2002]),
];

/// The modem's samples of that sound, given one by one.
fn received(alloc: Global, rate: Rate) -> Result<Vec<i16>, Fail> {
    let mut incoming = Incoming::new(rate);
    let mut given = Vec::new(alloc);
    for sample in &SOUND {
        if let Some(settled) = incoming.push(*sample) {
            given.push(settled)?;
        }
    }
    let mut rest = [0; 15];
    let count = incoming.finish(&mut rest);
    given.extend_from_slice(&rest[..count])?;
    Ok(given)
}

#[test]
fn sound_comes_at_either_rate(rt: HostRuntime) -> Result<(), Fail> {
    for (rate, wanted) in RECEIVED {
        let given = received(rt.alloc(), *rate)?;
        assert_equal(&rt, &(*rate, given.as_slice()), &(*rate, *wanted));
    }
    Ok(())
}

/// What the modem makes.
const MADE: [i16; 5] = [1000, -20_000, 32_767, 32_767, 5];

/// Each rate, and what goes out at it.
const WRITTEN: &[(Rate, &[i16])] = &[
    (Rate::Narrow, &MADE),
    (
        Rate::Wide,
        &[
            4, 19, 29, 34, 19, -118, -464, -713, -826, -484, 584, 2344, 3982, 4669, 3389, -207,
            -5652, -12151, -17392, -20032, -18627, -12524, -2818, 9084, 21380,
        ],
    ),
];

// The blocks are of two samples, and then of three.
#[test]
fn sound_goes_out_at_either_rate(rt: HostRuntime) -> Result<(), Fail> {
    for (rate, wanted) in WRITTEN {
        let mut outgoing = Outgoing::new(*rate);
        let mut given = Vec::new(rt.alloc());
        let mut out = [0; 15];
        let count = outgoing.feed(&MADE[..2], &mut out);
        given.extend_from_slice(&out[..count])?;
        let count = outgoing.feed(&MADE[2..], &mut out);
        given.extend_from_slice(&out[..count])?;
        assert_equal(&rt, &(*rate, given.as_slice()), &(*rate, *wanted));
    }
    Ok(())
}
