//! A clean signal, in which no candidate is stray, and how far from its true end a frame is heard.

ghost use Rattle.std.specs.Prelude.{◌<◌, ◌^◌, length as count};

use crate::tests::assertions::assert_equal;
use crate::tests::worked_signal::{SHORTEST, transmission as worked};
use afsk_modulator::transmission;
use clean_signal::{TrueEnd, is_sent};
use frame_merge::Candidate;
use slicer_bank::Bank;
use std::alloc::Global;
use std::process::Abort;
use std::test::Fail;
use tnc_base::{Octets, OutOfMemory};

/// True if what is heard with these octets at `end` is one of the frames that end at `ends`.
fn hears(alloc: Global, octets: &[u8], end: u64, ends: &[u64]) -> Result<bool, OutOfMemory> {
    let mut sent = Vec::new(alloc);
    for end in ends {
        sent.push(TrueEnd {
            end: *end,
            octets: Octets::from_slice(alloc, &SHORTEST)?,
        })?;
    }
    let item = Candidate {
        end,
        offset: 0,
        octets: Octets::from_slice(alloc, octets)?,
    };
    Ok(is_sent(&sent, &item))
}

/// Ends the test unless the eight lanes hear three times the frame that is sent, and nothing else.
fn assert_hears_three<R: Abort>(
    rt: &R,
    alloc: Global,
    samples: &[i16],
    sent: &TrueEnd,
) -> Result<(), Fail>
    requires { count samples.now < 2 ^ 32 }
{
    let heard = Bank::new(alloc)?.feed(samples)?;
    assert_equal(rt, &heard.len(), &3);
    let sent = std::slice::from_ref(sent);
    assert!(*rt; heard.iter().all(|item| is_sent(sent, item)));
    Ok(())
}

// 162 bits of eight samples: the frame ends with the last of 1296, and three slicers hear it there or just before.
#[test]
fn the_shortest_frame_is_heard_and_nothing_is_stray(rt: HostRuntime) -> Result<(), Fail> {
    let alloc = rt.alloc();
    let octets = Octets::from_slice(alloc, &SHORTEST)?;
    let samples = transmission(alloc, std::slice::from_ref(&octets), 2, 1)?;
    let worked = worked(&rt, alloc)?;
    assert_equal(&rt, &samples.as_slice(), &worked.as_slice());
    let sent = TrueEnd { end: 1296, octets };
    assert_hears_three(&rt, alloc, &worked, &sent)
}

#[test]
fn a_frame_is_heard_less_than_one_bit_from_its_true_end(rt: HostRuntime) -> Result<(), Fail> {
    let table: [(&[u64], u64, bool); 11] = [
        (&[1296], 1296, true),
        (&[1296], 1289, true),
        (&[1296], 1303, true),
        (&[1296], 1288, false),
        (&[1296], 1304, false),
        (&[1296, 2592], 2599, true),
        (&[1296, 2592], 1303, true),
        (&[1296, 2592], 1944, false),
        (&[], 1296, false),
        (&[u64::MAX], u64::MAX - 7, true),
        (&[u64::MAX], u64::MAX - 8, false),
    ];
    for (ends, end, is) in table {
        let hears = hears(rt.alloc(), &SHORTEST, end, ends)?;
        assert_equal(&rt, &(ends, end, hears), &(ends, end, is));
    }
    Ok(())
}

#[test]
fn other_octets_are_stray(rt: HostRuntime) -> Result<(), Fail> {
    let mut octets = SHORTEST;
    octets[14] = 0x2f;
    assert!(rt; !hears(rt.alloc(), &octets, 1296, &[1296])?);
    assert!(rt; !hears(rt.alloc(), &SHORTEST[..14], 1296, &[1296])?);
    Ok(())
}
