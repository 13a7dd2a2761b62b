//! Check sequences, and frames that are sent and found.
use super::definition::flip;
use super::line::{frame_of, sent};
use crate::tests::assertions::assert_equal;
use crate::tests::shortest_frame::SHORTEST;
use hdlc_framer::{Deframer, Event, fcs, stuff};
use std::alloc::Global;
use std::process::Abort;
use std::test::Fail;
use tnc_base::Octets;

#[test]
fn check_sequences(rt: HostRuntime) {
    let table: [(&[u8], u16); 4] = [
        (b"123456789", 0x906e),
        (SHORTEST, 0xf996),
        (b"", 0),
        (b"A", 0xa3f5),
    ];
    for (octets, wanted) in table {
        assert_equal(&rt, &(octets, fcs(octets)), &(octets, wanted));
    }
}

#[test]
fn shortest_frame(rt: HostRuntime) -> Result<(), Fail> {
    let bits = sent(rt.alloc(), &[SHORTEST], 2, 1)?;
    assert_equal(&rt, &bits.len(), &162);
    let mut deframer = Deframer::new();
    for (at, bit) in bits.iter().enumerate() {
        let wanted = match at {
            7 | 15 => Event::Flag,
            161 => Event::Frame,
            _ => Event::None,
        };
        let event = deframer.push(*bit);
        assert_equal(&rt, &(at, event), &(at, wanted));
        if event == Event::Frame {
            assert_equal(&rt, &deframer.octets(), &SHORTEST.as_slice());
        }
    }
    deframer.reset();
    assert_equal(&rt, &deframer.push(false), &Event::None);
    Ok(())
}

#[test]
fn eight_bits_at_once(rt: HostRuntime) {
    let mut deframer = Deframer::new();
    for bit in [false, true, true, true, true, true, true, false] {
        deframer.push(bit);
    }
    // A flag, an abort and an inserted 0 are not taken.
    for (octet, wanted) in [
        (0x4a, true),
        (0x7e, false),
        (0xff, false),
        (0x1f, false),
        (0x0f, true),
    ] {
        let taken = deframer.push_octet(octet);
        assert_equal(&rt, &(octet, taken), &(octet, wanted));
    }
}

/// How many frames a new deframer finds, and how many of them are this one.
fn found(bits: &[bool], frame: &[u8]) -> (u8, u8) {
    let mut deframer = Deframer::new();
    let mut all = 0_u8;
    let mut alike = 0_u8;
    for bit in bits {
        if deframer.push(*bit) == Event::Frame {
            all = all.saturating_add(1);
            if deframer.octets() == frame {
                alike = alike.saturating_add(1);
            }
        }
    }
    (all, alike)
}

#[test]
fn a_frame_of_15_to_1024_octets_is_found(rt: HostRuntime) -> Result<(), Fail> {
    for (len, times) in [(14, 0), (15, 2), (300, 2), (1024, 2), (1025, 0)] {
        let frame = frame_of(rt.alloc(), len, 7)?;
        let bits = sent(rt.alloc(), &[frame.as_slice(), frame.as_slice()], 1, 1)?;
        let got = found(bits.as_slice(), frame.as_slice());
        assert_equal(&rt, &(len, got), &(len, (times, times)));
    }
    Ok(())
}

#[test]
fn one_bit_changed(rt: HostRuntime) -> Result<(), Fail> {
    let mut bits = sent(rt.alloc(), &[SHORTEST], 1, 1)?;
    assert_equal(&rt, &found(bits.as_slice(), SHORTEST), &(1, 1));
    for at in 0..bits.len() {
        flip(&mut bits, at);
        assert!(rt; found(bits.as_slice(), SHORTEST) != (1, 1), "bit {at}");
        flip(&mut bits, at);
    }
    Ok(())
}

/// `stuff` gives the bits that `sent` gives.
fn compare<R: Abort>(
    rt: &R,
    alloc: Global,
    frames: &[&[u8]],
    opening: u8,
    closing: u8,
) -> Result<(), Fail> {
    let mut octets = Vec::new(alloc);
    for frame in frames {
        octets.push(Octets::from_slice(alloc, frame)?)?;
    }
    let got = stuff(alloc, octets.as_slice(), opening.into(), closing.into())?;
    assert_equal(rt, &got, &sent(alloc, frames, opening, closing)?);
    Ok(())
}

#[test]
fn transmissions_of_one_frame_and_of_three(rt: HostRuntime) -> Result<(), Fail> {
    let longer = frame_of(rt.alloc(), 99, 4)?;
    compare(&rt, rt.alloc(), &[SHORTEST], 2, 1)?;
    let three = [SHORTEST, longer.as_slice(), SHORTEST];
    compare(&rt, rt.alloc(), &three, 1, 4)
}

#[test]
fn a_transmission_of_no_frame_is_flags(rt: HostRuntime) -> Result<(), Fail> {
    let bits = stuff(rt.alloc(), &[], 3, 2)?;
    assert_equal(&rt, &bits.len(), &40);
    Ok(())
}
