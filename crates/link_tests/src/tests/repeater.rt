//! Frames that are repeated in turn and once, by the octets of the field that is set.
use crate::tests::assertions::assert_equal;
use ax25_address::Call;
use digipeater::repeat;
use std::test::Fail;

/// N7LEM to NJ7P by way of two stations RELAY, of which the first has repeated it, and WIDE2-2.
const FRAME: [u8; 38] =
    *b"\x9c\x94\x6e\xa0\x40\x40\xe0\x9c\x6e\x98\x8a\x9a\x40\x60\xa4\x8a\x98\x82\xb2\x40\xe0\
    \xa4\x8a\x98\x82\xb2\x40\x60\xae\x92\x88\x8a\x64\x40\x65\x03\xf0\x21";

// Each row: a station, whether it repeats the frame as the rows before left it, and the octets of the last two fields
// that have the H bit.
#[test]
fn repeats_in_turn(rt: HostRuntime) -> Result<(), Fail> {
    let mut frame = FRAME;
    for (name, ssid, repeats, relay, wide) in [
        ("WIDE2", 2, false, 0x60, 0x65),
        ("RELAY", 0, true, 0xe0, 0x65),
        ("RELAY", 0, false, 0xe0, 0x65),
        ("WIDE2", 1, false, 0xe0, 0x65),
        ("WIDE2", 2, true, 0xe0, 0xe5),
        ("WIDE2", 2, false, 0xe0, 0xe5),
    ] {
        let mut wanted = FRAME;
        wanted[27] = relay;
        wanted[34] = wide;
        let repeated = repeat(&mut frame, &Call::new(name, ssid)?);
        assert_equal(&rt, &(name, repeated, frame), &(name, repeats, wanted));
    }
    Ok(())
}

/// N7LEM to NJ7P by way of RELAY.
const SHORT: [u8; 24] =
    *b"\x9c\x94\x6e\xa0\x40\x40\xe0\x9c\x6e\x98\x8a\x9a\x40\x60\xa4\x8a\x98\x82\xb2\x40\x61\x03\xf0\x21";

#[test]
fn repeats_once(rt: HostRuntime) -> Result<(), Fail> {
    let relay = Call::new("RELAY", 0)?;
    let mut frame = SHORT;
    let mut wanted = SHORT;
    wanted[20] = 0xe1;
    for repeats in [true, false] {
        let repeated = repeat(&mut frame, &relay);
        assert_equal(&rt, &(repeated, frame), &(repeats, wanted));
    }
    Ok(())
}

#[test]
fn repeats_no_broken_path(rt: HostRuntime) -> Result<(), Fail> {
    let mut frame = FRAME;
    assert!(rt; !repeat(&mut frame[..20], &Call::new("RELAY", 0)?));
    Ok(())
}
