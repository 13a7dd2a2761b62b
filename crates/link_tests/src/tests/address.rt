//! Calls and paths against values from outside: the examples of AX.25 2.2 and frames on the air.
use crate::tests::assertions::assert_equal;
use arrayvec::ArrayVec;
use ax25_address::{AddrFault, Call, CallFault, Hop, Path, Role, read_path, reversed, write_path};
use std::process::Abort;
use std::test::Fail;

/// Whether the text of a call is this.
fn has_text(call: &Call, text: &str) -> bool {
    call.text().as_str() == text
}

#[test]
fn names_are_calls(rt: HostRuntime) -> Result<(), Fail> {
    for name in ["A", "NJ7P", "ABCDEF", "123456"] {
        let call = Call::new(name, 0)?;
        assert_equal(&rt, &(name, has_text(&call, name)), &(name, true));
    }
    assert_equal(&rt, &Call::default(), &Call::new("A", 0)?);
    Ok(())
}

#[test]
fn names_are_refused(rt: HostRuntime) {
    for &(name, ssid, fault) in &[
        ("", 16, CallFault::Empty),
        ("ABCDEFG", 16, CallFault::TooLong),
        ("AB CD", 16, CallFault::BadChar { index: 2 }),
        ("n7LEM", 0, CallFault::BadChar { index: 0 }),
        ("N7LEM", 16, CallFault::BadSsid),
    ] {
        assert_equal(&rt, &(name, Call::new(name, ssid)), &(name, Err(fault)));
    }
}

#[test]
fn each_ssid_is_read_again(rt: HostRuntime) -> Result<(), Fail> {
    for ssid in 0..16 {
        let call = Call::new("N7LEM", ssid)?;
        assert_equal(&rt, &Call::parse(call.text().as_str()), &Ok(call));
    }
    Ok(())
}

#[test]
fn texts_are_calls(rt: HostRuntime) -> Result<(), Fail> {
    for &(text, again) in &[
        ("n7lem", "N7LEM"),
        ("Relay-0", "RELAY"),
        ("wide2-15", "WIDE2-15"),
        ("A-1", "A-1"),
    ] {
        let call = Call::parse(text)?;
        assert_equal(&rt, &(text, has_text(&call, again)), &(text, true));
    }
    Ok(())
}

#[test]
fn texts_are_refused(rt: HostRuntime) {
    for &(text, fault) in &[
        ("", CallFault::Empty),
        ("-1", CallFault::Empty),
        ("ABCDEFG-16", CallFault::TooLong),
        ("AB C", CallFault::BadChar { index: 2 }),
        ("CALL-16", CallFault::BadSsid),
        ("CALL-01", CallFault::BadSsid),
        ("CALL-", CallFault::BadSsid),
        ("CALL-1-2", CallFault::BadSsid),
        ("CALL-A", CallFault::BadSsid),
    ] {
        assert_equal(&rt, &(text, Call::parse(text)), &(text, Err(fault)));
    }
}

/// N7LEM to NJ7P by way of RELAY, which has not repeated it yet, and control and data.
const BY_RELAY: &[u8] =
    b"\x9c\x94\x6e\xa0\x40\x40\xe0\x9c\x6e\x98\x8a\x9a\x40\x60\xa4\x8a\x98\x82\xb2\x40\x61\x03\xf0\x21";

fn relay() -> Result<Hop, Fail> {
    Ok(Hop {
        call: Call::new("RELAY", 0)?,
        done: false,
    })
}

#[test]
fn a_path_is_read_and_written(rt: HostRuntime) -> Result<(), Fail> {
    let mut repeaters = ArrayVec::new();
    repeaters.push(relay()?);
    let wanted = Path {
        dest: Call::new("NJ7P", 0)?,
        source: Call::new("N7LEM", 0)?,
        repeaters,
        role: Role::Command,
    };
    let (path, len) = read_path(BY_RELAY)?;
    assert_equal(&rt, &(&path, len), &(&wanted, 21));
    assert_equal(&rt, &write_path(&path).as_slice(), &&BY_RELAY[..21]);
    Ok(())
}

fn assert_is_back<R: Abort>(rt: &R, path: &Path, back: &Path) -> Result<(), Fail> {
    let ends = (back.dest, back.source);
    let by = back.repeaters.as_slice();
    let role = back.with_role(Role::Command).role;
    assert_equal(
        rt,
        &(ends, by, role),
        &(
            (path.source, path.dest),
            [relay()?].as_slice(),
            Role::Command,
        ),
    );
    let octets = write_path(back);
    assert_equal(rt, &(octets[6], octets[13]), &(0x60, 0xe0));
    Ok(())
}

#[test]
fn a_path_is_reversed(rt: HostRuntime) -> Result<(), Fail> {
    let (path, _) = read_path(BY_RELAY)?;
    let back = reversed(&path, Role::Response);
    assert_is_back(&rt, &path, &back)
}

/// As many fields of the call `A` as are wanted, the last one with the end bit.
fn fields(count: usize) -> [u8; 84] {
    let mut octets = [0x40; 84];
    for k in 0..12 {
        octets[7 * k] = 0x82;
        octets[7 * k + 6] = if k + 1 == count { 0x61 } else { 0x60 };
    }
    octets
}

#[test]
fn fields_up_to_ten(rt: HostRuntime) -> Result<(), Fail> {
    for count in 2..11 {
        let (path, len) = read_path(&fields(count))?;
        let found = (path.repeaters.len() + 2, len, path.role);
        assert_equal(&rt, &found, &(count, 7 * count, Role::Old(false)));
    }
    assert_equal(&rt, &read_path(&fields(1)), &Err(AddrFault::OneAddress));
    assert_equal(&rt, &read_path(&fields(11)), &Err(AddrFault::NoEnd));
    Ok(())
}

#[test]
fn faults_at_their_places(rt: HostRuntime) {
    for (at, octet, fault) in [
        (0, 0x40, AddrFault::BadChar { at: 0 }),
        (1, 0x83, AddrFault::BadChar { at: 1 }),
        (2, 0x82, AddrFault::BadChar { at: 2 }),
        (7, 0x5a, AddrFault::BadChar { at: 7 }),
        (19, 0xff, AddrFault::BadChar { at: 19 }),
        (6, 0x61, AddrFault::OneAddress),
    ] {
        let mut octets = fields(3);
        octets[at] = octet;
        assert_equal(&rt, &(at, read_path(&octets)), &(at, Err(fault)));
    }
    let two = read_path(&[0x82, 0x41]);
    assert_equal(&rt, &two, &Err(AddrFault::BadChar { at: 1 }));
}

#[test]
fn a_path_is_cut_off(rt: HostRuntime) {
    for at in 0..21 {
        assert_equal(
            &rt,
            &read_path(&fields(3)[..at]),
            &Err(AddrFault::Short { at }),
        );
    }
}
