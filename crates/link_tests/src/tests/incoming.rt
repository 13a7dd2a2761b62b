//! Worked cases of what a receiver keeps, by the numbers of AX.25 2.2.
ghost use Rattle.std.specs.Prelude.{◌≡◌};
ghost use Rattle.selective_reject.specs.Incoming.{IsIncoming};

use crate::tests::assertions::assert_equal;
use crate::tests::packets::{is_named, packet};
use selective_reject::{BadWindow, InStore, Mode, StoreFault, Took, check_window};
use std::alloc::Global;
use std::process::Abort;
use std::test::Fail;

/// A packet that is named by its number comes to a store.
fn give(alloc: Global, store: &mut InStore, ns: u8) -> Result<Took, Fail>
    ensures formed { IsIncoming store.new }
    ensures mode { store.new.mode ≡ store.old.mode }
{
    let modulus = store.modulus();
    Ok(store.accept(ns % modulus, packet(alloc, &[ns])?))
}

/// What becomes of a packet modulo 8 when others have come before it.
fn took(alloc: Global, mode: Mode, window: u8, before: &[u8], ns: u8) -> Result<Took, Fail> {
    let mut store = InStore::new(alloc, 8, window, mode)?;
    for earlier in before {
        give(alloc, &mut store, *earlier)?;
    }
    give(alloc, &mut store, ns)
}

fn verdict(window: u8, good: bool) -> Result<(), BadWindow> {
    if good {
        Ok(())
    } else {
        Err(BadWindow { window })
    }
}

#[test]
fn windows_modulo_8(rt: HostRuntime) {
    for (window, mode, good) in [
        (0, Mode::Rej, false),
        (1, Mode::Rej, true),
        (7, Mode::Rej, true),
        (8, Mode::Rej, false),
        (0, Mode::Srej, false),
        (4, Mode::Srej, true),
        (5, Mode::Srej, false),
        (255, Mode::Srej, false),
    ] {
        let found = (window, mode, check_window(8, window, mode));
        assert_equal(&rt, &found, &(window, mode, verdict(window, good)));
    }
}

#[test]
fn windows_modulo_128(rt: HostRuntime) {
    for (window, mode, good) in [
        (127, Mode::Rej, true),
        (128, Mode::Rej, false),
        (1, Mode::Srej, true),
        (64, Mode::Srej, true),
        (65, Mode::Srej, false),
        (0, Mode::Srej, false),
    ] {
        let found = (window, mode, check_window(128, window, mode));
        assert_equal(&rt, &found, &(window, mode, verdict(window, good)));
    }
}

#[test]
fn a_store_refuses_a_bad_window(rt: HostRuntime) {
    let store = InStore::new(rt.alloc(), 8, 5, Mode::Srej);
    assert!(rt; matches!(store, Err(StoreFault::BadWindow { window: 5 })));
}

/// Each row: the mode, the window, the packets that have come, the number of the next one, and what becomes of it.
const TAKEN: &[(Mode, u8, &[u8], u8, Took)] = &[
    (Mode::Rej, 7, b"", 0, Took::Next),
    (Mode::Rej, 7, b"", 1, Took::NotNext),
    (Mode::Rej, 7, b"", 7, Took::NotNext),
    (Mode::Rej, 7, b"\x00", 0, Took::Again),
    (Mode::Rej, 7, b"\x00", 1, Took::NotNext),
    (Mode::Srej, 4, b"", 0, Took::Next),
    (Mode::Srej, 4, b"", 1, Took::Stored),
    (Mode::Srej, 4, b"", 3, Took::Stored),
    (Mode::Srej, 4, b"", 4, Took::Outside),
    (Mode::Srej, 4, b"", 7, Took::Outside),
    (Mode::Srej, 4, b"\x02", 2, Took::Again),
    (Mode::Srej, 4, b"\x02\x03", 1, Took::Stored),
    (Mode::Srej, 4, b"\x02\x00", 0, Took::Again),
    (Mode::Srej, 1, b"", 0, Took::Next),
    (Mode::Srej, 1, b"", 1, Took::Outside),
];

#[test]
fn a_packet_is_taken_by_its_number(rt: HostRuntime) -> Result<(), Fail> {
    for (mode, window, before, ns, want) in TAKEN {
        let took = took(rt.alloc(), *mode, *window, before, *ns)?;
        assert_equal(&rt, &(*before, *ns, took), &(*before, *ns, *want));
    }
    Ok(())
}

/// Asserts that a store is in its widest window of modulo 128 from N(S) 0 on.
fn assert_is_wide<R: Abort>(rt: &R, store: &InStore) {
    let begun = (store.modulus(), store.window(), store.mode(), store.vr());
    assert_equal(rt, &begun, &(128, 64, Mode::Srej, 0));
}

/// Asserts what a store of modulo 8 takes, then in its widest window of modulo 128, and then modulo 8 by REJ.
fn assert_begins_anew<R: Abort>(rt: &R, alloc: Global, store: &mut InStore) -> Result<(), Fail>
    requires { store.old.modulus ≡ 8 }
{
    let narrow = store.accept(3, packet(alloc, &[3])?);
    store.begin(128, 64, Mode::Srej);
    assert_is_wide(rt, store);
    let within = store.accept(63, packet(alloc, &[63])?);
    store.begin(128, 64, Mode::Srej);
    let beyond = store.accept(64, packet(alloc, &[64])?);
    store.begin(8, 7, Mode::Rej);
    let by_rej = store.accept(3, packet(alloc, &[3])?);
    assert_equal(
        rt,
        &(narrow, within, beyond, by_rej),
        &(Took::Stored, Took::Stored, Took::Outside, Took::NotNext),
    );
    Ok(())
}

#[test]
fn a_store_begins_anew_in_either_modulus(rt: HostRuntime) -> Result<(), Fail> {
    let mut store = InStore::new(rt.alloc(), 8, 4, Mode::Srej)?;
    assert_begins_anew(&rt, rt.alloc(), &mut store)
}

/// Asserts that a store with a window of four asks once for what is missing.
fn assert_asks_once<R: Abort>(rt: &R, alloc: Global, store: &mut InStore) -> Result<(), Fail>
    requires { store.old.mode ≡ Mode.Srej }
{
    assert_equal(rt, &give(alloc, store, 2)?, &Took::Stored);
    assert_equal(rt, &store.ask(2).as_slice(), &[0, 1].as_slice());
    assert_equal(rt, &give(alloc, store, 3)?, &Took::Stored);
    // Those before 3 were asked for or are there, and 4 is not in the window.
    assert_equal(rt, &store.ask(3).as_slice(), &[].as_slice());
    assert_equal(rt, &store.ask(4).as_slice(), &[].as_slice());
    Ok(())
}

#[test]
fn what_is_missing_is_asked_for_once(rt: HostRuntime) -> Result<(), Fail> {
    let mut store = InStore::new(rt.alloc(), 8, 4, Mode::Srej)?;
    assert_asks_once(&rt, rt.alloc(), &mut store)
}

/// Gives packets to a store that has asked for those before 2, and has that one.
fn fill_gap<R: Abort>(rt: &R, alloc: Global, store: &mut InStore) -> Result<(), Fail>
    requires { store.old.mode ≡ Mode.Srej }
{
    give(alloc, store, 2)?;
    store.ask(2);
    for (ns, want) in [(3, Took::Stored), (1, Took::Stored), (0, Took::Next)] {
        let took = give_after_none(alloc, store, ns)?;
        assert_equal(rt, &(ns, took), &(ns, want));
    }
    Ok(())
}

/// What becomes of a packet that comes to a store of which none can be taken.
fn give_after_none(alloc: Global, store: &mut InStore, ns: u8) -> Result<Took, Fail>
    ensures mode { store.new.mode ≡ store.old.mode }
{
    if store.take().is_some() {
        return Err(Fail::new("a packet can be taken"));
    }
    give(alloc, store, ns)
}

/// Asserts that the packets after a gap are taken in order, and that a cleared store counts from 0 again.
fn assert_takes_after_gap<R: Abort>(rt: &R, alloc: Global, store: &mut InStore) -> Result<(), Fail>
    requires { store.old.mode ≡ Mode.Srej }
{
    fill_gap(rt, alloc, store)?;
    for name in 0..4 {
        assert!(*rt; is_named(store.take().as_ref(), name));
    }
    assert!(*rt; store.take().is_none());
    assert_equal(rt, &store.vr(), &4);
    store.clear();
    assert_equal(rt, &store.vr(), &0);
    Ok(())
}

#[test]
fn packets_ahead_of_a_gap_are_taken_after_it(rt: HostRuntime) -> Result<(), Fail> {
    let mut store = InStore::new(rt.alloc(), 8, 4, Mode::Srej)?;
    assert_takes_after_gap(&rt, rt.alloc(), &mut store)
}
