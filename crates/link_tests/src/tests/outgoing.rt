//! Worked cases of what a sender keeps, by the numbers of AX.25 2.2.
use crate::tests::assertions::assert_equal;
use crate::tests::packets::{is_named, packet};
use selective_reject::{BadNr, InStore, Mode, OutStore, Took};
use std::alloc::Global;
use std::process::Abort;
use std::test::Fail;

/// Puts in a packet of that one octet.
fn put(alloc: Global, store: &mut OutStore, name: u8) -> Result<(), Fail> {
    match store.push(packet(alloc, &[name])?) {
        Ok(()) => Ok(()),
        Err(_) => Err(Fail::new("the store is full")),
    }
}

/// Puts in packets that are named by their places.
fn put_named(alloc: Global, store: &mut OutStore, count: u8) -> Result<(), Fail> {
    for name in 0..count {
        put(alloc, store, name)?;
    }
    Ok(())
}

/// Sends packets modulo 8 in a window of 7, whose numbers are these, and no more.
fn send_all<R: Abort>(rt: &R, store: &mut OutStore, numbers: &[u8]) {
    for number in numbers {
        assert_equal(rt, &store.next(8, 7), &Some(*number));
    }
    assert_equal(rt, &store.next(8, 7), &None);
}

/// Leaves the packets 3 to 9 in an empty store, after 0 to 6 were sent and 0 to 2 acknowledged.
fn acknowledge_3<R: Abort>(rt: &R, alloc: Global, store: &mut OutStore) -> Result<(), Fail> {
    put_named(alloc, store, 10)?;
    send_all(rt, store, &[0, 1, 2, 3, 4, 5, 6]);
    assert_equal(rt, &store.acknowledge(8, 3), &Ok(3));
    Ok(())
}

fn assert_sends_window<R: Abort>(rt: &R, alloc: Global, store: &mut OutStore) -> Result<(), Fail> {
    send_all(rt, store, &[]);
    put_named(alloc, store, 10)?;
    send_all(rt, store, &[0, 1, 2, 3, 4, 5, 6]);
    assert_equal(rt, &store.is_waiting(), &true);
    Ok(())
}

#[test]
fn the_window_is_sent(rt: HostRuntime) -> Result<(), Fail> {
    let mut store = OutStore::new(rt.alloc())?;
    assert_sends_window(&rt, rt.alloc(), &mut store)
}

fn assert_lets_go<R: Abort>(rt: &R, alloc: Global, store: &mut OutStore) -> Result<(), Fail> {
    acknowledge_3(rt, alloc, store)?;
    let below = store.acknowledge(8, 2);
    assert_equal(rt, &below, &Err(BadNr { va: 3, top: 7 }));
    let kept = is_named(store.one(8, 6), 6);
    let gone = (store.one(8, 2).is_none(), store.one(8, 7).is_none());
    assert_equal(rt, &(kept, gone), &(true, (true, true)));
    Ok(())
}

#[test]
fn what_is_acknowledged_goes(rt: HostRuntime) -> Result<(), Fail> {
    let mut store = OutStore::new(rt.alloc())?;
    assert_lets_go(&rt, rt.alloc(), &mut store)
}

fn assert_sends_again<R: Abort>(rt: &R, alloc: Global, store: &mut OutStore) -> Result<(), Fail> {
    acknowledge_3(rt, alloc, store)?;
    store.go_back();
    send_all(rt, store, &[3, 4, 5, 6, 7, 0, 1]);
    store.go_back();
    // All was sent, so it is acknowledged although V(S) stands below.
    assert_equal(rt, &store.acknowledge(8, 2), &Ok(7));
    assert_equal(rt, &(store.len(), store.is_waiting()), &(0, false));
    assert_equal(rt, &store.acknowledge(8, 2), &Ok(0));
    let above = store.acknowledge(8, 3);
    assert_equal(rt, &above, &Err(BadNr { va: 2, top: 2 }));
    Ok(())
}

#[test]
fn what_is_not_acknowledged_is_sent_again(rt: HostRuntime) -> Result<(), Fail> {
    let mut store = OutStore::new(rt.alloc())?;
    assert_sends_again(&rt, rt.alloc(), &mut store)
}

fn assert_counts_from_0<R: Abort>(rt: &R, alloc: Global, store: &mut OutStore) -> Result<(), Fail> {
    put_named(alloc, store, 3)?;
    assert_equal(rt, &(store.next(8, 2), store.sent()), &(Some(0), 1));
    assert_equal(rt, &store.acknowledgement(8, 1), &Ok(1));
    let beyond = store.acknowledgement(8, 2);
    assert_equal(rt, &beyond, &Err(BadNr { va: 0, top: 1 }));
    assert_equal(rt, &is_named(store.packet(2), 2), &true);
    store.restart();
    assert_equal(rt, &(store.sent(), store.len()), &(0, 3));
    Ok(())
}

#[test]
fn a_store_is_read_and_counted_from_0_again(rt: HostRuntime) -> Result<(), Fail> {
    let mut store = OutStore::new(rt.alloc())?;
    assert_counts_from_0(&rt, rt.alloc(), &mut store)
}

/// Puts in packets of one octet.
fn fill(alloc: Global, store: &mut OutStore, count: usize) -> Result<(), Fail> {
    for _ in 0..count {
        put(alloc, store, 1)?;
    }
    Ok(())
}

/// Asserts that an empty store takes 1024 packets and gives back the next, and takes packets once it is cleared.
fn assert_full_at_1024<R: Abort>(rt: &R, alloc: Global, store: &mut OutStore) -> Result<(), Fail> {
    fill(alloc, store, 1024)?;
    let back = store.push(packet(alloc, &[2])?);
    assert!(*rt; matches!(&back, Err(packet) if is_named(Some(packet), 2)));
    assert_equal(rt, &store.len(), &1024);
    store.clear();
    assert_equal(rt, &store.is_empty(), &true);
    put(alloc, store, 3)
}

#[test]
fn a_store_is_full_at_1024_packets(rt: HostRuntime) -> Result<(), Fail> {
    let mut store = OutStore::new(rt.alloc())?;
    assert_full_at_1024(&rt, rt.alloc(), &mut store)
}

/// A packet goes from a store to the other by its number, and is acknowledged.
fn pass<R: Abort>(
    rt: &R,
    alloc: Global,
    sender: &mut OutStore,
    receiver: &mut InStore,
    name: u8,
) -> Result<(), Fail> {
    let (modulus, window) = (receiver.modulus(), receiver.window());
    assert!(*rt; (modulus == 8 && window == 4) || (modulus == 128 && window == 64));
    let number = name % modulus;
    let back = sender.push(packet(alloc, &[name])?);
    assert!(*rt; back.is_ok() && sender.next(modulus, window) == Some(number));
    assert!(*rt; is_named(sender.one(modulus, number), name) && receiver.vr() == number);
    let took = receiver.accept(number, packet(alloc, &[name])?);
    assert!(*rt; took == Took::Next && is_named(receiver.take().as_ref(), name));
    let count = sender.acknowledge(modulus, (number + 1) % modulus);
    assert_equal(rt, &count, &Ok(1));
    Ok(())
}

/// Packets of all names go one after the other.
fn pass_all<R: Abort>(
    rt: &R,
    alloc: Global,
    sender: &mut OutStore,
    receiver: &mut InStore,
) -> Result<(), Fail> {
    for name in 0..=255 {
        pass(rt, alloc, sender, receiver, name)?;
    }
    Ok(())
}

/// Packets go modulo 8, and then modulo 128 from the same store.
fn pass_in_both<R: Abort>(rt: &R, alloc: Global, sender: &mut OutStore) -> Result<(), Fail> {
    for (modulus, window) in [(8, 4), (128, 64)] {
        assert!(*rt; modulus == 8 || modulus == 128);
        let mut receiver = InStore::new(alloc, modulus, window, Mode::Srej)?;
        pass_all(rt, alloc, sender, &mut receiver)?;
        sender.clear();
    }
    Ok(())
}

#[test]
fn numbers_wrap_round_the_modulus(rt: HostRuntime) -> Result<(), Fail> {
    let mut sender = OutStore::new(rt.alloc())?;
    pass_in_both(&rt, rt.alloc(), &mut sender)
}
