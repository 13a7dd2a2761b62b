//! What waits for a connection is offered piece by piece.

use super::script::Script;
use crate::assertions::assert_equal;
use host_ports::{MemPorts, Outgoing, offer};
use std::alloc::Global;
use std::net::Net;
use std::test::Fail;
use tnc_base::OutOfMemory;

/// Pieces that wait.
fn waiting_of(alloc: Global, pieces: &[&[u8]]) -> Result<Box<Outgoing>, Fail> {
    let mut waiting = Box::new(alloc, Outgoing::new(alloc)?)?;
    for piece in pieces {
        waiting.append(piece)?;
    }
    Ok(waiting)
}

/// The sends as text: which connection was offered how many octets, and how many it took.
fn sends(alloc: Global, ports: &MemPorts) -> Result<String, OutOfMemory> {
    let mut text = String::new(alloc);
    for send in ports.sends() {
        write!(text, "{}:{}:{} ", send.id, send.offered, send.octets.len())?;
    }
    Ok(text)
}

/// So many offers to connection 7. Answers how often one failed.
fn offers<R: Net>(
    rt: &R,
    alloc: Global,
    ports: &mut MemPorts,
    waiting: &mut Outgoing,
    count: usize,
) -> usize {
    let mut failed: usize = 0;
    for _ in 0..count {
        if offer(rt, alloc, ports, 7, waiting).is_err() {
            failed = failed.saturating_add(1);
        }
    }
    failed
}

/// Pieces of 5, 0, 2 and 4096 octets.
const PIECES: &[&[u8]] = &[b"12345", b"", b"67", &[0; 4096]];

#[test]
fn pieces_are_offered_one_by_one(rt: HostRuntime) -> Result<(), Fail> {
    let alloc = rt.alloc();
    let mut live = Script::new(alloc).taking(3)?;
    let mut waiting = waiting_of(alloc, PIECES)?;
    let failed = offers(&rt, alloc, &mut live.ports, &mut waiting, 4);
    assert_equal(&rt, &failed, &0);
    let want = "7:5:3 7:2:2 7:2:2 7:4096:3 ";
    assert_equal(&rt, &sends(alloc, &live.ports)?.as_str(), &want);
    Ok(())
}

#[test]
fn a_failed_offer_takes_nothing(rt: HostRuntime) -> Result<(), Fail> {
    let alloc = rt.alloc();
    let mut live = Script::new(alloc).failing(&[0])?;
    let mut waiting = waiting_of(alloc, &[b"12345"])?;
    let failed = offers(&rt, alloc, &mut live.ports, &mut waiting, 2);
    assert_equal(&rt, &failed, &1);
    assert_equal(&rt, &sends(alloc, &live.ports)?.as_str(), &"7:5:5 ");
    assert!(rt; waiting.is_empty());
    Ok(())
}

/// How many of so many pieces of 44 octets are appended.
fn appended(waiting: &mut Outgoing, count: usize) -> usize {
    let mut appended: usize = 0;
    for _ in 0..count {
        if waiting.append(&[0; 44]).is_ok() {
            appended = appended.saturating_add(1);
        }
    }
    appended
}

// 5957 pieces of 44 octets fit into 262,144, and one more does not.
#[test]
fn a_piece_that_does_not_fit_is_refused_whole(rt: HostRuntime) -> Result<(), Fail> {
    let mut waiting = Outgoing::new(rt.alloc())?;
    assert_equal(&rt, &appended(&mut waiting, 5958), &5957);
    assert!(rt; waiting.append(&[0; 36]).is_ok() && waiting.append(&[0; 1]).is_err());
    Ok(())
}
