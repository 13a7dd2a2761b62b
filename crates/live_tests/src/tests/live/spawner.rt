//! Two jobs, beside each other or one after the other.

use crate::assertions::assert_equal;
use std::sync::Wait;
use std::sync::atomic::{AtomicU64, Ordering};
use std::thread;
use std::thread::Threads;
use tnc_ports::{MemSpawner, Order, RealSpawner, Spawner, beside};

fn both_run<R: Threads + Wait + Sync>(rt: &R, order: Order) -> (u32, u32) {
    let mut first = 0;
    let mut second = 0;
    beside(rt, order, &mut || first = 1, &mut || second = 2);
    (first, second)
}

#[test]
fn both_jobs_run(rt: HostRuntime) {
    for order in [Order::AtOnce, Order::PumpFirst, Order::PumpLast] {
        assert_equal(&rt, &both_run(&rt, order), &(1, 2));
    }
}

#[test]
fn each_has_its_order(rt: HostRuntime) {
    assert_equal(&rt, &MemSpawner::new().order(), &Order::PumpFirst);
    assert_equal(&rt, &RealSpawner::new().order(), &Order::AtOnce);
}

/// How often a job looks whether the other has begun.
const LOOKS: u64 = 10_000_000;

/// Tells that a job has begun, and whether the other one begins before this one ends.
fn meets(mine: &AtomicU64, other: &AtomicU64) -> bool {
    mine.store(1, Ordering::SeqCst);
    for _ in 0..LOOKS {
        if other.load(Ordering::SeqCst) == 1 {
            return true;
        }
        thread::yield_now();
    }
    false
}

/// Whether each of two jobs is under way while the other one is.
fn both_meet<R: Threads + Wait + Sync>(rt: &R) -> (bool, bool) {
    let (one, two) = (AtomicU64::new(0), AtomicU64::new(0));
    let mut first = false;
    let mut second = false;
    beside(
        rt,
        Order::AtOnce,
        &mut || first = meets(&one, &two),
        &mut || second = meets(&two, &one),
    );
    (first, second)
}

#[test]
fn real_jobs_run_at_once(rt: HostRuntime) {
    assert_equal(&rt, &both_meet(&rt), &(true, true));
}
