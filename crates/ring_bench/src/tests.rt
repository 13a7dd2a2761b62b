//! How costs are printed, and how many calls are counted.
use crate::assertions::assert_equal;
use crate::in_turns::in_turns;
use crate::on_threads::on_threads;
use crate::rates::{Rates, Spent};
use std::test::Fail;
use std::time::Duration;

#[test]
fn costs_have_one_decimal(rt: HostRuntime) -> Result<(), Fail> {
    let rates = Rates {
        publishes: Spent {
            time: Duration::from_nanos(31),
            calls: 10,
        },
        reads: Spent {
            time: Duration::from_micros(1),
            calls: 13,
        },
    };
    assert_equal(
        &rt,
        &format!(in rt.alloc(); "{rates}")?.as_str(),
        &"3.1 ns a publish, 76.9 ns a read",
    );
    assert_equal(
        &rt,
        &format!(in rt.alloc(); "{}", Spent::nothing())?.as_str(),
        &"0.0 ns",
    );
    Ok(())
}

#[test]
fn each_reader_reads_each_sample_in_turn(rt: HostRuntime) {
    for (readers, samples, reads) in [(1, 1, 1), (1, 10_000, 10_000), (8, 70_000, 560_000)] {
        let Ok(rates) = in_turns(&rt, rt.alloc(), readers, samples) else {
            panic!(rt; "{readers} readers of {samples} samples")
        };
        assert_equal(
            &rt,
            &(readers, rates.publishes.calls, rates.reads.calls),
            &(readers, u64::from(samples), reads),
        );
    }
}

#[test]
fn readers_on_threads_read_to_the_end(rt: HostRuntime) {
    for readers in [1, 8] {
        let Ok(rates) = on_threads(&rt, rt.alloc(), readers, 10_000) else {
            panic!(rt; "{readers} readers")
        };
        assert_equal(&rt, &(readers, rates.publishes.calls), &(readers, 10_000));
        assert!(rt; rates.reads.calls > 10_000 * u64::from(readers));
    }
}
