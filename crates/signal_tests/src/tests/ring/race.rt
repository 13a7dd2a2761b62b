//! A race of two threads: one publishes, and the other reads by two readers.
ghost use Rattle.std.specs.Prelude.{◌≡◌, ◌<◌, IfOk};
ghost use Rattle.sample_ring.specs.Ends.{ring_id, writer_ring, reader_ring, done_ring};

use super::published::{publish_to, sample_at};
use crate::tests::assertions::assert_equal;
use sample_ring::{Got, Reader, Ring, RingEnd, RingFault, Writer, WriterDone};
use std::alloc::{AllocError, Global};
use std::test::Fail;
use std::thread::{Threads, join, yield_now};

fn with_two_readers(alloc: Global, len: u32) -> Result<(Ring, Writer, Reader, Reader), RingFault>
    ensures { IfOk result (λ made. (writer_ring made.1 ≡ ring_id made.0) × (reader_ring made.2 ≡ ring_id made.0)
        × (reader_ring made.3 ≡ ring_id made.0)) }
{
    let (ring, writer, mut readers) = Ring::new(alloc, len, 2)?;
    let Some(second) = readers.pop() else {
        return Err(RingFault::Memory);
    };
    let Some(first) = readers.pop() else {
        return Err(RingFault::Memory);
    };
    Ok((ring, writer, first, second))
}

/// A reader, and what it was answered but for `Empty`.
#[derive(Drop)]
struct Watch {
    reader: Reader,
    seen: Vec<Got>,
    over: bool,
}

impl Watch {
    fn step(&mut self, ring: &Ring) -> Result<(), AllocError>
        requires { reader_ring self.old.reader ≡ ring_id ring.now }
        ensures { reader_ring self.new.reader ≡ reader_ring self.old.reader }
    {
        if self.over {
            return Ok(());
        }
        let got = self.reader.read(ring);
        self.over = matches!(got, Got::End { .. });
        if matches!(got, Got::Empty { .. }) {
            yield_now();
            return Ok(());
        }
        self.seen.push(got)?;
        Ok(())
    }
}

/// Gives both readers so many reads each, or as many as they need to reach the end.
fn read_both(
    ring: &Ring,
    mut first: Watch,
    mut second: Watch,
    reads: u32,
) -> Result<(Watch, Watch), AllocError>
    requires first { reader_ring first.reader ≡ ring_id ring.now }
    requires second { reader_ring second.reader ≡ ring_id ring.now }
    ensures { IfOk result (λ both. (reader_ring both.0.reader ≡ ring_id ring.now)
        × (reader_ring both.1.reader ≡ ring_id ring.now)) }
{
    for _ in 0..reads {
        if first.over && second.over {
            break;
        }
        first.step(ring)?;
        second.step(ring)?;
    }
    Ok((first, second))
}

fn publish_all(ring: &Ring, mut writer: Writer, total: u64) -> Result<WriterDone, RingEnd>
    requires { writer_ring writer ≡ ring_id ring.now }
    ensures { IfOk result (λ done. done_ring done ≡ ring_id ring.now) }
{
    publish_to(ring, &mut writer, total)?;
    Ok(writer.end(ring))
}

/// Whether a gap goes forward to the oldest position of a ring that was full, all of whose samples are published.
fn is_gap(from: u64, to: u64, len: u64, total: u64) -> bool
    requires { 0 < len }
{
    from < to && to % len == from.wrapping_add(1) % len && to.saturating_add(len) <= total
}

/// Whether answers are the published list, with its gaps, up to the total.
fn is_published_list(seen: &[Got], len: u64, total: u64) -> bool
    requires { 0 < len }
{
    let mut next = 0;
    for got in seen {
        match *got {
            Got::Item { at, sample } if at == next && sample == sample_at(at) => {
                next = at.wrapping_add(1);
            }
            Got::Gap { from, to } if from == next && is_gap(from, to, len, total) => next = to,
            Got::End { total: told } if told == next => {}
            _ => return false,
        }
    }
    next == total
}

const TOTAL: u64 = 200_000;

/// One thread publishes, and another reads by two readers. When both have returned, each reader takes what is left.
fn race<R: Threads + Sync>(
    rt: &R,
    alloc: Global,
) -> Result<Option<(Vec<Got>, Vec<Got>, u64)>, RingFault> {
    let (ring, writer, first, second) = with_two_readers(alloc, 64)?;
    let first = Watch {
        reader: first,
        seen: Vec::new(alloc),
        over: false,
    };
    let second = Watch {
        reader: second,
        seen: Vec::new(alloc),
        over: false,
    };
    let (done, both) = join(
        rt,
        || -> Result<WriterDone, RingEnd>
            requires { writer_ring writer ≡ ring_id ring }
            ensures { IfOk result (λ done. done_ring done ≡ ring_id ring) }
        { publish_all(&ring, writer, TOTAL) },
        || -> Result<(Watch, Watch), AllocError>
            requires { (reader_ring first.reader ≡ ring_id ring) × (reader_ring second.reader ≡ ring_id ring) }
            ensures { IfOk result (λ both. (reader_ring both.0.reader ≡ ring_id ring)
                × (reader_ring both.1.reader ≡ ring_id ring)) }
        { read_both(&ring, first, second, 1_000_000) },
    );
    let (Ok(done), Ok((first, second))) = (done, both) else {
        return Ok(None);
    };
    let Ok((first, second)) = read_both(&ring, first, second, 1000) else {
        return Ok(None);
    };
    let mut readers = Vec::new(alloc);
    if readers.push(first.reader).is_err() || readers.push(second.reader).is_err() {
        return Ok(None);
    }
    let total = ring.close(done, readers).total();
    Ok(Some((first.seen, second.seen, total)))
}

#[test]
fn two_threads_agree_on_each_sample_and_gap(rt: HostRuntime) -> Result<(), Fail> {
    let Some((first, second, total)) = race(&rt, rt.alloc())? else {
        panic!(rt; "want of memory")
    };
    assert_equal(&rt, &total, &TOTAL);
    assert!(rt;
        is_published_list(first.as_slice(), 64, TOTAL),
        "first reader"
    );
    assert!(rt;
        is_published_list(second.as_slice(), 64, TOTAL),
        "second reader"
    );
    Ok(())
}
