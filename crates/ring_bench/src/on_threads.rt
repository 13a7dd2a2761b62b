//! The writer and each reader have threads of their own.
ghost use Rattle.std.specs.Prelude.{◌≡◌, All};
ghost use Rattle.std.specs.Thread.{IsSync};
ghost use Rattle.sample_ring.specs.Ends.{ring_id, writer_ring, reader_ring};

use crate::publishing::{CELLS, publish};
use crate::rates::{Rates, Spent};
use sample_ring::{Got, Reader, Ring, Writer};
use std::alloc::{AllocError, Global};
use std::io;
use std::sync::Wait;
use std::thread::{self, Threads};
use std::time::CpuClock;

/// Publishes so many samples as fast as it can, beside readers that read until the end. A read that finds the ring
/// empty, or samples overwritten, counts as any other.
pub fn on_threads<R: Threads + Wait + CpuClock + Sync>(
    rt: &R,
    alloc: Global,
    readers: u8,
    samples: u32,
) -> anyhow::Result<Rates> {
    let (ring, writer, readers) = Ring::new(alloc, CELLS, readers)?;
    let (all, publishes) = thread::join(
        rt,
        || -> Result<Vec<io::Result<Spent>>, AllocError>
            requires { IsSync R.row × All (λ reader. reader_ring reader ≡ ring_id ring) readers.items }
        { read_by_each(rt, &ring, readers) },
        || publish_and_end(rt, &ring, writer, samples),
    );
    let mut reads = Spent::nothing();
    for spent in all? {
        reads.add(spent?);
    }
    Ok(Rates {
        publishes: publishes?,
        reads,
    })
}

fn read_by_each<R: Threads + Wait + CpuClock + Sync>(
    rt: &R,
    ring: &Ring,
    readers: Vec<Reader>,
) -> Result<Vec<io::Result<Spent>>, AllocError>
    requires { All (λ reader. reader_ring reader ≡ ring_id ring.now) readers.items }
{
    thread::map_vec(
        rt,
        readers,
        &|reader: Reader|
            requires { reader_ring reader ≡ ring_id ring.now }
        { read_to_the_end(rt, ring, reader) },
    )
}

fn publish_and_end<R: CpuClock>(
    rt: &R,
    ring: &Ring,
    mut writer: Writer,
    samples: u32,
) -> anyhow::Result<Spent>
    requires { writer_ring writer ≡ ring_id ring.now }
{
    let spent = publish(rt, ring, &mut writer, samples);
    writer.end(ring);
    spent
}

fn read_to_the_end<R: Wait + CpuClock>(rt: &R, ring: &Ring, mut reader: Reader) -> io::Result<Spent>
    requires { reader_ring reader ≡ ring_id ring.now }
{
    let start = rt.thread_cpu_time()?;
    let mut calls = 0u64;
    for _ in rt.forever() {
        calls = calls.saturating_add(1);
        if matches!(reader.read(ring), Got::End { .. }) {
            break;
        }
    }
    Ok(Spent {
        time: rt.thread_cpu_time()?.saturating_sub(start),
        calls,
    })
}
