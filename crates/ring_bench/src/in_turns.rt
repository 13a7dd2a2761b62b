//! One thread publishes and reads in turns, a block at a time.
ghost use Rattle.std.specs.Prelude.{◌≡◌, All};
ghost use Rattle.sample_ring.specs.Ends.{ring_id, writer_ring, reader_ring};

use crate::publishing::{CELLS, publish};
use crate::rates::{Rates, Spent};
use anyhow::ensure;
use sample_ring::{Got, Reader, Ring, Writer};
use std::alloc::Global;
use std::time::CpuClock;

/// The samples that are published between two turns of the readers.
const BLOCK: u32 = 4096;

/// Publishes so many samples, each of which each reader reads.
pub fn in_turns<R: CpuClock>(
    rt: &R,
    alloc: Global,
    readers: u8,
    samples: u32,
) -> anyhow::Result<Rates> {
    let (ring, mut writer, mut readers) = Ring::new(alloc, CELLS, readers)?;
    take_turns(rt, &ring, &mut writer, readers.as_mut_slice(), samples)
}

/// Publishes so many samples a block at a time, and lets each reader read each block.
fn take_turns<R: CpuClock>(
    rt: &R,
    ring: &Ring,
    writer: &mut Writer,
    readers: &mut [Reader],
    samples: u32,
) -> anyhow::Result<Rates>
    requires writer { writer_ring writer.old ≡ ring_id ring.now }
    requires readers { All (λ reader. reader_ring reader ≡ ring_id ring.now) readers.old }
{
    let mut publishes = Spent::nothing();
    let mut reads = Spent::nothing();
    for block in 0..samples.div_ceil(BLOCK) {
        let count = BLOCK.min(samples - block * BLOCK);
        publishes.add(publish(rt, ring, writer, count)?);
        reads.add(read_by_each(rt, ring, readers, count)?);
    }
    Ok(Rates { publishes, reads })
}

/// Lets each reader read so many samples.
fn read_by_each<R: CpuClock>(
    rt: &R,
    ring: &Ring,
    readers: &mut [Reader],
    samples: u32,
) -> anyhow::Result<Spent>
    requires { All (λ reader. reader_ring reader ≡ ring_id ring.now) readers.old }
    ensures { All (λ reader. reader_ring reader ≡ ring_id ring.now) readers.new }
{
    let mut spent = Spent::nothing();
    for i in 0..readers.len() {
        spent.add(read(rt, ring, &mut readers[i], samples)?);
    }
    Ok(spent)
}

/// Reads so many samples.
fn read<R: CpuClock>(
    rt: &R,
    ring: &Ring,
    reader: &mut Reader,
    samples: u32,
) -> anyhow::Result<Spent>
    requires { reader_ring reader.old ≡ ring_id ring.now }
    ensures { reader_ring reader.new ≡ reader_ring reader.old }
{
    let start = rt.thread_cpu_time()?;
    let sum = sum_of_next(ring, reader, samples);
    let time = rt.thread_cpu_time()?.saturating_sub(start);
    ensure!(sum.is_some(), "a sample was overwritten or not yet there");
    Ok(Spent {
        time,
        calls: samples.into(),
    })
}

/// The sum of the next so many samples, if all are there.
fn sum_of_next(ring: &Ring, reader: &mut Reader, samples: u32) -> Option<i64>
    requires { reader_ring reader.old ≡ ring_id ring.now }
    ensures { reader_ring reader.new ≡ reader_ring reader.old }
{
    let mut sum = 0i64;
    for _ in 0..samples {
        let Got::Item { sample, .. } = reader.read(ring) else {
            return None;
        };
        sum = sum.wrapping_add(sample.into());
    }
    Some(sum)
}
