//! Publishing so many samples, timed.
ghost use Rattle.std.specs.Prelude.{◌≡◌, OnOk, IfOk};
ghost use Rattle.sample_ring.specs.Ends.{ring_id, writer_ring};

use crate::rates::Spent;
use sample_ring::{Ring, RingEnd, Writer};
use std::time::CpuClock;

/// The cells of the rings that are measured, which is 7 seconds of live audio.
pub const CELLS: u32 = 65_536;

/// Publishes so many samples.
pub fn publish<R: CpuClock>(
    rt: &R,
    ring: &Ring,
    writer: &mut Writer,
    samples: u32,
) -> anyhow::Result<Spent>
    requires { writer_ring writer.old ≡ ring_id ring.now }
    ensures { writer_ring writer.new ≡ writer_ring writer.old }
{
    let start = rt.thread_cpu_time()?;
    publish_all(ring, writer, samples)?;
    Ok(Spent {
        time: rt.thread_cpu_time()?.saturating_sub(start),
        calls: samples.into(),
    })
}

fn publish_all(ring: &Ring, writer: &mut Writer, samples: u32) -> Result<(), RingEnd>
    requires { writer_ring writer.old ≡ ring_id ring.now }
    ensures { writer_ring writer.new ≡ writer_ring writer.old }
{
    for i in 0..samples {
        writer.publish(ring, (i % 32768) as i16)?;
    }
    Ok(())
}
