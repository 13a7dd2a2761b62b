//! Samples for the readers of a ring.

ghost use Rattle.std.specs.Prelude.{◌≡◌};
ghost use Rattle.sample_ring.specs.Ends.{ring_id, writer_ring};

use sample_ring::{Ring, Writer};
use std::process::Abort;

/// Publishes samples.
pub(crate) fn publish<R: Abort>(rt: &R, ring: &Ring, writer: &mut Writer, samples: &[i16])
    requires { writer_ring writer.old ≡ ring_id ring.now }
    ensures { writer_ring writer.new ≡ ring_id ring.now }
{
    for sample in samples {
        assert!(*rt; writer.publish(ring, *sample).is_ok());
    }
}

/// Publishes so many samples of silence.
pub(crate) fn publish_silence<R: Abort>(rt: &R, ring: &Ring, writer: &mut Writer, count: usize)
    requires { writer_ring writer.old ≡ ring_id ring.now }
    ensures { writer_ring writer.new ≡ ring_id ring.now }
{
    for _ in 0..count {
        publish(rt, ring, writer, &[0]);
    }
}
