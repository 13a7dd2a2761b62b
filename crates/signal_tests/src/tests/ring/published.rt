//! What these tests publish.
ghost use Rattle.std.specs.Prelude.{◌≡◌};
ghost use Rattle.sample_ring.specs.Ends.{ring_id, writer_ring};

use sample_ring::{Ring, RingEnd, Writer};

/// The sample that these tests publish at a position. Positions of one cell have different samples.
pub(super) fn sample_at(position: u64) -> i16 {
    ((position.wrapping_mul(40503) % 65536) as u16).cast_signed()
}

/// Publishes up to a position.
pub(super) fn publish_to(ring: &Ring, writer: &mut Writer, to: u64) -> Result<(), RingEnd>
    requires { writer_ring writer.old ≡ ring_id ring.now }
    ensures { writer_ring writer.new ≡ writer_ring writer.old }
{
    for position in writer.published()..to {
        writer.publish(ring, sample_at(position))?;
    }
    Ok(())
}
