//! What goes out for the samples of a tick.
ghost use Rattle.std.specs.Prelude.{◌≡◌, ◌≤◌, ℤ, List, ◌++◌, length};
ghost use Rattle.sound_rate.specs.declared.rate.Rate.{Rate};
ghost use Rattle.sound_rate.specs.Rates.{written_at};
ghost use Rattle.sound_rate.specs.HeldRates.{HasMade};
ghost use Rattle.tnc_ports.specs.ReportText.{output_octets};
ghost use Rattle.tnc_ports.specs.SampledWrites.{Puts};

use crate::writing::put;
use byteorder::{ByteOrder, LittleEndian};
use sound_rate::Outgoing;
use tnc_base::Sink;

/// The most samples that go out for a tick, and their octets.
const MOST: usize = 480;

const MOST_OCTETS: usize = 960;

/// Writes what goes out for the samples of a tick, unless a write failed before.
pub(crate) fn put_samples<S: Sink>(
    out: &mut Outgoing,
    sink: &mut S,
    failed: &mut bool,
    samples: &[i16; 96],
)
    ensures put { (rate : Rate) (x : List ℤ) → HasMade rate out.old x → HasMade rate out.new (x ++ samples.now)
        × (gone : List ℤ) × (written_at rate (x ++ samples.now) ≡ written_at rate x ++ gone)
        × Puts failed.old failed.new (output_octets gone) (S.told sink.old) (S.told sink.new) }
    ensures size { length samples.now ≡ 96 }
{
    let mut room = [0; MOST];
    let count = out.feed(samples, &mut room);
    put_octets(sink, failed, &room[..count]);
}

/// Writes samples, unless there are none or a write failed before.
fn put_octets<S: Sink>(sink: &mut S, failed: &mut bool, samples: &[i16])
    requires { length samples.now ≤ 480 }
    ensures { Puts failed.old failed.new (output_octets samples.now) (S.told sink.old) (S.told sink.new) }
{
    let mut octets = [0; MOST_OCTETS];
    let octets = &mut octets[..2 * samples.len()];
    LittleEndian::write_i16_into(samples, octets);
    put(sink, failed, octets);
}
