//! What a live station writes: all that it has to say, until a write fails.
ghost use Rattle.tnc_ports.specs.SampledWrites.{Puts};

use tnc_base::Sink;

/// Writes octets, unless there are none or a write failed before.
pub fn put<S: Sink>(sink: &mut S, failed: &mut bool, octets: &[u8])
    ensures { Puts failed.old failed.new octets.now (S.told sink.old) (S.told sink.new) }
{
    if *failed || octets.is_empty() {
        return;
    }
    *failed = sink.write(octets).is_err();
}
