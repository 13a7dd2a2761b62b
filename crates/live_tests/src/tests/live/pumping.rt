//! What the pump publishes of an input.
ghost use Rattle.std.specs.Prelude.{◌≡◌, [], IfOk};
ghost use Rattle.sample_ring.specs.Ends.{ring_id, writer_ring, reader_ring, published_by};

use crate::assertions::assert_equal;
use sample_ring::{Got, Reader, Ring, RingFault, Writer};
use sound_rate::Rate;
use std::alloc::Global;
use std::test::Fail;
use tnc_base::MemSource;
use tnc_ports::{PumpEnd, pump};

/// Five octets, which are two samples and half of a third one.
const INPUT: [u8; 5] = [1, 0, 2, 128, 5];

fn with_one_reader(alloc: Global) -> Result<(Ring, Writer, Reader), RingFault>
    ensures writer { IfOk result (λ made. writer_ring made.1 ≡ ring_id made.0) }
    ensures reader { IfOk result (λ made. reader_ring made.2 ≡ ring_id made.0) }
    ensures new { IfOk result (λ made. published_by made.1 ≡ []) }
{
    let (ring, writer, mut readers) = Ring::new(alloc, 8, 1)?;
    let Some(reader) = readers.pop() else {
        return Err(RingFault::Memory);
    };
    Ok((ring, writer, reader))
}

/// Whether the reader gives exactly these samples, and then the end.
fn gives(ring: &Ring, reader: &mut Reader, samples: &[i16]) -> bool
    requires { reader_ring reader.old ≡ ring_id ring.now }
{
    for sample in samples {
        let at = reader.at();
        let item = Got::Item {
            at,
            sample: *sample,
        };
        if reader.read(ring) != item {
            return false;
        }
    }
    matches!(reader.read(ring), Got::End { .. })
}

/// How the pump ends, and whether it publishes these samples. The input comes in pieces, and some reads of it fail.
fn pumped(
    alloc: Global,
    piece: usize,
    failing: &[u64],
    samples: &[i16],
) -> Result<(PumpEnd, bool), RingFault> {
    let (ring, writer, mut reader) = with_one_reader(alloc)?;
    let (Ok(input), Ok(failing)) = (INPUT.to_vec(alloc), failing.to_vec(alloc)) else {
        return Err(RingFault::Memory);
    };
    let mut source = MemSource::new(input, piece.max(1), failing);
    let end = pump(&mut source, &ring, writer, Rate::Narrow).end;
    Ok((end, gives(&ring, &mut reader, samples)))
}

#[test]
fn the_pump_publishes_whole_samples(rt: HostRuntime) -> Result<(), Fail> {
    let table: [(usize, &[u64], PumpEnd, &[i16]); 3] = [
        (1, &[], PumpEnd::InputEnd, &[1, -32766]),
        (9, &[], PumpEnd::InputEnd, &[1, -32766]),
        (3, &[1], PumpEnd::ReadFault, &[1]),
    ];
    for (piece, failing, want, samples) in table {
        let got = pumped(rt.alloc(), piece, failing, samples)?;
        assert_equal(&rt, &(piece, got), &(piece, (want, true)));
    }
    Ok(())
}
