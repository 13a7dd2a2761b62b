//! A worked ring of 8 cells, and the refusals.
ghost use Rattle.std.specs.Prelude.{◌≡◌, IfOk};
ghost use Rattle.sample_ring.specs.Ends.{ring_id, writer_ring, reader_ring};

use super::published::{publish_to, sample_at};
use crate::tests::assertions::assert_equal;
use sample_ring::{Got, Note, Reader, Ring, RingFault, Writer, WriterDone};
use std::alloc::Global;
use std::process::Abort;
use std::test::Fail;

fn item(at: u64) -> Got {
    Got::Item {
        at,
        sample: sample_at(at),
    }
}

fn with_one_reader(alloc: Global, len: u32) -> Result<(Ring, Writer, Reader), RingFault>
    ensures { IfOk result (λ made. (writer_ring made.1 ≡ ring_id made.0) × (reader_ring made.2 ≡ ring_id made.0)) }
{
    let (ring, writer, mut readers) = Ring::new(alloc, len, 1)?;
    let reader = readers.pop().ok_or(RingFault::Memory)?;
    Ok((ring, writer, reader))
}

/// Whether the next reads give the items from one position to below another.
fn reads_items(ring: &Ring, reader: &mut Reader, from: u64, to: u64) -> bool
    requires { reader_ring reader.old ≡ ring_id ring.now }
    ensures { reader_ring reader.new ≡ reader_ring reader.old }
{
    for at in from..to {
        if reader.read(ring) != item(at) {
            return false;
        }
    }
    true
}

fn crosses_threads<T: Send>() {}

fn is_shared<T: Sync>() {}

#[test]
fn the_ring_is_shared_and_each_end_crosses_threads() {
    is_shared::<Ring>();
    crosses_threads::<Ring>();
    crosses_threads::<Writer>();
    crosses_threads::<WriterDone>();
    crosses_threads::<Reader>();
    crosses_threads::<Note>();
}

/// A ring of 8 cells with 20 samples, and a reader that has read the first three and the gap after them.
fn read_to_gap<R: Abort>(rt: &R, alloc: Global) -> Result<(Ring, Writer, Reader), RingFault>
    ensures { IfOk result (λ made. (writer_ring made.1 ≡ ring_id made.0) × (reader_ring made.2 ≡ ring_id made.0)) }
{
    let (ring, mut writer, mut reader) = with_one_reader(alloc, 8)?;
    assert_equal(rt, &reader.read(&ring), &Got::Empty { at: 0 });
    assert!(*rt; publish_to(&ring, &mut writer, 3).is_ok());
    assert!(*rt; reads_items(&ring, &mut reader, 0, 3));
    assert_equal(rt, &reader.read(&ring), &Got::Empty { at: 3 });
    assert!(*rt; publish_to(&ring, &mut writer, 20).is_ok());
    assert_equal(rt, &reader.read(&ring), &Got::Gap { from: 3, to: 12 });
    Ok((ring, writer, reader))
}

#[test]
fn a_ring_of_eight_cells_gives_items_after_a_gap(rt: HostRuntime) -> Result<(), Fail> {
    let (ring, _writer, mut reader) = read_to_gap(&rt, rt.alloc())?;
    assert!(rt; reads_items(&ring, &mut reader, 12, 20));
    assert_equal(&rt, &reader.read(&ring), &Got::Empty { at: 20 });
    Ok(())
}

#[test]
fn a_note_moves_no_reader(rt: HostRuntime) -> Result<(), Fail> {
    let (ring, mut writer, mut reader) = read_to_gap(&rt, rt.alloc())?;
    let note = writer.note(&ring);
    assert_equal(&rt, &(note.count(), writer.published()), &(20, 20));
    reader.learn(&ring, note);
    assert_equal(&rt, &reader.at(), &12);
    assert!(rt; reads_items(&ring, &mut reader, 12, 20));
    assert_equal(&rt, &reader.read(&ring), &Got::Empty { at: 20 });
    Ok(())
}

#[test]
fn a_ring_that_has_ended_tells_the_total(rt: HostRuntime) -> Result<(), Fail> {
    let (ring, writer, mut reader) = read_to_gap(&rt, rt.alloc())?;
    assert!(rt; reads_items(&ring, &mut reader, 12, 20));
    let done = writer.end(&ring);
    assert_equal(&rt, &reader.read(&ring), &Got::End { total: 20 });
    assert_equal(&rt, &reader.read(&ring), &Got::End { total: 20 });
    let mut readers = Vec::new(rt.alloc());
    readers.push(reader)?;
    assert_equal(&rt, &ring.close(done, readers).total(), &20);
    Ok(())
}

/// Why no ring is made, or nothing if one is.
fn refusal(alloc: Global, len: u32, readers: u8) -> Result<String, Fail> {
    match Ring::new(alloc, len, readers).err() {
        None => Ok(String::new(alloc)),
        Some(fault) => Ok(format!(in alloc; "{fault}")?),
    }
}

#[test]
fn lengths_and_numbers_of_readers_have_bounds(rt: HostRuntime) -> Result<(), Fail> {
    let cases = [
        (0, 1, "a ring of 0 cells"),
        (1_048_577, 1, "a ring of 1048577 cells"),
        (0, 65, "a ring of 0 cells"),
        (8, 0, "a ring of 0 readers"),
        (8, 65, "a ring of 65 readers"),
        (1_048_576, 64, ""),
    ];
    for (len, readers, wanted) in cases {
        let text = refusal(rt.alloc(), len, readers)?;
        assert_equal(&rt, &(len, readers, text.as_str()), &(len, readers, wanted));
    }
    Ok(())
}
