//! Octet lists, the hash, and streams in memory and of std.
ghost use Rattle.std.specs.Prelude.{◌<◌};

use crate::tests::assertions::assert_equal;
use std::alloc::Global;
use std::io::{self, ErrorKind, Read};
use std::process::Abort;
use std::test::Fail;
use tnc_base::{
    Failed, MemSink, MemSource, Octets, OutOfMemory, RealSink, RealSource, Sink, Source, fnv,
};

/// A reader of std that refuses.
#[derive(Drop)]
struct Refusing;

impl Read for Refusing {
    fn read(&mut self, _buffer: &mut [u8]) -> io::Result<usize> {
        Err(io::Error::from(ErrorKind::BrokenPipe))
    }
}

/// The answers of six reads into a buffer of four octets, a digit for each, or an x if it failed; and what they gave.
fn six_reads<S: Source>(alloc: Global, source: &mut S) -> Result<(Vec<u8>, Vec<u8>), OutOfMemory> {
    let mut answers = Vec::new(alloc);
    let mut octets = Vec::new(alloc);
    for _ in 0..6 {
        let mut buffer = [0; 4];
        match source.read(&mut buffer) {
            Ok(count) => {
                octets.extend_from_slice(&buffer[..count])?;
                answers.push(b"01234"[count])?;
            }
            Err(Failed) => answers.push(b'x')?,
        }
    }
    Ok((answers, octets))
}

/// Whether each of these writes went through.
fn writes<K: Sink>(
    alloc: Global,
    sink: &mut K,
    pieces: &[&[u8]],
) -> Result<Vec<bool>, OutOfMemory> {
    let mut answers = Vec::new(alloc);
    for piece in pieces {
        answers.push(sink.write(piece).is_ok())?;
    }
    Ok(answers)
}

/// Asserts that a list and its clone have these octets, and so many.
fn assert_list<R: Abort>(rt: &R, alloc: Global, octets: &[u8], len: usize) -> Result<(), Fail> {
    let list = Octets::from_slice(alloc, octets)?;
    let clone = list.clone()?;
    assert_equal(
        rt,
        &(
            list.as_slice(),
            clone.as_slice(),
            list.len(),
            list.is_empty(),
        ),
        &(octets, octets, len, len == 0),
    );
    Ok(())
}

#[test]
fn a_list_keeps_its_octets(rt: HostRuntime) -> Result<(), Fail> {
    assert_list(&rt, rt.alloc(), b"N7LEM", 5)?;
    assert_list(&rt, rt.alloc(), b"", 0)
}

/// The vectors of the authors' table.
const HASHES: &[(&[u8], u64)] = &[
    (b"", 0xcbf2_9ce4_8422_2325),
    (b"a", 0xaf63_dc4c_8601_ec8c),
    (b"b", 0xaf63_df4c_8601_f1a5),
    (b"foobar", 0x8594_4171_f739_67e8),
];

#[test]
fn the_hash_is_fnv_1a(rt: HostRuntime) {
    for (octets, hash) in HASHES {
        assert_equal(&rt, &(*octets, fnv(octets)), &(*octets, *hash));
    }
}

/// The same of `12345` in memory, in pieces of so many octets, if the reads of these numbers fail.
fn six_reads_of_pieces(
    alloc: Global,
    piece: usize,
    failing: &[u64],
) -> Result<(Vec<u8>, Vec<u8>), Fail>
    requires { 0 < piece }
{
    let mut source = MemSource::new(b"12345".to_vec(alloc)?, piece, failing.to_vec(alloc)?);
    Ok(six_reads(alloc, &mut source)?)
}

/// Each row: how many octets a piece has, the reads that fail, and the answers.
const READS: &[(usize, &[u64], &[u8])] = &[
    (2, &[1], b"2x2100"),
    (9, &[0, 2], b"x4x100"),
    (1, &[], b"111110"),
];

#[test]
fn a_source_in_memory_gives_pieces_and_fails_in_mid_stream(rt: HostRuntime) -> Result<(), Fail> {
    for (piece, failing, want) in READS {
        assert!(rt; *piece > 0);
        let (answers, octets) = six_reads_of_pieces(rt.alloc(), *piece, failing)?;
        assert_equal(
            &rt,
            &(*piece, answers.as_slice(), octets.as_slice()),
            &(*piece, *want, b"12345".as_slice()),
        );
    }
    Ok(())
}

#[test]
fn a_sink_in_memory_fails_in_mid_stream_and_past_its_room(rt: HostRuntime) -> Result<(), Fail> {
    let alloc = rt.alloc();
    let mut sink = MemSink::new(alloc, 5, [1].to_vec(alloc)?)?;
    let answers = writes(alloc, &mut sink, &[b"12", b"34", b"56", b"78", b"", b"9"])?;
    let wanted = [true, false, true, false, true, true];
    assert_equal(
        &rt,
        &(answers.as_slice(), sink.written()),
        &(wanted.as_slice(), b"12569".as_slice()),
    );
    Ok(())
}

#[test]
fn a_reader_of_std_is_a_source(rt: HostRuntime) -> Result<(), Fail> {
    let refused = RealSource::new(Refusing).read(&mut [0; 4]);
    assert_equal(&rt, &refused, &Err(Failed));
    let (answers, octets) = six_reads(rt.alloc(), &mut RealSource::new(b"12345".as_slice()))?;
    assert_equal(
        &rt,
        &(answers.as_slice(), octets.as_slice()),
        &(b"410000".as_slice(), b"12345".as_slice()),
    );
    Ok(())
}

#[test]
fn a_writer_of_std_is_a_sink(rt: HostRuntime) -> Result<(), Fail> {
    let mut octets = Vec::new(rt.alloc());
    let mut sink = RealSink::new(&mut octets);
    let answers = writes(rt.alloc(), &mut sink, &[b"12", b"", b"345"])?;
    assert_equal(
        &rt,
        &(answers.as_slice(), octets.as_slice()),
        &([true, true, true].as_slice(), b"12345".as_slice()),
    );
    Ok(())
}

// A slice takes what fits, and then nothing of a nonempty piece.
#[test]
fn a_slice_is_a_sink_up_to_its_room(rt: HostRuntime) -> Result<(), Fail> {
    let mut room = [0; 3];
    let mut sink = RealSink::new(room.as_mut_slice());
    let answers = writes(rt.alloc(), &mut sink, &[b"12", b"34", b"5"])?;
    assert_equal(&rt, &answers.as_slice(), &[true, false, false].as_slice());
    Ok(())
}
