//! A source and a sink over a reader and a writer of std, as the standard streams are. They count faults, and tell no
//! octets, since no contract can know what a stream of the system gives or takes.
ghost use Rattle.std.specs.Prelude.{◌≡◌, None};

use crate::{Failed, Sink, Source};
use std::io::{Read, Write};

/// A reader of std as a source.
#[derive(Debug, Drop)]
pub struct RealSource<R: Read> {
    reader: R,
    faults: u64,
}

impl<R: Read> RealSource<R> {
    /// A source that has not failed yet.
    pub fn new(reader: R) -> RealSource<R>
        ensures { (⟦<RealSource<R> as Source>⟧.told result).faults ≡ 0 }
    {
        RealSource { reader, faults: 0 }
    }
}

impl<R: Read> Source for RealSource<R> {
    ghost told = { λ s. record { left = None; faults = s.faults } };

    fn read(&mut self, buffer: &mut [u8]) -> Result<usize, Failed> {
        match self.reader.read(buffer) {
            Ok(count) => Ok(count),
            Err(_) => {
                self.faults = self.faults.saturating_add(1);
                Err(Failed)
            }
        }
    }
}

/// A writer of std as a sink.
#[derive(Debug, Drop)]
pub struct RealSink<W: Write> {
    writer: W,
    faults: u64,
}

impl<W: Write> RealSink<W> {
    /// A sink that has not failed yet.
    pub fn new(writer: W) -> RealSink<W>
        ensures { (⟦<RealSink<W> as Sink>⟧.told result).faults ≡ 0 }
    {
        RealSink { writer, faults: 0 }
    }
}

impl<W: Write> Sink for RealSink<W> {
    ghost told = { λ s. record { written = None; faults = s.faults } };

    /// A writer that takes nothing of a nonempty piece has failed.
    fn write(&mut self, octets: &[u8]) -> Result<(), Failed> {
        match self.writer.write_all(octets) {
            Ok(()) => Ok(()),
            Err(_) => {
                self.faults = self.faults.saturating_add(1);
                Err(Failed)
            }
        }
    }
}
