//! A live station over real threads, whose input waits until the sockets are polled.
ghost use Rattle.std.specs.Prelude.{None};

use super::outcome::{EIGHT, words};
use crate::assertions::assert_equal;
use host_ports::{Listen, PollFault, Ports};
use key_port::{KeyPort, MemKeyPort, RealKeyPort};
use station::HostEvent;
use std::alloc::Global;
use std::net::Net;
use std::sync::Wait;
use std::sync::atomic::{AtomicU64, Ordering};
use std::test::Fail;
use std::thread;
use std::thread::Threads;
use std::time::Clock;
use tnc_base::{Failed, MemSink, OutOfMemory, Sink, Source};
use tnc_ports::{Live, RealSpawner, ServeEnd, serve};

/// Sockets without hosts. They count their polls, for another thread to see, and after so many they want memory.
#[derive(Drop)]
struct CountingPorts<'a> {
    alloc: Global,
    polls: &'a AtomicU64,
    most: u64,
}

impl Ports for CountingPorts<'_> {
    ghost told = { λ _. record {
      listens = None;
      dials = None;
      polls = None;
      sends = None;
      sent = λ _. None;
      is_shut = λ _. None;
      faults = 0;
    } };

    fn listen<R: Net>(&mut self, _rt: &R, _at: Listen) -> Result<(), Failed> {
        Ok(())
    }

    fn dial<R: Net>(&mut self, _rt: &R, _port: u16) -> Result<u32, Failed> {
        Ok(1)
    }

    fn poll<R: Net>(
        &mut self,
        _rt: &R,
        _wait_ms: u32,
        _paused: &[u32],
    ) -> Result<Vec<HostEvent>, PollFault> {
        if self.polls.fetch_add(1, Ordering::SeqCst) >= self.most {
            return Err(PollFault::Memory);
        }
        Ok(Vec::new(self.alloc))
    }

    fn send<R: Net>(&mut self, _rt: &R, _id: u32, octets: &[u8]) -> Result<usize, Failed> {
        Ok(octets.len())
    }

    fn shut(&mut self, _id: u32) {}
}

/// How often a held read looks at the count before it goes on.
const LIMIT: u64 = 10_000_000;

/// An input of some octets, whose end comes only once a count has reached a number. It gives up after a limit.
#[derive(Drop)]
struct HeldSource<'a> {
    octets: usize,
    count: &'a AtomicU64,
    least: u64,
    reads: u64,
    gave_up: bool,
}

impl Source for HeldSource<'_> {
    ghost told = { λ _. record { left = None; faults = 0 } };

    fn read(&mut self, buffer: &mut [u8]) -> Result<usize, Failed> {
        self.reads = self.reads.saturating_add(1);
        if self.reads == 1 {
            return Ok(buffer.len().min(self.octets));
        }
        for _ in 0..LIMIT {
            if self.count.load(Ordering::SeqCst) >= self.least {
                return Ok(0);
            }
            thread::yield_now();
        }
        self.gave_up = true;
        Ok(0)
    }
}

/// An output that counts its writes, for another thread to see.
#[derive(Drop)]
struct CountingSink<'a> {
    writes: &'a AtomicU64,
}

impl Sink for CountingSink<'_> {
    ghost told = { λ _. record { written = None; faults = 0 } };

    fn write(&mut self, _octets: &[u8]) -> Result<(), Failed> {
        self.writes.fetch_add(1, Ordering::SeqCst);
        Ok(())
    }
}

/// How a station ends, and whether its input gave up waiting.
fn ended<R: Threads + Wait + Net + Clock + Sync, O: Sink, K: KeyPort<O> + Drop>(
    rt: &R,
    alloc: Global,
    mut source: HeldSource<'_>,
    output: &mut O,
    ports: CountingPorts<'_>,
    key: K,
) -> Result<(ServeEnd, bool), OutOfMemory> {
    let mut live = Live {
        ports,
        spawner: RealSpawner::new(),
        key,
        seed: 1,
    };
    let mut report = MemSink::new(alloc, 1000, Vec::new(alloc))?;
    let words = words(false, EIGHT);
    let end = serve(
        rt,
        alloc,
        words,
        &mut source,
        output,
        &mut report,
        &mut live,
    );
    Ok((end, source.gave_up))
}

/// How a station ends whose input of a tick ends only once something was written, and whether it gave up waiting.
fn written<R: Threads + Wait + Net + Clock + Sync>(
    rt: &R,
    alloc: Global,
) -> Result<(ServeEnd, bool), OutOfMemory> {
    let (polls, writes) = (AtomicU64::new(0), AtomicU64::new(0));
    let source = HeldSource {
        octets: 192,
        count: &writes,
        least: 1,
        reads: 0,
        gave_up: false,
    };
    let ports = CountingPorts {
        alloc,
        polls: &polls,
        most: u64::MAX,
    };
    let mut output = CountingSink { writes: &writes };
    ended(rt, alloc, source, &mut output, ports, RealKeyPort::new(rt))
}

/// How a station ends whose sockets want memory after so many polls, and whether its input gave up waiting for polls.
fn held<R: Threads + Wait + Net + Clock + Sync>(
    rt: &R,
    alloc: Global,
    most: u64,
) -> Result<(ServeEnd, bool), OutOfMemory> {
    let polls = AtomicU64::new(0);
    let source = HeldSource {
        octets: 2,
        count: &polls,
        least: 2,
        reads: 0,
        gave_up: false,
    };
    let ports = CountingPorts {
        alloc,
        polls: &polls,
        most,
    };
    let key = MemKeyPort::new(alloc, Vec::new(alloc), 0);
    let mut output = MemSink::new(alloc, 1000, Vec::new(alloc))?;
    ended(rt, alloc, source, &mut output, ports, key)
}

#[test]
fn the_ports_are_polled_while_the_input_is_held(rt: HostRuntime) -> Result<(), Fail> {
    let got = held(&rt, rt.alloc(), u64::MAX)?;
    assert_equal(&rt, &got, &(ServeEnd::Done, false));
    Ok(())
}

#[test]
fn want_of_memory_ends_it(rt: HostRuntime) -> Result<(), Fail> {
    let (end, _) = held(&rt, rt.alloc(), 2)?;
    assert_equal(&rt, &end, &ServeEnd::Memory);
    Ok(())
}

// The samples of a tick are published before the next read, and the tick is written in its turn.
#[test]
fn a_tick_is_written_while_the_input_is_held(rt: HostRuntime) -> Result<(), Fail> {
    let got = written(&rt, rt.alloc())?;
    assert_equal(&rt, &got, &(ServeEnd::Done, false));
    Ok(())
}
