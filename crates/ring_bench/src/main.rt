//! Measures the ring: what a publish and a read cost, with one and with eight readers.
//!
//! In the first two cases one thread does all: it publishes a block, and each reader then reads it. In the last two the
//! writer and each reader have threads of their own, and go as fast as they can. A time is the processor time of the
//! thread that made the calls, so waiting for a processor is no part of it.
#![tactic(auto)]

#[cfg(test)]
mod assertions;
mod in_turns;
mod on_threads;
mod publishing;
mod rates;
#[cfg(test)]
mod tests;

use crate::in_turns::in_turns;
use crate::on_threads::on_threads;
use std::{env, io};

/// The count of samples that the words ask for: one word, a number above 0.
fn asked_for(rt: &HostRuntime) -> io::Result<Option<u32>> {
    let mut words = env::args(rt)?.skip(1);
    let (Some(word), None) = (words.next(), words.next()) else {
        return Ok(None);
    };
    Ok(word.parse::<u32>().ok().filter(|count| *count > 0))
}

fn main(rt: HostRuntime) -> anyhow::Result<()> {
    let Some(samples) = asked_for(&rt)? else {
        println!(rt; "usage: ring_bench SAMPLES")?;
        return Ok(());
    };
    println!(rt; "1 reader: {}", in_turns(&rt, rt.alloc(), 1, samples)?)?;
    println!(rt; "8 readers: {}", in_turns(&rt, rt.alloc(), 8, samples)?)?;
    println!(rt;
        "1 reader on a thread: {}",
        on_threads(&rt, rt.alloc(), 1, samples)?
    )?;
    println!(rt;
        "8 readers on threads: {}",
        on_threads(&rt, rt.alloc(), 8, samples)?
    )?;
    Ok(())
}
