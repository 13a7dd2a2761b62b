//! What is told of the signal that is drawn.
ghost use Rattle.std.specs.Prelude.{◌<◌, ◌^◌, IfOk, length, string_bytes};
ghost use Rattle.std.specs.List.{All};
ghost use Rattle.slicer_bank.specs.Candidates.{AreCandidates};
ghost use Rattle.slicer_bank.specs.Merging.{CanBePut};
ghost use Rattle.tnc_loop.specs.Held.{HasFound};
ghost use Rattle.tnc_loop.specs.Summary.{IsSummary};

use crate::sending::send_drawn;
use crate::straying::{count_strays, first_stray};
use crate::summing::summary;
use frame_merge::Candidate;
use slicer_bank::{Bank, OpenGate, merge};
use std::alloc::Global;
use std::thread::Threads;
use tnc_base::{Octets, OutOfMemory};
use tnc_words::LoopWords;

/// What is told of a signal.
#[derive(Drop)]
pub(crate) struct Told {
    /// The four lines.
    pub summary: String,
    /// The octets of the first stray candidate.
    pub stray: Option<Octets>,
}

/// Sends the transmissions that the words draw, and hears their signal as one block.
pub(crate) fn tell_drawn<R: Threads + Sync>(
    rt: &R,
    alloc: Global,
    words: LoopWords,
) -> Result<Told, OutOfMemory>
    ensures summary { IfOk result (λ told. IsSummary words (string_bytes told.summary)) }
    ensures stray { IfOk result (λ told. HasFound words told.stray) }
{
    let sent = send_drawn(alloc, words)?;
    let candidates = candidates_in(rt, alloc, words.threads, &sent.samples)?;
    let stray = first_stray(alloc, &sent.ends, &candidates)?;
    let stray_count = count_strays(&sent.ends, &candidates);
    let heard = merge(alloc, candidates)?;
    Ok(Told {
        summary: summary(alloc, words.frames, &heard, stray_count)?,
        stray,
    })
}

/// The candidates of the samples, heard as one block. With threads the lanes work on two.
fn candidates_in<R: Threads + Sync>(
    rt: &R,
    alloc: Global,
    threads: bool,
    samples: &[i16],
) -> Result<Vec<Candidate>, OutOfMemory>
    requires { length samples.now < 2 ^ 48 }
    ensures are { IfOk result (λ found. AreCandidates samples.now found.items) }
    ensures bounds { IfOk result (λ found. All CanBePut found.items) }
{
    let mut bank = Bank::new(alloc)?;
    if threads {
        bank.feed_threads(rt, samples, &OpenGate)
    } else {
        bank.feed(samples)
    }
}
