//! Samples in blocks of one length: what a decoder gives of them.

ghost use Rattle.std.specs.Prelude.{◌≡◌, ◌+◌, ◌<◌, ◌≤◌, ◌^◌, length as count, false, OnOk};

use crate::tests::block_decoder::BlockDecoder;
use crate::tests::meeting::Meeting;
use crate::tests::places::note;
use frame_merge::Candidate;
use std::alloc::Global;
use std::process::Abort;
use std::thread::Threads;
use tnc_base::OutOfMemory;

/// The items that a block settles, on two threads if there is a gate.
fn items_of_block<D: BlockDecoder, R: Threads + Sync>(
    rt: &R,
    decoder: &mut D,
    block: &[i16],
    gate: Option<&Meeting>,
) -> Result<Vec<Candidate>, OutOfMemory>
    requires few { count block.now ≤ 2048 }
    requires room { D.position decoder.old + count block.now < 2 ^ 48 }
    requires unfinished { D.finished decoder.old ≡ false }
    ensures position { OnOk result (D.position decoder.new ≡ D.position decoder.old + count block.now) }
    ensures unfinished { D.finished decoder.new ≡ false }
{
    match gate {
        Some(gate) => decoder.hear_on_threads(rt, block, gate),
        None => decoder.hear(block),
    }
}

/// Notes the items that a decoder gives of samples in blocks of one length, before it is finished.
fn note_blocks<D: BlockDecoder, R: Abort + Threads + Sync>(
    rt: &R,
    decoder: &mut D,
    places: &mut Vec<(u64, u8)>,
    samples: &[i16],
    length: usize,
    gate: Option<&Meeting>,
) -> Result<(), OutOfMemory>
    requires some { 0 < length }
    requires most { length ≤ 2048 }
    requires room { D.position decoder.old + count samples.now < 2 ^ 48 }
    requires unfinished { D.finished decoder.old ≡ false }
{
    let mut rest = samples;
    while !rest.is_empty() {
        let (block, after) = rest.split_at(length.min(rest.len()));
        let items = items_of_block(rt, decoder, block, gate)?;
        note(rt, places, items)?;
        rest = after;
    }
    Ok(())
}

/// The items of samples in blocks of one length, on two threads if there is a gate.
pub(crate) fn items_in_blocks<D: BlockDecoder, R: Abort + Threads + Sync>(
    rt: &R,
    alloc: Global,
    samples: &[i16],
    length: usize,
    gate: Option<&Meeting>,
) -> Result<Vec<(u64, u8)>, OutOfMemory>
    requires some { 0 < length }
    requires most { length ≤ 2048 }
    requires few { count samples.now < 2 ^ 32 }
{
    let mut decoder = D::start(alloc)?;
    let mut places = Vec::new(alloc);
    note_blocks(rt, &mut decoder, &mut places, samples, length, gate)?;
    note(rt, &mut places, decoder.end()?)?;
    Ok(places)
}
