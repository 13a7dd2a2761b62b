//! One turn of a receiver.

ghost use Rattle.std.specs.Prelude.{◌≡◌, ℕ, None, Some, false, length, IfOk};
ghost use Rattle.std.specs.List.{All};
ghost use Rattle.sample_ring.specs.Ends.{ring_id, ring_len, reader_ring};
ghost use Rattle.frame_merge.specs.Held.{least};
ghost use Rattle.slicer_bank.specs.RingLanes.{readers_in as readers_of_bank};
ghost use Rattle.ring_receiver.specs.HeldReceiver.{readers_with};
ghost use Rattle.ring_receiver.specs.ReceiverTurns.{held_of, AreInStep, MakesTurn, ReadersStay};

use crate::added_ring::AddedRing;
use crate::heard::Heard;
use crate::merging::merge_all;
use frame_merge::Merger;
use sample_ring::Ring;
use slicer_bank::{Gate, RingBank, merge_advance};
use std::thread::Threads;
use tnc_base::OutOfMemory;

/// A turn of the eight lanes alone.
pub(crate) fn hear_eight<R: Threads + Sync, G: Gate>(
    rt: &R,
    ring: &Ring,
    gate: &G,
    bank: &mut RingBank,
    merger: &mut Merger,
) -> Result<Heard, OutOfMemory>
    requires eight { length (readers_of_bank bank.old) ≡ 8 }
    requires rings { All (λ reader. reader_ring reader ≡ ring_id ring.now) (readers_of_bank bank.old) }
    requires step { AreInStep bank.old None merger.old }
    ensures stay { ReadersStay (ring_id ring.now) (held_of bank.old None merger.old false)
        (held_of bank.new None merger.new false) }
    ensures made { IfOk result (MakesTurn (ring_len ring.now) (held_of bank.old None merger.old false)
        (held_of bank.new None merger.new false)) }
{
    let advance = bank.advance(rt, ring, gate)?;
    let least = least_of(&advance.positions);
    let items = merge_advance(
        merger,
        advance.candidates,
        &advance.positions,
        advance.ended,
    )?;
    Ok(Heard {
        items,
        gaps: advance.gaps,
        least,
        ended: advance.ended,
    })
}

/// A turn of the eight lanes and the added ones.
pub(crate) fn hear_all<R: Threads + Sync, G: Gate>(
    rt: &R,
    ring: &Ring,
    gate: &G,
    bank: &mut RingBank,
    added: &mut AddedRing,
    merger: &mut Merger,
) -> Result<Heard, OutOfMemory>
    requires eight { length (readers_of_bank bank.old) ≡ 8 }
    requires rings { All (λ reader. reader_ring reader ≡ ring_id ring.now) (readers_of_bank bank.old) }
    requires ring { reader_ring added.old.reader ≡ ring_id ring.now }
    requires step { AreInStep bank.old (Some added.old) merger.old }
    ensures stay { ReadersStay (ring_id ring.now) (held_of bank.old (Some added.old) merger.old false)
        (held_of bank.new (Some added.new) merger.new false) }
    ensures made { IfOk result (MakesTurn (ring_len ring.now) (held_of bank.old (Some added.old) merger.old false)
        (held_of bank.new (Some added.new) merger.new false)) }
{
    let advance = bank.advance(rt, ring, gate)?;
    let mut turn = added.advance(ring)?;
    let position = added.reader.at();
    let least = least_of(&advance.positions).min(position);
    let ended = advance.ended && turn.ended;
    let mut gaps = advance.gaps;
    gaps.append(&mut turn.gaps)?;
    let items = merge_all(
        merger,
        advance.candidates,
        turn.items,
        &advance.positions,
        position,
        ended,
    )?;
    Ok(Heard {
        items,
        gaps,
        least,
        ended,
    })
}

/// A turn of the lanes that listen.
pub(crate) fn hear<R: Threads + Sync, G: Gate>(
    rt: &R,
    ring: &Ring,
    gate: &G,
    bank: &mut RingBank,
    added: &mut Option<AddedRing>,
    merger: &mut Merger,
) -> Result<Heard, OutOfMemory>
    requires eight { length (readers_of_bank bank.old) ≡ 8 }
    requires rings { All (λ reader. reader_ring reader ≡ ring_id ring.now)
        (readers_with (readers_of_bank bank.old) added.old) }
    requires step { AreInStep bank.old added.old merger.old }
    ensures stay { ReadersStay (ring_id ring.now) (held_of bank.old added.old merger.old false)
        (held_of bank.new added.new merger.new false) }
    ensures made { IfOk result (MakesTurn (ring_len ring.now) (held_of bank.old added.old merger.old false)
        (held_of bank.new added.new merger.new false)) }
{
    match added {
        None => hear_eight(rt, ring, gate, bank, merger),
        Some(added) => hear_all(rt, ring, gate, bank, added, merger),
    }
}

/// The least of eight positions.
fn least_of(positions: &[u64; 8]) -> u64
    ensures { result ≡ least positions.now }
{
    positions
        .iter()
        .fold(u64::MAX, |least, position| least.min(*position))
}
