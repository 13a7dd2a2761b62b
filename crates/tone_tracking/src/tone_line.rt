//! The tones of samples, block by block.
//!
//! The places of a block are decided slot by slot, one after another or on threads, and the tones are put in a row.

ghost use Rattle.std.specs.Prelude.{◌≡◌, ◌≢◌, ◌+◌, ◌-◌, ◌*◌, ◌/◌, ◌%◌, ◌<◌, ◌≤◌, ◌^◌, ℕ, ℤ, List, [], ◌++◌, drop, length, IfOk, OnOk};
ghost use Rattle.std.specs.Prelude.{slice_index_or, unsigned_abs};
ghost use Rattle.std.specs.List.{All};
ghost use Rattle.tone_tracking.specs.declared.place_tones.PlaceTones.{PlaceTones};
ghost use Rattle.tone_tracking.specs.Correlation.{correlations};
ghost use Rattle.tone_tracking.specs.HeldLine.{HasTaken, TakesBlock, decided_in};
ghost use Rattle.tone_tracking.specs.HeldMean.{StandsFor as MeanStandsFor};
ghost use Rattle.tone_tracking.specs.Slots.{AreTonesFrom, HasDecidedNone, HeldSlot, IsPrepared, ahead_of};
ghost use Rattle.tone_tracking.specs.WithoutMean.{without_mean};

use crate::block_mean::BlockMean;
use crate::deciding::{Deciding, InTurn, OnThreads};
use crate::place_tones::PlaceTones;
use crate::slot_tracker::SlotTracker;
use std::alloc::{AllocError, Global};
use std::marker::Model;
use std::thread::Threads;

/// Takes samples block by block, and decides the places that they settle: `new`, then `feed` and `line` for each block. It
/// keeps the last samples without their mean, and its memory from block to block.
#[derive(Drop)]
pub struct ToneLine {
    alloc: Global,
    count: u64,
    remover: BlockMean,
    levels: Vec<i32>,
    slots: Vec<SlotTracker>,
    line: Vec<PlaceTones>,
}

impl Model for ToneLine {
    ghost use Rattle.std.specs.Prelude.{◌≡◌, ◌-◌, ◌+◌, ◌≤◌, length, unsigned_abs};
    ghost use Rattle.std.specs.List.{All};
    ghost use Rattle.tone_tracking.specs.HeldLine.{HeldLine, decided_in};

    ghost Value = { HeldLine };

    ghost view = { λ s. record {
      count = s.count;
      remover = s.remover;
      levels = s.levels.items;
      slots = s.slots.items;
      first = decided_in s.count - length s.line.items;
      line = s.line.items;
    } };

    ghost invariant = { λ s. (s.remover.left ≡ 15 - s.count) × (length s.line.items ≤ decided_in s.count)
        × (length s.levels.items ≡ (s.count - 15) - (decided_in s.count - length s.line.items))
        × All (λ level. unsigned_abs level ≤ 262144) s.levels.items × (length s.slots.items ≡ 8) };
}

impl ToneLine {
    /// A line that has taken nothing.
    pub fn new(alloc: Global) -> Result<ToneLine, AllocError>
        ensures has_taken { IfOk result (λ line. HasTaken line []) }
        ensures count { IfOk result (λ line. line.count ≡ 0) }
    {
        Ok(ToneLine {
            alloc,
            count: 0,
            remover: BlockMean::new(alloc),
            levels: Vec::new(alloc),
            slots: new_slots(alloc)?,
            line: Vec::new(alloc),
        })
    }

    /// Takes a block of samples, and makes the line of the places that it decides. After want of memory no clause says what
    /// it gives.
    pub fn feed(&mut self, block: &[i16]) -> Result<(), AllocError>
        requires { self.old.count + length block.now < 2 ^ 48 }
        ensures { OnOk result (TakesBlock self.old self.new block.now) }
    {
        self.feed_by(&InTurn, block)
    }

    /// Does what [`ToneLine::feed`] does, with the slots on threads.
    pub fn feed_threads<R: Threads + Sync>(
        &mut self,
        rt: &R,
        block: &[i16],
    ) -> Result<(), AllocError>
        requires { self.old.count + length block.now < 2 ^ 48 }
        ensures { OnOk result (TakesBlock self.old self.new block.now) }
    {
        self.feed_by(&OnThreads { rt }, block)
    }

    /// Takes a block, with the slots decided in some way.
    fn feed_by<D: Deciding>(&mut self, deciding: &D, block: &[i16]) -> Result<(), AllocError>
        requires can { D.can deciding.now }
        requires room { self.old.count + length block.now < 2 ^ 48 }
        ensures { OnOk result (TakesBlock self.old self.new block.now) }
    {
        let place = self.count.saturating_sub(38);
        if let Err(fault) = prepare(
            &mut self.remover,
            &mut self.levels,
            &mut self.slots,
            &mut self.line,
            place,
            block,
        ) {
            forget(
                self.alloc,
                &mut self.remover,
                &mut self.levels,
                &mut self.line,
            );
            self.count = 0;
            return Err(fault);
        }
        deciding.decide(&self.levels, &mut self.slots);
        put_in_row(&self.slots, place, &mut self.line);
        self.count += block.len() as u64;
        Ok(())
    }

    /// The tones, from the first place that no block before the last one decided on.
    pub fn line(&self) -> &[PlaceTones]
        ensures tones { (x : List ℤ) → HasTaken self.now x
            → AreTonesFrom self.now.first result.now (correlations (without_mean x)) }
        ensures length { self.now.first + length result.now ≡ decided_in self.now.count }
    {
        &self.line
    }
}

/// Eight slots that have decided nothing.
fn new_slots(alloc: Global) -> Result<Vec<SlotTracker>, AllocError>
    ensures count { IfOk result (λ slots. length slots.items ≡ 8) }
    ensures pasts { IfOk result (λ slots. All HasDecidedNone slots.items) }
{
    let mut slots = Vec::new(alloc);
    for _ in 0..8u64 {
        slots.push(SlotTracker::new(alloc))?;
    }
    Ok(slots)
}

/// Takes a block of samples to their mean, and prepares slots and line for the places that it decides, of which the first is
/// a place.
fn prepare(
    remover: &mut BlockMean,
    levels: &mut Vec<i32>,
    slots: &mut [SlotTracker],
    line: &mut Vec<PlaceTones>,
    place: u64,
    block: &[i16],
) -> Result<(), AllocError>
    requires levels { All (λ level. unsigned_abs level ≤ 262144) levels.old.items }
    requires slots { length slots.old ≡ 8 }
    requires room { length levels.old.items + length block.now < 2 ^ 50 }
    ensures taken { OnOk result ((x : List ℤ) (base : ℕ) → MeanStandsFor remover.old x
        → base ≤ length (without_mean x) → levels.old.items ≡ drop base (without_mean x)
        → MeanStandsFor remover.new (x ++ block.now)
        × (levels.new.items ≡ drop (base + (length levels.old.items - 23)) (without_mean (x ++ block.now)))) }
    ensures left { OnOk result (remover.new.left ≡ remover.old.left - length block.now) }
    ensures levels { OnOk result (let kept = length levels.old.items - (length levels.old.items - 23) in
        length levels.new.items ≡ kept + (length block.now - remover.old.left)) }
    ensures small { OnOk result (All (λ level. unsigned_abs level ≤ 262144) levels.new.items) }
    ensures slots { length slots.new ≡ 8 }
    ensures prepared { OnOk result ((slot : ℕ) (d : HeldSlot) → slot < 8
        → IsPrepared place (length levels.new.items - 23) slot (slice_index_or slots.old slot d)
        (slice_index_or slots.new slot d)) }
    ensures line { OnOk result (length line.new.items ≡ length levels.new.items - 23) }
{
    extend(remover, levels, block)?;
    let count = levels.len().saturating_sub(23);
    prepare_slots(slots, place, count)?;
    line.resize(count, PlaceTones::MARK)
}

/// Takes a block of samples to their mean, after the last 23 that the places before needed as well.
fn extend(remover: &mut BlockMean, levels: &mut Vec<i32>, block: &[i16]) -> Result<(), AllocError>
    requires levels { All (λ level. unsigned_abs level ≤ 262144) levels.old.items }
    requires room { length levels.old.items + length block.now < 2 ^ 50 }
    ensures taken { OnOk result ((x : List ℤ) (base : ℕ) → MeanStandsFor remover.old x
        → base ≤ length (without_mean x) → levels.old.items ≡ drop base (without_mean x)
        → MeanStandsFor remover.new (x ++ block.now)
        × (levels.new.items ≡ drop (base + (length levels.old.items - 23)) (without_mean (x ++ block.now)))) }
    ensures left { OnOk result (remover.new.left ≡ remover.old.left - length block.now) }
    ensures levels { OnOk result (let kept = length levels.old.items - (length levels.old.items - 23) in
        length levels.new.items ≡ kept + (length block.now - remover.old.left)) }
    ensures small { OnOk result (All (λ level. unsigned_abs level ≤ 262144) levels.new.items) }
{
    keep_last(levels)?;
    remover.feed(block, levels)
}

/// Keeps the last 23 samples without their mean.
fn keep_last(levels: &mut Vec<i32>) -> Result<(), AllocError>
    ensures { OnOk result (levels.new.items ≡ drop (length levels.old.items - 23) levels.old.items) }
{
    if let Some(last) = levels.last_chunk::<23>() {
        let last = *last;
        levels.clear();
        levels.extend_from_slice(&last)?;
    }
    Ok(())
}

/// Prepares each slot for its part of so many places from one on.
fn prepare_slots(slots: &mut [SlotTracker], place: u64, count: usize) -> Result<(), AllocError>
    requires slots { length slots.old ≡ 8 }
    requires room { count < 2 ^ 60 }
    ensures slots { length slots.new ≡ 8 }
    ensures prepared { OnOk result ((slot : ℕ) (d : HeldSlot) → slot < 8
        → IsPrepared place count slot (slice_index_or slots.old slot d) (slice_index_or slots.new slot d)) }
{
    for index in 0..8 {
        let first = (index + 8 - (place % 8) as usize) % 8;
        let slot = &mut slots[index];
        slot.prepare(first, (count + 7 - first) / 8)?;
    }
    Ok(())
}

/// Puts the tones of the slots in a row, from a place on.
fn put_in_row(slots: &[SlotTracker], place: u64, line: &mut [PlaceTones])
    requires slots { length slots.now ≡ 8 }
    requires tones { (slot : ℕ) (d : HeldSlot) → slot < 8
        → length (slice_index_or slots.now slot d).tones ≡ (length line.old + 7 - ahead_of place slot) / 8 }
    ensures length { length line.new ≡ length line.old }
    ensures row { (i : ℕ) (d : PlaceTones) (e : HeldSlot) → i < length line.old
        → slice_index_or line.new i d
        ≡ slice_index_or (slice_index_or slots.now ((place % 8 + i) % 8) e).tones (i / 8) d }
{
    let first = (place % 8) as usize;
    for ahead in 0..8 {
        let tones = slots[(first + ahead) % 8].tones();
        put_slot(tones, ahead, line);
    }
}

/// Puts the tones of a slot in a row, at each eighth place from one on.
fn put_slot(tones: &[PlaceTones], ahead: usize, line: &mut [PlaceTones])
    requires ahead { ahead < 8 }
    requires tones { length tones.now ≡ (length line.old + 7 - ahead) / 8 }
    ensures length { length line.new ≡ length line.old }
    ensures put { (i : ℕ) (d : PlaceTones) → i < length line.old → i % 8 ≡ ahead
        → slice_index_or line.new i d ≡ slice_index_or tones.now (i / 8) d }
    ensures kept { (i : ℕ) (d : PlaceTones) → i % 8 ≢ ahead
        → slice_index_or line.new i d ≡ slice_index_or line.old i d }
{
    for index in 0..tones.len() {
        line[8 * index + ahead] = tones[index];
    }
}

/// Takes back what a block has begun.
fn forget(alloc: Global, remover: &mut BlockMean, levels: &mut Vec<i32>, line: &mut Vec<PlaceTones>)
    ensures left { remover.new.left ≡ 15 }
    ensures levels { levels.new.items ≡ [] }
    ensures line { line.new.items ≡ [] }
{
    *remover = BlockMean::new(alloc);
    levels.clear();
    line.clear();
}
