//! The tones of one slot: of every eighth place.

ghost use Rattle.std.specs.Prelude.{◌≡◌, ℕ, ◌+◌, ◌-◌, ◌*◌, ◌<◌, ◌≤◌, ◌^◌, List, length, OnOk, unsigned_abs, slice_index_or};
ghost use Rattle.std.specs.List.{All};
ghost use Rattle.tone_tracking.specs.declared.correlation.Correlations.{Correlations};
ghost use Rattle.tone_tracking.specs.Correlation.{AreWithin, correlations};
ghost use Rattle.tone_tracking.specs.Slots.{AreEighthTones, ArePastsAt, ArePastsWithin, Decides, Fits, HasDecidedNone};

use crate::correlation::{Correlations, correlate};
use crate::pasts::{Pasts, decide_place};
use crate::place_tones::PlaceTones;
use std::alloc::{AllocError, Global};
use std::marker::Model;

/// Decides the windows of one slot in all lists: `prepare`, then `decide` for each line of levels. Slots share nothing, so
/// they can be decided beside each other.
#[derive(Drop)]
pub(crate) struct SlotTracker {
    first: usize,
    pasts: Pasts,
    tones: Vec<PlaceTones>,
}

impl Model for SlotTracker {
    ghost use Rattle.tone_tracking.specs.Slots.{ArePastsWithin, HeldSlot};

    ghost Value = { HeldSlot };

    ghost view = { λ s. record { first = s.first; pasts = s.pasts; tones = s.tones.items } };

    ghost invariant = { λ s. ArePastsWithin s.pasts };
}

impl SlotTracker {
    /// A slot that has decided nothing.
    pub(crate) fn new(alloc: Global) -> SlotTracker
        ensures { HasDecidedNone result }
    {
        SlotTracker {
            first: 0,
            pasts: Pasts::NONE,
            tones: Vec::new(alloc),
        }
    }

    /// Makes room for the tones of the windows of which the first begins at a level, and of which so many are to be decided.
    pub(crate) fn prepare(&mut self, first: usize, count: usize) -> Result<(), AllocError>
        ensures first { OnOk result (self.new.first ≡ first) }
        ensures count { OnOk result (length self.new.tones ≡ count) }
        ensures pasts { self.new.pasts ≡ self.old.pasts }
    {
        self.first = first;
        self.tones.resize(count, PlaceTones::MARK)
    }

    /// The tones that were decided last.
    pub(crate) fn tones(&self) -> &[PlaceTones]
        ensures { result.now ≡ self.now.tones }
    {
        &self.tones
    }

    /// Decides as many windows among these levels as it was prepared for.
    pub(crate) fn decide(&mut self, levels: &[i32])
        requires levels { All (λ level. unsigned_abs level ≤ 262144) levels.now }
        requires fits { Fits (length levels.now) self.old }
        ensures { Decides levels.now self.old self.new }
    {
        decide_windows(
            levels,
            self.first,
            &mut self.pasts,
            self.tones.as_mut_slice(),
        );
    }
}

/// Decides windows that begin eight levels apart, from one on, and writes the tones of each.
fn decide_windows(levels: &[i32], first: usize, pasts: &mut Pasts, tones: &mut [PlaceTones])
    requires levels { All (λ level. unsigned_abs level ≤ 262144) levels.now }
    requires pasts { ArePastsWithin pasts.old }
    requires fits { 1 ≤ length tones.old → first + (8 * length tones.old + 16) ≤ length levels.now }
    ensures within { ArePastsWithin pasts.new }
    ensures count { length tones.new ≡ length tones.old }
    ensures pasts { (windows : ℕ → Correlations) (base : ℕ)
        → ((i : ℕ) → correlations levels.now i ≡ windows (base + i))
        → ArePastsAt pasts.old windows (base + first)
        → ArePastsAt pasts.new windows (base + first + 8 * length tones.old) }
    ensures tones { (windows : ℕ → Correlations) (base : ℕ)
        → ((i : ℕ) → correlations levels.now i ≡ windows (base + i))
        → ArePastsAt pasts.old windows (base + first) → AreEighthTones tones.new windows (base + first) }
{
    if tones.is_empty() {
        return;
    }
    let mut held = *pasts;
    let mut now = correlate_at(levels, first);
    let mut next = correlate_at(levels, first + 8);
    for index in 0..tones.len() {
        let later = correlate_at(levels, first + 8 * index + 16);
        tones[index] = decide_place(&mut held, &now, &next, &later);
        now = next;
        next = later;
    }
    *pasts = held;
}

/// The correlations of the window that begins at a level.
fn correlate_at(levels: &[i32], place: usize) -> Correlations
    requires levels { All (λ level. unsigned_abs level ≤ 262144) levels.now }
    requires place { place + 8 ≤ length levels.now }
    ensures sums { result ≡ correlations levels.now place }
    ensures bound { AreWithin result }
{
    let window = [
        levels[place],
        levels[place + 1],
        levels[place + 2],
        levels[place + 3],
        levels[place + 4],
        levels[place + 5],
        levels[place + 6],
        levels[place + 7],
    ];
    correlate(&window)
}
