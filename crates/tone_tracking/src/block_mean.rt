//! Blocks of samples without their mean.

ghost use Rattle.std.specs.Prelude.{◌≡◌, ◌+◌, ◌-◌, ◌<◌, ◌≤◌, ◌^◌, ℕ, ℤ, List, [], OnOk, drop, length, slice_index_or, unsigned_abs};
ghost use Rattle.std.specs.List.{All};
ghost use Rattle.tone_tracking.specs.BlockLevels.{AreSmallBelow, level_at, sum_from};
ghost use Rattle.tone_tracking.specs.HeldLine.{Settles};
ghost use Rattle.tone_tracking.specs.HeldMean.{StandsFor};

use crate::mean_remover::{AHEAD, less_mean, slid_sum};
use std::alloc::{AllocError, Global};
use std::marker::Model;

/// The most samples that are taken at once: few, so that they take little room and are at hand when their sums are taken.
const PIECE: usize = 2048;

/// Takes samples block by block, and gives what a [`crate::MeanRemover`] gives of them one by one, in less than half of its time:
/// the samples of a piece stand in a row after the last 32, so that none is looked up in a ring.
#[derive(Drop)]
pub(crate) struct BlockMean {
    recent: [i16; 32],
    sum: i32,
    left: u8,
    samples: Vec<i16>,
}

impl Model for BlockMean {
    ghost use Rattle.tone_tracking.specs.HeldMean.{HeldMean, IsSumOf};

    ghost Value = { HeldMean };

    ghost view = { λ s. record { samples = s.recent; left = s.left } };

    ghost invariant = { λ s. IsSumOf s.recent s.sum };
}

impl BlockMean {
    /// One that has taken nothing.
    pub(crate) fn new(alloc: Global) -> BlockMean
        ensures { StandsFor result [] }
    {
        BlockMean {
            recent: [0; 32],
            sum: 0,
            left: AHEAD,
            samples: Vec::new(alloc),
        }
    }

    /// Takes a block of samples, and adds what it settles.
    pub(crate) fn feed(&mut self, block: &[i16], levels: &mut Vec<i32>) -> Result<(), AllocError>
        requires small { All (λ level. unsigned_abs level ≤ 262144) levels.old.items }
        requires room { length levels.old.items + length block.now < 2 ^ 60 }
        ensures settled { OnOk result (Settles self.old self.new levels.old.items levels.new.items block.now) }
        ensures left { OnOk result (self.new.left ≡ self.old.left - length block.now) }
        ensures length { OnOk result (length levels.new.items
            ≡ length levels.old.items + (length block.now - self.old.left)) }
        ensures small { OnOk result (All (λ level. unsigned_abs level ≤ 262144) levels.new.items) }
    {
        levels.reserve(block.len())?;
        for piece in block.chunks(PIECE) {
            self.take(piece, levels)?;
        }
        Ok(())
    }

    /// Takes a piece of a block, and adds what it settles.
    fn take(&mut self, piece: &[i16], levels: &mut Vec<i32>) -> Result<(), AllocError>
        requires small { All (λ level. unsigned_abs level ≤ 262144) levels.old.items }
        requires room { length levels.old.items + length piece.now < 2 ^ 60 }
        ensures settled { OnOk result (Settles self.old self.new levels.old.items levels.new.items piece.now) }
        ensures left { OnOk result (self.new.left ≡ self.old.left - length piece.now) }
        ensures length { OnOk result (length levels.new.items
            ≡ length levels.old.items + (length piece.now - self.old.left)) }
        ensures small { OnOk result (All (λ level. unsigned_abs level ≤ 262144) levels.new.items) }
    {
        self.samples.clear();
        self.samples.extend_from_slice(&self.recent)?;
        self.samples.extend_from_slice(piece)?;
        let silent = usize::from(self.left).min(piece.len());
        let known = levels.len();
        levels.resize(known + (piece.len() - silent), 0)?;
        let sum = slide(&self.samples, self.sum, silent);
        self.sum = write_levels(&self.samples, sum, silent, levels.as_mut_slice(), known);
        self.recent = last_samples(&self.samples);
        self.left -= silent as u8;
        Ok(())
    }
}

/// The last 32 samples.
fn last_samples(samples: &[i16]) -> [i16; 32]
    requires { 32 ≤ length samples.now }
    ensures { result ≡ drop (length samples.now - 32) samples.now }
{
    *samples.last_chunk().unwrap()
}

/// The sum of 32 samples so many places on.
fn slide(samples: &[i16], sum: i32, count: usize) -> i32
    requires small { AreSmallBelow 32 samples.now }
    requires sum { sum ≡ sum_from samples.now 0 }
    requires inside { count + 32 ≤ length samples.now }
    ensures sum { result ≡ sum_from samples.now count }
    ensures small { AreSmallBelow (count + 32) samples.now }
{
    let mut sum = sum;
    for place in 0..count {
        sum = slid_sum(sum, samples[place], samples[place + 32]);
    }
    sum
}

/// Writes the samples without their mean from a place on, by the sum of the 32 samples there, and gives the sum of the
/// last 32.
fn write_levels(samples: &[i16], sum: i32, from: usize, levels: &mut [i32], first: usize) -> i32
    requires samples { AreSmallBelow (from + 32) samples.now }
    requires sum { sum ≡ sum_from samples.now from }
    requires inside { from + 32 ≤ length samples.now }
    requires room { first + (length samples.now - 32 - from) ≡ length levels.old }
    requires levels { All (λ level. unsigned_abs level ≤ 262144) levels.old }
    ensures sum { result ≡ sum_from samples.now (length samples.now - 32) }
    ensures samples { AreSmallBelow (length samples.now) samples.now }
    ensures same { (i : ℕ) (d : ℤ) → i < first → slice_index_or levels.new i d ≡ slice_index_or levels.old i d }
    ensures levels { (i : ℕ) (d : ℤ) → first + i < length levels.old
        → slice_index_or levels.new (first + i) d ≡ level_at samples.now (from + i) }
    ensures small { All (λ level. unsigned_abs level ≤ 262144) levels.new }
{
    let mut sum = sum;
    for place in from..samples.len() - 32 {
        sum = slid_sum(sum, samples[place], samples[place + 32]);
        levels[first + (place - from)] = less_mean(samples[place + 17], sum);
    }
    sum
}
