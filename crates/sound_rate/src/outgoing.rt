//! From the samples of the modem to those that go out.
ghost use Rattle.std.specs.Prelude.{◌≡◌, ◌+◌, ◌*◌, ◌≤◌, ℤ, List, [], ◌++◌, length, take};
ghost use Rattle.resampler.specs.Filtered.{interpolated};
ghost use Rattle.resampler.specs.Held.{HasStuffed};
ghost use Rattle.sound_rate.specs.declared.rate.Rate.{Rate};
ghost use Rattle.sound_rate.specs.Rates.{written_at};
ghost use Rattle.sound_rate.specs.HeldRates.{HasMade};

use crate::rate::Rate;
use resampler::Interpolator;

/// The samples of the modem in, those at a rate out: `new`, then `feed` for each block.
#[derive(Debug, Drop)]
pub enum Outgoing {
    /// They are those of the modem.
    Narrow,
    /// They are five times as many.
    Wide(Interpolator),
}

impl Outgoing {
    /// One that has taken nothing.
    pub fn new(rate: Rate) -> Outgoing
        ensures { HasMade rate result [] }
    {
        match rate {
            Rate::Narrow => Outgoing::Narrow,
            Rate::Wide => Outgoing::Wide(Interpolator::new()),
        }
    }

    /// Takes a block, puts the samples that go out for it at the front of `out`, and tells how many they are.
    pub fn feed(&mut self, block: &[i16], out: &mut [i16]) -> usize
        requires { 5 * length block.now ≤ length out.old }
        ensures stands_for { (rate : Rate) (x : List ℤ) → HasMade rate self.old x
            → HasMade rate self.new (x ++ block.now) }
        ensures given { (rate : Rate) (x : List ℤ) → HasMade rate self.old x
            → written_at rate (x ++ block.now) ≡ written_at rate x ++ take result out.new }
        ensures count { result ≤ 5 * length block.now }
        ensures room { length out.new ≡ length out.old }
    {
        match self {
            Outgoing::Narrow => put(out, 0, block),
            Outgoing::Wide(interpolator) => feed_interpolator(interpolator, block, out),
        }
    }
}

/// Puts the samples that an interpolator gives for a block at the front of `out`, and tells how many they are.
fn feed_interpolator(interpolator: &mut Interpolator, block: &[i16], out: &mut [i16]) -> usize
    requires { 5 * length block.now ≤ length out.old }
    ensures fed { (x : List ℤ) → HasStuffed interpolator.old x → HasStuffed interpolator.new (x ++ block.now)
        × (interpolated (x ++ block.now) ≡ interpolated x ++ take result out.new) }
    ensures count { result ≡ 5 * length block.now }
    ensures room { length out.new ≡ length out.old }
{
    let mut count = 0;
    for sample in block {
        count = put(out, count, &interpolator.push(*sample));
    }
    count
}

/// Puts samples after so many others, and tells how many they are then.
fn put(out: &mut [i16], count: usize, samples: &[i16]) -> usize
    requires { count + length samples.now ≤ length out.old }
    ensures put { take result out.new ≡ take count out.old ++ samples.now }
    ensures count { result ≡ count + length samples.now }
    ensures room { length out.new ≡ length out.old }
{
    let end = count + samples.len();
    out[count..end].copy_from_slice(samples);
    end
}
