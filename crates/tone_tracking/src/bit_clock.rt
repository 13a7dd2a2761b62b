//! A clock in step with the sender's bits.
//!
//! A line changes its tone only between bits, so the places of the changes tell where bits begin and end. The clock's
//! phase advances with each place by about an eighth of a bit. At a change it ought to be 0; a part of what it is
//! instead is taken from the phase, and a smaller part from the rate, as a phase-locked loop of the second order does.

ghost use Rattle.std.specs.Prelude.{◌≡◌, ℕ, ◌+◌, pos, negsuc, ◌≤ℤ◌, ◌<ℤ◌, ◌-ℤ◌, int_le, if◌then◌else◌};
ghost use Rattle.tone_table.specs.declared.tone.Tone.{Tone};
ghost use Rattle.tone_tracking.specs.Clock.{changes, clock_after, next_clock, reads, phase_pulled, rate_correction};
ghost use Rattle.tone_tracking.specs.Clock.{rate_pulled};

use std::marker::Model;
use tone_table::Tone;

/// How strongly changes of tone pull a clock.
#[derive(Clone, Copy, PartialEq, Eq, Debug)]
pub enum Pull {
    /// For long frames in noise.
    Slow,
    /// For senders whose clock is far off.
    Fast,
}

/// The middle of a bit: half a bit after a change.
const MIDDLE: i32 = 524288;

/// One bit.
const BIT: i32 = 1048576;

/// The phase of the sender's bits, in 2^20 a bit, and its rate.
#[derive(Debug, Drop)]
pub struct BitClock {
    pull: Pull,
    phase: i32,
    rate: i32,
    before: Tone,
}

impl Model for BitClock {
    ghost use Rattle.std.specs.Prelude.{ℤ, pos, negsuc, ◌≤ℤ◌, ◌<ℤ◌};
    ghost use Rattle.tone_tracking.specs.declared.bit_clock.Pull.{Pull};
    ghost use Rattle.tone_tracking.specs.Clock.{Clock};

    ghost Value = { Pull × Clock };

    ghost view = { λ s. (s.pull, record { phase = s.phase; rate = s.rate; before = s.before }) };

    ghost invariant = { λ s. (negsuc 524287 ≤ℤ s.phase) × (s.phase <ℤ pos 524288) × (pos 124928 ≤ℤ s.rate)
        × (s.rate ≤ℤ pos 137216) };
}

impl BitClock {
    /// A clock at place 0.
    pub fn new(pull: Pull) -> BitClock
        ensures pull { result.0 ≡ pull }
        ensures stands_for { (tones : ℕ → Tone) → result.1 ≡ clock_after pull tones 0 }
    {
        BitClock {
            pull,
            phase: 0,
            rate: BIT / 8,
            before: Tone::Mark,
        }
    }

    /// Takes the tone at the next place, and says whether a bit is read there.
    pub fn step(&mut self, tone: Tone) -> bool
        ensures pull { self.new.0 ≡ self.old.0 }
        ensures next { self.new.1 ≡ next_clock self.old.0 self.old.1 tone }
        ensures reading { result ≡ reads self.old.1 }
        ensures stands_for { (tones : ℕ → Tone) (place : ℕ) → self.old.1 ≡ clock_after self.old.0 tones place → tone
            ≡ tones place
            → self.new.1 ≡ clock_after self.old.0 tones (place + 1) }
    {
        let ahead = self.phase + self.rate;
        let phase = passed(ahead);
        if has_changed(self.before, tone) {
            self.phase = phase_pulled(self.pull, phase);
            self.rate = rate_pulled(self.pull, phase, self.rate);
            self.before = tone;
            return ahead >= MIDDLE;
        }
        self.phase = phase;
        self.before = tone;
        ahead >= MIDDLE
    }
}

/// Whether the tone changes.
fn has_changed(before: Tone, tone: Tone) -> bool
    ensures { result ≡ changes before tone }
{
    before != tone
}

/// A phase that has passed the middle of a bit is in the next one.
fn passed(phase: i32) -> i32
    requires { (negsuc 524287 ≤ℤ phase) × (phase ≤ℤ pos 1000000) }
    ensures phase { result ≡ (if int_le (pos 524288) phase then phase -ℤ pos 1048576 else phase) }
    ensures least { negsuc 524287 ≤ℤ result }
    ensures most { result <ℤ pos 524288 }
{
    if phase >= MIDDLE { phase - BIT } else { phase }
}

/// The rate after a change at a phase: within 4.7 percent of an eighth of a bit.
fn rate_pulled(pull: Pull, phase: i32, rate: i32) -> i32
    requires phase { (negsuc 1048576 ≤ℤ phase) × (phase ≤ℤ pos 1048576) }
    requires rate { (pos 0 ≤ℤ rate) × (rate ≤ℤ pos 137216) }
    ensures rate { result ≡ rate_pulled pull phase rate }
    ensures least { pos 124928 ≤ℤ result }
    ensures most { result ≤ℤ pos 137216 }
{
    (rate - rate_correction(pull, phase)).clamp(124928, 137216)
}

/// What a change at a phase takes from the rate.
fn rate_correction(pull: Pull, phase: i32) -> i32
    requires { (negsuc 1048576 ≤ℤ phase) × (phase ≤ℤ pos 1048576) }
    ensures correction { result ≡ rate_correction pull phase }
    ensures bound { (negsuc 1048576 ≤ℤ result) × (result ≤ℤ pos 1048576) }
{
    match pull {
        Pull::Slow => phase >> 14,
        Pull::Fast => phase >> 10,
    }
}

/// The phase after a change at a phase.
fn phase_pulled(pull: Pull, phase: i32) -> i32
    requires { (negsuc 524287 ≤ℤ phase) × (phase <ℤ pos 524288) }
    ensures phase { result ≡ phase_pulled pull phase }
    ensures least { negsuc 524287 ≤ℤ result }
    ensures most { result <ℤ pos 524288 }
{
    let correction = match pull {
        Pull::Slow => (3 * phase) >> 5,
        Pull::Fast => (3 * phase) >> 3,
    };
    phase - correction
}
