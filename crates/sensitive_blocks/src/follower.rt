//! Tones decided in phase of samples without their mean, and the clocks that follow them.
ghost use Rattle.std.specs.Prelude.{◌≡◌, ◌+◌, ◌-◌, ◌<◌, ◌^◌, ℕ, ℤ, pos, List, [], length, slice_index_or};
ghost use Rattle.tone_tracking.specs.HeldTracker.{tone_before};
ghost use Rattle.sensitive_receiver.specs.Lanes.{added_places, tones};
ghost use Rattle.sensitive_blocks.specs.Held.{FollowerHasTaken, known_at};

use crate::readings::Readings;
use std::marker::Model;
use tone_table::Tone;
use tone_tracking::{BitClock, MeanRemover, Pull, Reach, ToneLists};

/// Takes samples, and says of each place that they decide which clocks read a bit there.
#[derive(Drop)]
pub(crate) struct Follower {
    position: u64,
    remover: MeanRemover,
    lists: ToneLists,
    slow_near: BitClock,
    slow_far: BitClock,
    fast_near: BitClock,
    slow_alone: BitClock,
}

impl Model for Follower {
    ghost use Rattle.std.specs.Prelude.{◌≡◌, ◌-◌};
    ghost use Rattle.tone_tracking.specs.declared.bit_clock.Pull.TheVariants.{Slow, Fast};
    ghost use Rattle.sensitive_blocks.specs.Held.{HeldFollower};

    ghost Value = { HeldFollower };

    ghost view = { λ s. record {
      position = s.position;
      remover = s.remover;
      lists = s.lists;
      slow_near = s.slow_near;
      slow_far = s.slow_far;
      fast_near = s.fast_near;
      slow_alone = s.slow_alone;
    } };

    ghost invariant = { λ s. (s.remover.left ≡ 15 - s.position) × (s.lists.count ≡ s.position - 15)
        × (s.slow_near.0 ≡ Slow) × (s.slow_far.0 ≡ Slow) × (s.fast_near.0 ≡ Fast) × (s.slow_alone.0 ≡ Slow) };
}

impl Follower {
    /// A follower that has taken nothing.
    pub(crate) fn new() -> Follower
        ensures has_taken { (x : List ℤ) → FollowerHasTaken result x }
        ensures position { result.position ≡ 0 }
    {
        Follower {
            position: 0,
            remover: MeanRemover::new(),
            lists: ToneLists::new(),
            slow_near: BitClock::new(Pull::Slow),
            slow_far: BitClock::new(Pull::Slow),
            fast_near: BitClock::new(Pull::Fast),
            slow_alone: BitClock::new(Pull::Slow),
        }
    }

    /// Takes a sample, and gives what is known of the place that it decides.
    pub(crate) fn push(&mut self, sample: i16) -> Readings
        requires { self.old.position < 2 ^ 48 }
        ensures has_taken { (x : List ℤ) → FollowerHasTaken self.old x → self.old.position < length x
            → sample ≡ slice_index_or x self.old.position (pos 0) → FollowerHasTaken self.new x }
        ensures known { (x : List ℤ) → FollowerHasTaken self.old x → self.old.position < length x
            → sample ≡ slice_index_or x self.old.position (pos 0)
            → result ≡ known_at x (self.old.position - 30) }
        ensures position { self.new.position ≡ self.old.position + 1 }
    {
        self.position += 1;
        let given = self.remover.push(sample);
        let Some(level) = given else {
            return Readings::NONE;
        };
        let decided = self.lists.push(level);
        if !decided {
            return Readings::NONE;
        }
        let near = self.lists.tone_before(Reach::Near, 0);
        let far = self.lists.tone_before(Reach::Far, 0);
        let alone = self.lists.tone_before(Reach::Alone, 0);
        Readings {
            decided: true,
            slow_near: self.slow_near.step(near),
            slow_far: self.slow_far.step(far),
            fast_near: self.fast_near.step(near),
            slow_alone: self.slow_alone.step(alone),
        }
    }

    /// How many samples it has taken.
    pub(crate) fn position(&self) -> u64
        ensures { result ≡ self.now.position }
    {
        self.position
    }

    /// The tone of a list so many places before the one that was decided last.
    pub(crate) fn tone_before(&self, reach: Reach, back: u8) -> Tone
        requires back { back < 32 }
        requires room { self.now.position < 2 ^ 49 }
        ensures { (x : List ℤ) → FollowerHasTaken self.now x
            → result ≡ tone_before (tones reach x) (added_places self.now.position) back }
    {
        self.lists.tone_before(reach, back)
    }
}
