//! Lanes that hear samples stretch by stretch.

ghost use Rattle.std.specs.Prelude.{◌≡◌, ◌+◌, ◌<◌, ◌≤◌, ◌^◌, ℕ, Bool, List, [], length, OnOk};
ghost use Rattle.std.specs.List.{All};
ghost use Rattle.frame_merge.specs.declared.candidate.Candidate.{Candidate};
ghost use Rattle.slicer_bank.specs.Stretches.{Stretch, stretch_at};
ghost use Rattle.stretch_reader.specs.Turns.{Brings, Finishes, with_samples};

use frame_merge::Candidate;
use tnc_base::OutOfMemory;

/// Lanes that hear samples stretch by stretch: `begin_at`, then `hear` for each block of samples, then `finish`, and
/// `begin_at` again. They are sensitive or not, and listen for so many flags in a row, from first to last.
pub trait StretchLanes {
    /// What is heard of a stretch that has ended, by whether the lanes are sensitive.
    ghost heard: { Bool → Stretch → List Candidate → Type 0 };

    /// The lanes have heard a stretch and gave these items of it.
    ghost holds: { Self → Stretch → List Candidate → Type 0 };

    /// The lanes by which other stations are heard have heard a stretch. This outlasts its end.
    ghost listens: { Self → Stretch → Type 0 };

    /// What lanes can give that have come to a position, by whether they are sensitive.
    ghost comes: { Bool → ℕ → Candidate → Type 0 };

    /// The position of the next sample.
    ghost place: { Self → ℕ };

    /// All lanes have come as far.
    ghost in_step: { Self → Type 0 };

    /// Whether they are sensitive.
    ghost sensitive: { Self → Bool };

    /// For how many flags in a row they listen.
    ghost flags: { Self → ℕ };

    /// Begins anew, with the sample at a position as the first.
    fn begin_at(&mut self, position: u64) -> Result<(), OutOfMemory>
        ensures holds { OnOk result (holds self.new (stretch_at position) []) }
        ensures listens { OnOk result (listens self.new (stretch_at position)) }
        ensures place { OnOk result (place self.new ≡ position) }
        ensures step { OnOk result (in_step self.new) }
        ensures sensitive { sensitive self.new ≡ sensitive self.old }
        ensures flags { flags self.new ≡ flags self.old };

    /// Hears samples, and adds the items that they settle.
    fn hear(&mut self, samples: &[i16], items: &mut Vec<Candidate>) -> Result<(), OutOfMemory>
        requires room { place self.old + length samples.now < 2 ^ 48 }
        requires step { in_step self.old }
        ensures heard { OnOk result ((s : Stretch) (own : List Candidate) → holds self.old s own
            → Brings (holds self.new) (with_samples s samples.now) own items.old.items items.new.items) }
        ensures listens { OnOk result ((s : Stretch) → listens self.old s
            → listens self.new (with_samples s samples.now)) }
        ensures comes { (from : ℕ) → from ≤ place self.old
            → OnOk result (All (comes (sensitive self.old) from) items.old.items
            → All (comes (sensitive self.old) from) items.new.items) }
        ensures place { OnOk result (place self.new ≡ place self.old + length samples.now) }
        ensures step { OnOk result (in_step self.new) }
        ensures sensitive { sensitive self.new ≡ sensitive self.old }
        ensures flags { flags self.new ≡ flags self.old };

    /// Adds the items that are left of the stretch, which has ended.
    fn finish(&mut self, items: &mut Vec<Candidate>) -> Result<(), OutOfMemory>
        requires room { place self.old < 2 ^ 48 }
        requires step { in_step self.old }
        ensures rest { OnOk result ((s : Stretch) (own : List Candidate) → holds self.old s own
            → Finishes (heard (sensitive self.old)) s own items.old.items items.new.items) }
        ensures listens { OnOk result ((s : Stretch) → listens self.old s → listens self.new s) }
        ensures comes { (from : ℕ) → from ≤ place self.old
            → OnOk result (All (comes (sensitive self.old) from) items.old.items
            → All (comes (sensitive self.old) from) items.new.items) }
        ensures sensitive { sensitive self.new ≡ sensitive self.old }
        ensures flags { flags self.new ≡ flags self.old };
}
