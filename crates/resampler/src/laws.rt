//! Laws of the filter. A law is the contract of a function that does nothing.

ghost use Rattle.std.specs.Prelude.{◌≡◌, ◌+◌, ◌-◌, ◌*◌, ◌/◌, ◌<◌, ◌≤◌, ℕ, ℤ, pos, List, ◌++◌, length, take, replicate};
ghost use Rattle.std.specs.Prelude.{slice_index_or};
ghost use Rattle.resampler.specs.Filtered.{zeros, filtered, settled, decimated, decimated_settled};

/// What samples settle of the filtered ones stays the same with any more samples.
pub fn filter_settles()
    ensures { (x y : List ℤ) → take (length x - 15) (filtered (x ++ y)) ≡ settled x }
{}

/// Fifteen zeros at the end settle all of them.
pub fn filter_ends()
    ensures { (x : List ℤ) → settled (x ++ zeros 15) ≡ filtered x }
{}

/// The samples at 9600 a second are each fifth filtered one.
pub fn decimated_samples()
    ensures { (x : List ℤ) (k : ℕ) → k < length (decimated x)
        → slice_index_or (decimated x) k (pos 0) ≡ slice_index_or (filtered x) (5 * k) (pos 0) }
{}

/// What samples settle of those at 9600 a second stays the same with any more samples.
pub fn decimator_settles()
    ensures { (x y : List ℤ) → take ((length x - 15 + 4) / 5) (decimated (x ++ y)) ≡ decimated_settled x }
{}

/// Fifteen zeros at the end settle all of them.
pub fn decimator_ends()
    ensures { (x : List ℤ) → decimated_settled (x ++ zeros 15) ≡ decimated x }
{}

/// A constant keeps its level wherever fifteen samples stand on both sides.
pub fn constant_level()
    ensures { (level count n : ℕ) → level ≤ 32767 → 15 ≤ n → n + 15 < count
        → slice_index_or (filtered (replicate count (pos level))) n (pos 0) ≡ pos level }
{}
