//! Laws on the candidates of samples. A law is the contract of a function that does nothing.

ghost use Rattle.std.specs.Prelude.{◌≡◌, ◌+◌, ◌*◌, ◌/◌, ◌≤◌, ℕ, ℤ, List, ◌++◌, length};
ghost use Rattle.frame_merge.specs.declared.candidate.Candidate.{Candidate};
ghost use Rattle.hf_modem.specs.Candidates.{AreCandidates};
ghost use Rattle.hf_modem.specs.MergedItems.{AreMerged, AreMergedBetween};

/// Samples have one list of candidates.
pub fn one_list_of_hf_candidates()
    ensures { (x : List ℤ) (items others : List Candidate) → AreCandidates x items → AreCandidates x others → items
        ≡ others }
{}

/// All samples have a list of candidates, so what is said of their candidates is always said of some.
pub fn some_list_of_hf_candidates()
    ensures { (x : List ℤ) → (items : List Candidate) × AreCandidates x items }
{}

/// The items of samples whose end is below a number, and the next ones, which more samples gave, are those of all
/// samples.
pub fn hf_items_join()
    ensures { (from middle to : ℕ) (x y : List ℤ) (items more : List Candidate) → from ≤ middle → middle ≤ to
        → middle ≤ length x / 4 → AreMergedBetween from middle x items → AreMergedBetween middle to (x ++ y) more
        → AreMergedBetween from to (x ++ y) (items ++ more) }
{}

/// The items whose end is at most a quarter of the number of samples are all.
pub fn hf_items_are_all()
    ensures { (x : List ℤ) (items : List Candidate) → AreMergedBetween 0 (length x / 4 + 1) x items
        → AreMerged x items }
{}
