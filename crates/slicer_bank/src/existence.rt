//! The law of existence for candidates. A law is the contract of a function that does nothing.

ghost use Rattle.std.specs.Prelude.{ℤ, List};
ghost use Rattle.frame_merge.specs.declared.candidate.Candidate.{Candidate};
ghost use Rattle.slicer_bank.specs.Candidates.{AreCandidates};

/// All samples have a list of candidates, so what is said of their candidates is always said of some.
pub fn some_list_of_candidates()
    ensures { (x : List ℤ) → (items : List Candidate) × AreCandidates x items }
{}
