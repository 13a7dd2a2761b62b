//! Laws of what is heard. A law is the contract of a function that does nothing.

ghost use Rattle.std.specs.Prelude.{◌≡◌, ◌++◌, Bool, false, ℤ, List, [], ◌∷◌, map};
ghost use Rattle.sample_ring.specs.declared.got.Got.{Got};
ghost use Rattle.frame_merge.specs.declared.candidate.Candidate.{Candidate};
ghost use Rattle.slicer_bank.specs.Stretches.{stretches};
ghost use Rattle.fx25_receiver.specs.declared.heard.Heard.{Heard};
ghost use Rattle.fx25_ring.specs.HeardInBlocks.{AreDueInBlocks, AreHeardInBlocks, AreMergedBy, placed};

/// In any answers exactly one list of items is heard, and one is due of two lists of answers, the second of which goes on from
/// the first.
pub fn one_list_is_heard()
    ensures some { (sensitive : Bool) (answers : List Got) → (items : List Candidate)
        × AreHeardInBlocks sensitive answers items }
    ensures one { (sensitive : Bool) (answers : List Got) (items others : List Candidate)
        → AreHeardInBlocks sensitive answers items → AreHeardInBlocks sensitive answers others → items ≡ others }
    ensures due { (sensitive ended : Bool) (before now : List Got) (items others : List Candidate)
        → AreDueInBlocks sensitive ended before now items → AreDueInBlocks sensitive ended before now others
        → items ≡ others }
    ensures at_once { (before now : List Got) (items all : List Candidate) → AreDueInBlocks false false before now items
        → AreHeardInBlocks false before all → AreHeardInBlocks false now (all ++ items) }
{}

/// If the answers of the reader are one stretch of samples from the first on, what is heard is exactly what a receiver of
/// FX.25 hears of these samples.
pub fn one_stretch_is_heard()
    ensures { (sensitive : Bool) (answers : List Got) (x : List ℤ) (own : List Heard)
        → stretches answers ≡ (record { begin = 0; samples = x }) ∷ []
        → AreMergedBy sensitive x own → AreHeardInBlocks sensitive answers (map (placed 0) own) }
{}
