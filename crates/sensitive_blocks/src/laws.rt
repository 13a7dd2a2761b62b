//! Laws on the definitions. A law is the contract of a function that does nothing.
ghost use Rattle.std.specs.Prelude.{◌≡◌, ◌++◌, ◌≤◌, ◌<◌, ℕ, ℤ, List, length, map};
ghost use Rattle.std.specs.List.{All};
ghost use Rattle.frame_merge.specs.declared.candidate.Candidate.{Candidate};
ghost use Rattle.frame_merge.specs.Merged.{merged as merged_plainly};
ghost use Rattle.fx25_receiver.specs.declared.heard.Heard.{Heard};
ghost use Rattle.fx25_receiver.specs.WithoutBlocks.{candidate_of};
ghost use Rattle.sensitive_receiver.specs.Candidates.{AreHeard as AreCandidates};
ghost use Rattle.sensitive_blocks.specs.Heard.{AreMerged, settled};
ghost use Rattle.sensitive_blocks.specs.Held.{HeldReceiver, StandsFor};
ghost use Rattle.sensitive_blocks.specs.WithoutBlocks.{HasNoBlock};

/// Samples have exactly one list of merged items. What of it ends below a settled position stays when more samples follow, and what
/// a receiver has given of samples is exactly what is settled of it.
pub fn settled_items_stay()
    ensures some { (x : List ℤ) → (items : List Heard) × AreMerged x items }
    ensures one { (x : List ℤ) → (items others : List Heard) → AreMerged x items → AreMerged x others
        → items ≡ others }
    ensures stay { (x y : List ℤ) → (end : ℕ) → (items whole : List Heard) → end ≤ settled (length x)
        → AreMerged x items → AreMerged (x ++ y) whole
        → (front rest more : List Heard) × (items ≡ front ++ rest) × (whole ≡ front ++ more)
        × All (λ item. item.end < end) front × All (λ item. end ≤ item.end) rest
        × All (λ item. end ≤ item.end) more }
    ensures given { (receiver : HeldReceiver) → (x : List ℤ) → (given items : List Heard) → StandsFor receiver x given
        → AreMerged x items
        → (rest : List Heard) × (items ≡ given ++ rest) × All (λ item. item.end < settled (length x)) given
        × All (λ item. settled (length x) ≤ item.end) rest }
{}

/// If no block ends in samples, what is heard of them is what the 26 lanes hear that read no blocks, merged as those
/// merge: reading blocks only adds frames.
pub fn all_lanes_without_blocks()
    ensures { (x : List ℤ) → (items : List Heard) → (candidates : List Candidate) → HasNoBlock x
        → AreMerged x items → AreCandidates x candidates → map candidate_of items ≡ merged_plainly candidates }
{}
