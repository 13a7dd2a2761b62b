//! Laws on the candidates of samples. A law is the contract of a function that does nothing.

ghost use Rattle.std.specs.Prelude.{◌≡◌, ◌↔◌, ◌+◌, ◌<◌, ◌≤◌, ℕ, ℤ, List, ◌++◌, length};
ghost use Rattle.sample_ring.specs.declared.got.Got.{Got};
ghost use Rattle.tone_carrier.specs.Tones.{HasTones};
ghost use Rattle.frame_merge.specs.declared.candidate.Candidate.{Candidate};
ghost use Rattle.slicer_bank.specs.Candidates.{AreCandidates, AreCandidatesAfter};
ghost use Rattle.slicer_bank.specs.declared.detection.Detection.TheVariants.{Tones};
ghost use Rattle.slicer_bank.specs.HeardOnRing.{IsBusyOnRing, lane_of};
ghost use Rattle.slicer_bank.specs.HeldDecoder.{HeldDecoder, StandsFor};
ghost use Rattle.slicer_bank.specs.Stretches.{Stretch, last_stretch};
ghost use Rattle.slicer_bank.specs.MergedItems.{AreMerged, AreMergedBetween};

/// Samples have one list of candidates.
pub fn one_list_of_candidates()
    ensures { (x : List ℤ) (items others : List Candidate) → AreCandidates x items → AreCandidates x others → items
        ≡ others }
{}

/// The candidates of a block that follow those of the samples before it are, with them, those of all samples.
pub fn blocks_join()
    ensures { (x block : List ℤ) (items found : List Candidate) → AreCandidates x items
        → AreCandidatesAfter (length x) (x ++ block) found → AreCandidates (x ++ block) (items ++ found) }
{}

/// The items of samples that end below a position, and the next ones, which more samples gave, are those of all
/// samples.
pub fn items_join()
    ensures { (from middle to : ℕ) (x y : List ℤ) (items more : List Candidate) → from ≤ middle → middle ≤ to
        → middle ≤ length x
        → AreMergedBetween from middle x items → AreMergedBetween middle to (x ++ y) more
        → AreMergedBetween from to (x ++ y) (items ++ more) }
{}

/// The items that end up to the number of samples are all.
pub fn items_are_all()
    ensures { (x : List ℤ) (items : List Candidate) → AreMergedBetween 0 (length x + 1) x items → AreMerged x items }
{}

/// A decoder keeps at most one candidate of each lane.
pub fn a_decoder_keeps_few()
    ensures { (held : HeldDecoder) (x : List ℤ) → StandsFor held x → length held.merger.items ≤ 8 }
{}

/// Lanes that have all heard one stretch are busy by tones exactly if the samples of that stretch have tones.
pub fn one_stretch_has_tones()
    ensures { (lanes : List (List Got)) (s : Stretch)
        → ((lane : ℕ) → lane < 8 → last_stretch (lane_of lanes lane) ≡ s)
        → IsBusyOnRing Tones lanes ↔ HasTones s.begin s.samples }
{}
