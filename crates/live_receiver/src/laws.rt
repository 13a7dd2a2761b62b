//! The laws of a reader that meets no gap. A law is the contract of a function that does nothing.

ghost use Rattle.std.specs.Prelude.{◌≡◌, ◌↔◌, true, false, ℤ, List, [], ◌∷◌};
ghost use Rattle.sample_ring.specs.declared.got.Got.{Got};
ghost use Rattle.frame_merge.specs.declared.candidate.Candidate.{Candidate};
ghost use Rattle.slicer_bank.specs.Stretches.{stretches};
ghost use Rattle.hf_modem.specs.Candidates.{AreCandidates};
ghost use Rattle.hf_sensitive.specs.Candidates.{AreHeard as AreHeardBySensitive};
ghost use Rattle.live_receiver.specs.HeardOnShortWave.{AreHeard};

/// If the answers of the reader are one stretch of samples from the first on, the lanes of short wave hear exactly what a
/// decoder of these samples does: their candidates. With the added lanes they hear what a sensitive decoder does.
pub fn short_wave_is_heard_as_decoded()
    ensures plain { (answers : List Got) (x : List ℤ) (items : List Candidate)
        → stretches answers ≡ (record { begin = 0; samples = x }) ∷ []
        → AreHeard false answers items ↔ AreCandidates x items }
    ensures sensitive { (answers : List Got) (x : List ℤ) (items : List Candidate)
        → stretches answers ≡ (record { begin = 0; samples = x }) ∷ []
        → AreHeard true answers items ↔ AreHeardBySensitive x items }
{}
