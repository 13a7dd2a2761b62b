//! Laws on the candidates of all lanes. A law is the contract of a function that does nothing.

ghost use Rattle.std.specs.Prelude.{◌≡◌, ◌+◌, ◌/◌, ◌≤◌, ℕ, ℤ, List, ◌++◌, length};
ghost use Rattle.std.specs.List.{All};
ghost use Rattle.frame_merge.specs.declared.candidate.Candidate.{Candidate};
ghost use Rattle.afsk_modulator.specs.Signal.{Transmission};
ghost use Rattle.clean_signal.specs.GoodTransmission.{IsTransmission, frames_of};
ghost use Rattle.clean_signal.specs.NearSignal.{Received, transmissions_of};
ghost use Rattle.hf_signal.specs.Carried.{CarriesAll};
ghost use Rattle.hf_signal.specs.NearSignal.{IsReceived, IsNearAll};
ghost use Rattle.hf_sensitive.specs.Candidates.{AreHeard};
ghost use Rattle.hf_sensitive.specs.MergedItems.{AreMerged, AreMergedBetween, settled};
ghost use Rattle.hf_sensitive.specs.Stray.{MergesTo, NoneStray};

/// Samples have one list of candidates of all lanes.
pub fn one_list_of_all_hf_lanes()
    ensures { (x : List ℤ) (items others : List Candidate) → AreHeard x items → AreHeard x others → items ≡ others }
{}

/// All samples have such a list, so what is said of their candidates is always said of some.
pub fn some_list_of_all_hf_lanes()
    ensures { (x : List ℤ) → (items : List Candidate) × AreHeard x items }
{}

/// The items of samples that end below a settled number, and the next ones, which more samples gave, are those of all
/// samples.
pub fn hf_sensitive_items_join()
    ensures { (from middle to : ℕ) (x y : List ℤ) (items more : List Candidate) → from ≤ middle → middle ≤ to
        → middle ≤ settled (length x) → AreMergedBetween from middle x items → AreMergedBetween middle to (x ++ y) more
        → AreMergedBetween from to (x ++ y) (items ++ more) }
{}

/// The items whose end is at most a quarter of the number of samples are all.
pub fn hf_sensitive_items_are_all()
    ensures { (x : List ℤ) (items : List Candidate) → AreMergedBetween 0 (length x / 4 + 1) x items
        → AreMerged x items }
{}

/// Samples near a signal give the frames that were sent, each once, in order, if no candidate of any lane is stray. Each
/// transmission begins at a phase of its own and has a level of its own, each of its samples is off by at most a tenth
/// of that level, and anything is heard before it and after it.
pub fn hf_sensitive_near_frames()
    ensures { (received : List Received) (x : List ℤ) → All IsReceived received → IsNearAll received x
        → NoneStray (transmissions_of received) x → MergesTo (frames_of (transmissions_of received)) x }
{}

/// So do any samples that carry the transmissions, whatever stands between and after them.
pub fn hf_sensitive_carried_frames()
    ensures { (sent : List Transmission) (x : List ℤ) → All IsTransmission sent → CarriesAll sent x → NoneStray sent x
        → MergesTo (frames_of sent) x }
{}
