//! Laws on the candidates of all lanes. A law is the contract of a function that does nothing.

ghost use Rattle.std.specs.Prelude.{◌≡◌, ◌+◌, ◌≤◌, ℕ, ℤ, List, ◌++◌, length, true};
ghost use Rattle.std.specs.List.{All};
ghost use Rattle.frame_merge.specs.declared.candidate.Candidate.{Candidate};
ghost use Rattle.afsk_modulator.specs.Modulation.{IsLevel};
ghost use Rattle.afsk_modulator.specs.Signal.{Transmission, signal_at};
ghost use Rattle.clean_signal.specs.GoodTransmission.{IsTransmission, frames_of};
ghost use Rattle.clean_signal.specs.TrueEnds.{true_ends};
ghost use Rattle.clean_signal.specs.Stray.{is_sent};
ghost use Rattle.clean_signal.specs.Carried.{CarriesAll};
ghost use Rattle.clean_signal.specs.NearSignal.{Received, IsReceived, IsNearAll, transmissions_of};
ghost use Rattle.sensitive_receiver.specs.Candidates.{AreHeard};
ghost use Rattle.sensitive_receiver.specs.HeldDecoder.{HeldDecoder, StandsFor};
ghost use Rattle.sensitive_receiver.specs.MergedItems.{AreMerged, AreMergedBetween, settled};
ghost use Rattle.sensitive_receiver.specs.Stray.{NoneStray, MergesTo};

/// Samples have one list of candidates of all lanes.
pub fn one_list_of_all_lanes()
    ensures { (x : List ℤ) (items others : List Candidate) → AreHeard x items → AreHeard x others → items ≡ others }
{}

/// All samples have such a list, so what is said of their candidates is always said of some.
pub fn some_list_of_all_lanes()
    ensures { (x : List ℤ) → (items : List Candidate) × AreHeard x items }
{}

/// The items of samples that end below a settled position, and the next ones, which more samples gave, are those of all
/// samples.
pub fn sensitive_items_join()
    ensures { (from middle to : ℕ) (x y : List ℤ) (items more : List Candidate) → from ≤ middle → middle ≤ to
        → middle ≤ settled (length x) → AreMergedBetween from middle x items → AreMergedBetween middle to (x ++ y) more
        → AreMergedBetween from to (x ++ y) (items ++ more) }
{}

/// The items that end up to the number of samples are all.
pub fn sensitive_items_are_all()
    ensures { (x : List ℤ) (items : List Candidate) → AreMergedBetween 0 (length x + 1) x items → AreMerged x items }
{}

/// A decoder keeps at most one candidate of each lane.
pub fn a_sensitive_decoder_keeps_few()
    ensures { (held : HeldDecoder) (x : List ℤ) → StandsFor held x → length held.merger.items ≤ 26 }
{}

/// Samples near a signal give the frames that were sent, each once, in order, if no candidate of any lane is stray.
/// Each transmission begins at a phase of its own and has a level of its own, each of its samples is off by at most a
/// tenth of that level, and anything is heard before it and after it.
pub fn sensitive_near_frames()
    ensures { (received : List Received) (x : List ℤ) → All IsReceived received → IsNearAll received x
        → NoneStray (transmissions_of received) x → MergesTo (frames_of (transmissions_of received)) x }
{}

/// So does the signal itself at any level from 10 on.
pub fn sensitive_level_frames()
    ensures { (level : ℕ) (sent : List Transmission) → IsLevel level → All IsTransmission sent
        → NoneStray sent (signal_at level sent) → MergesTo (frames_of sent) (signal_at level sent) }
{}

/// So do any samples that carry the transmissions, whatever stands between and after them.
pub fn sensitive_carried_frames()
    ensures { (sent : List Transmission) (x : List ℤ) → All IsTransmission sent → CarriesAll sent x → NoneStray sent x
        → MergesTo (frames_of sent) x }
{}

/// Checking all candidates of the samples is enough.
pub fn sensitive_none_stray()
    ensures { (sent : List Transmission) (x : List ℤ) (items : List Candidate) → AreHeard x items
        → All (λ item. is_sent (true_ends sent) item ≡ true) items → NoneStray sent x }
{}
