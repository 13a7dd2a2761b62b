//! Laws on samples at 48,000 a second. A law is the contract of a function that does nothing.

ghost use Rattle.std.specs.Prelude.{◌≡◌, ◌+◌, ◌-◌, ◌*◌, ◌/◌, ◌<◌, ℕ, ℤ, pos, List, length, slice_index_or};
ghost use Rattle.std.specs.List.{All};
ghost use Rattle.frame_merge.specs.declared.candidate.Candidate.{Candidate};
ghost use Rattle.clean_signal.specs.GoodTransmission.{frames_of};
ghost use Rattle.clean_signal.specs.NearSignal.{Received, IsReceived, IsNearAll, transmissions_of};
ghost use Rattle.wide_input.specs.Streams.{stream, least_count};
ghost use Rattle.wide_input.specs.Candidates.{AreWideCandidates};
ghost use Rattle.wide_input.specs.Stray.{NoWideStray, WideMergesTo};

/// Stream r is the samples r, r + 5, r + 10 and so on, and the last stream is the least.
pub fn streams_by_place()
    ensures sample { (r k : ℕ) (x : List ℤ) → k < length (stream r x)
        → slice_index_or (stream r x) k (pos 0) ≡ slice_index_or x (5 * k + r) (pos 0) }
    ensures count { (r : ℕ) (x : List ℤ) → r < 5 → length (stream r x) ≡ (length x + 4 - r) / 5 }
    ensures least { (x : List ℤ) → least_count x ≡ length x / 5 }
{}

/// Samples have one list of wide candidates.
pub fn one_list_of_wide_candidates()
    ensures { (x : List ℤ) (items others : List Candidate) → AreWideCandidates x items → AreWideCandidates x others
        → items ≡ others }
{}

/// All samples have a list of wide candidates, so what is said of their candidates is always said of some.
pub fn some_list_of_wide_candidates()
    ensures { (x : List ℤ) → (items : List Candidate) × AreWideCandidates x items }
{}

/// Samples of which one stream is near a signal give the frames that were sent, each once, in order, if no wide
/// candidate is stray.
pub fn near_stream_frames()
    ensures { (r : ℕ) (received : List Received) (x : List ℤ) → r < 5 → All IsReceived received
        → IsNearAll received (stream r x) → NoWideStray r (transmissions_of received) x
        → WideMergesTo (frames_of (transmissions_of received)) x }
{}
