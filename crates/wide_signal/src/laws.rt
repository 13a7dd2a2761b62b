//! Laws on samples at 48,000 a second. A law is the contract of a function that does nothing.

ghost use Rattle.std.specs.Prelude.{◌<◌, ◌≤◌, ℕ, ℤ, List};
ghost use Rattle.std.specs.List.{All};
ghost use Rattle.clean_signal.specs.GoodTransmission.{frames_of};
ghost use Rattle.clean_signal.specs.NearSignal.{Received, IsReceived, IsNearAll, transmissions_of};
ghost use Rattle.resampler.specs.Filtered.{decimated, filtered};
ghost use Rattle.sensitive_receiver.specs.Stray.{NoneStray, MergesTo};
ghost use Rattle.wide_input.specs.Streams.{stream};
ghost use Rattle.wide_input.specs.Stray.{NoWideStray, WideMergesTo};
ghost use Rattle.tone_table.specs.declared.tone.Tone.{Tone};
ghost use Rattle.wide_signal.specs.FineWave.{IsNearFine, fine_wave};
ghost use Rattle.wide_signal.specs.WideSignal.{IsNearWide, IsWideReceived, inside};

/// What the filter gives of samples near a signal is near the same transmissions in one of the five streams, but for the
/// first and the last flag of each. Each sample may be off by a hundredth of the level, and anything may stand before a
/// transmission and after it.
pub fn near_wide_stream()
    ensures received { (received : List Received) → All IsWideReceived received → All IsReceived (inside received) }
    ensures near { (r : ℕ) (received : List Received) (x : List ℤ) → r < 5 → All IsWideReceived received
        → IsNearWide r 0 received x → IsNearAll (inside received) (stream r (filtered x)) }
{}

/// So samples near a signal give the frames that were sent, each once, in order, if no candidate of the five streams is
/// stray.
pub fn near_wide_samples()
    ensures { (r : ℕ) (received : List Received) (x : List ℤ) → r < 5 → All IsWideReceived received
        → IsNearWide r 0 received x → NoWideStray r (transmissions_of (inside received)) (filtered x)
        → WideMergesTo (frames_of (transmissions_of received)) (filtered x) }
{}

/// And so by all lanes, which hear the first stream alone.
pub fn near_wide_samples_by_all_lanes()
    ensures { (received : List Received) (x : List ℤ) → All IsWideReceived received → IsNearWide 0 0 received x
        → NoneStray (transmissions_of (inside received)) (decimated x)
        → MergesTo (frames_of (transmissions_of received)) (decimated x) }
{}

/// The wave itself is near: from level 100 on rounding is less than a hundredth of the level.
pub fn sent_wide_is_near()
    ensures { (level start : ℕ) (tones : List Tone) → 100 ≤ level
        → IsNearFine level start tones (fine_wave level start tones) 0 }
{}
