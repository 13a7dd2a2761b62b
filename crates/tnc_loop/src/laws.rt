//! Laws on what is drawn and told. A law is the contract of a function that does nothing.
ghost use Rattle.std.specs.Prelude.{◌≡◌, ℕ, List, All};
ghost use Rattle.clean_signal.specs.GoodTransmission.{IsTransmission};
ghost use Rattle.clean_signal.specs.NearSignal.{IsReceived, IsNearAll};
ghost use Rattle.tnc_words.specs.declared.command.LoopWords.{LoopWords};
ghost use Rattle.tnc_loop.specs.Drawn.{drawn, received_drawn, samples_drawn};
ghost use Rattle.tnc_loop.specs.Summary.{IsSummary, IsFirstStray};

/// All transmissions that are drawn are good: frames of 15 to 1024 octets, at least two opening flags and one closing
/// flag.
pub fn good_transmissions()
    ensures { (words : LoopWords) → All IsTransmission (drawn words) }
{}

/// What is heard is near what was drawn, also with `rough`: each sample of a transmission is within a tenth of its
/// level.
pub fn heard_is_near()
    ensures received { (words : LoopWords) → All IsReceived (received_drawn words) }
    ensures near { (words : LoopWords) → IsNearAll (received_drawn words) (samples_drawn words) }
{}

/// Words have one summary, and at most one stray candidate is the first.
pub fn one_summary()
    ensures summary { (words : LoopWords) (text other : List ℕ)
        → IsSummary words text → IsSummary words other → text ≡ other }
    ensures stray { (words : LoopWords) (octets other : List ℕ)
        → IsFirstStray words octets → IsFirstStray words other → octets ≡ other }
{}
