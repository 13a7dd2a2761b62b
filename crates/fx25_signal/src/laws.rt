//! Laws on units that come in samples. A law is the contract of a function that does nothing.

ghost use Rattle.std.specs.Prelude.{◌≡◌, ℕ, ℤ, List, map};
ghost use Rattle.std.specs.List.{All};
ghost use Rattle.fx25_signal.specs.Units.{AreApart, Comes, SentUnit};
ghost use Rattle.fx25_signal.specs.Damage.{AreLost, DifferInStretches, Stretch};
ghost use Rattle.fx25_signal.specs.NearSignal.{IsNearAll, IsReceived, ReceivedBlocks, frames_of, sent_units};
ghost use Rattle.fx25_signal.specs.Merging.{MergesTo, NoneStray};

/// If units come in samples one after another, and nothing that is heard is stray, then the frames that were sent are
/// what is given, each once, in order. It does not matter what stands between the units, nor what comes wrong of them
/// as long as it can be repaired: of each tag at most 12 bits, and of each block at most half as many octets as it has
/// check octets.
pub fn units_are_merged()
    ensures { (units : List SentUnit) (x : List ℤ) → AreApart 0 units → All (Comes x) units → NoneStray units x
        → MergesTo (map (λ unit. unit.octets) units) x }
{}

/// So do samples near a signal of FX.25: each transmission begins at a phase of its own and has a level of its own, each
/// of its samples is off by at most a tenth of that level, and anything is heard before it and after it.
pub fn near_blocks_give_their_frames()
    ensures { (received : List ReceivedBlocks) (x : List ℤ) → All IsReceived received → IsNearAll received x
        → NoneStray (sent_units received) x → MergesTo (frames_of received) x }
{}

/// And so do samples near a signal of which each block lost any one stretch among its data and check octets of at most
/// 32c - 71 samples that does not touch its last bit, c being the number of its check octets: 441, 953 or 1977 samples,
/// which are 46, 99 or 206 milliseconds, may be anything.
pub fn lost_stretches_are_repaired()
    ensures { (received : List ReceivedBlocks) (stretches : List Stretch) (x sent : List ℤ) → All IsReceived received
        → IsNearAll received sent → AreLost (sent_units received) stretches → DifferInStretches stretches x sent
        → NoneStray (sent_units received) x → MergesTo (frames_of received) x }
{}
