//! The law of a recording's report. A law is the contract of a function that does nothing.
ghost use Rattle.std.specs.Prelude.{Bool};
ghost use Rattle.tnc_record.specs.RecordTurns.{Recording, IsRun, IsCutRun};
ghost use Rattle.tnc_record.specs.ToldGaps.{AreAllGaps, AreFirstGaps};

/// The gap lines of a whole run are all gaps that the receiver's readers were told of, and those of one that is cut
/// short are the first of them.
pub fn gaps_are_told()
    ensures whole { (sensitive : Bool) (recording : Recording) → IsRun sensitive recording
        → AreAllGaps sensitive recording }
    ensures cut { (sensitive : Bool) (recording : Recording) → IsCutRun sensitive recording
        → AreFirstGaps sensitive recording }
{}
