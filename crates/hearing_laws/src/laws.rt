//! The law. It is the contract of a function whose body is empty.
ghost use Rattle.hearing_laws.specs.HearingLaw.{HearsNothingElse, HearsWhatWasSent};

/// A run of a live station that listens for Bell 202, in which no lane is answered a gap: if the published samples are
/// near a signal of good transmissions and none of their candidates is stray, by the lanes that listen, the frames that
/// the station hears are exactly those of the signal, each once, whole and in order. If memory cuts the run short, they
/// are the first of these.
pub fn a_live_run_hears_what_was_sent()
    ensures whole { HearsWhatWasSent }
    ensures first { HearsNothingElse }
{}
