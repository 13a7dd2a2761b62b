//! Laws on a bench. A law is the contract of a function that does nothing.
ghost use Rattle.channel_bench.specs.BenchLaw.{BenchLaw, ProgramsFollow};
ghost use Rattle.channel_bench.specs.OneReport.{OneReport};

/// The law on a bench. In a run that is over, at each side each set-up that got octets has an origin: the set-up of the
/// other side that the first I frame belonged to that it accepted. What was got is a first part of what was given in
/// it, and origins rise strictly from set-up to set-up.
pub fn bench_law()
    ensures { BenchLaw }
{}

/// In a run of the bench that is over, the host programs gave only while the link was up, which took each packet, and
/// saw the set-ups of the link, each with the octets of its packets.
pub fn programs_follow()
    ensures { ProgramsFollow }
{}

/// What a run of the bench comes to depends on its words alone. Of all runs that the definition describes for the same
/// words either each is over and its report is the same, or each ends with the same fault, but for want of memory, which
/// can come at any time.
pub fn one_report()
    ensures { OneReport }
{}
