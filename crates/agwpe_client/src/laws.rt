//! Laws on a call, of its definitions alone. A law is the contract of a function that does nothing.
ghost use Rattle.agwpe_client.specs.CallPrints.{PrintsItsData};
ghost use Rattle.agwpe_client.specs.DoneCall.{DonePrintsItsData};

/// A call that is done was connected and has ended: among the messages of its host there is a C of the call, and after
/// it a d of the call, with none between them. What it printed is the bodies of the D messages of the call between the
/// two, in order, and nothing else.
pub fn done_prints_its_data()
    ensures { DonePrintsItsData }
{}

/// What a call prints, whether it is done, goes on or was broken off: nothing, or the bodies of D messages of the call
/// after a C of the call, in order, with no d of the call among them and none of these D left out.
pub fn prints_its_data()
    ensures { PrintsItsData }
{}
