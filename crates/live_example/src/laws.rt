//! The law. It is the contract of a function that does nothing.
ghost use Rattle.live_example.specs.WorkedRun.{PremisesCanBeMet};

/// All that the law of two live runs asks of the steps of two live runs can be met together, by runs of which it says
/// something: a call, data both ways, an I frame that is lost, a third station that calls one of the two, and the end of
/// the link, after which both connections have got all that was given.
pub fn premises_can_be_met()
    ensures { PremisesCanBeMet }
{}
