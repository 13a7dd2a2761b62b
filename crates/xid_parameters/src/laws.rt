//! What holds of parameters that are told.
ghost use Rattle.xid_parameters.specs.Agreement.{AgreementsAreAlike};
ghost use Rattle.xid_parameters.specs.Written.{WrittenIsRead};

/// What a station tells is read as it was told.
pub fn what_is_written_is_read()
    ensures { WrittenIsRead }
{}

/// Two stations that tell each other all come to one agreement.
pub fn agreements_are_alike()
    ensures { AgreementsAreAlike }
{}
