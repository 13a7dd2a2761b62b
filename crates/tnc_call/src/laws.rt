//! What the definitions say of all calls, in fewer words than they have themselves.
ghost use Rattle.tnc_call.specs.Faultless.{FaultlessEnds};

/// If the text is within its limit, nothing fails and the host stays, what came of the host decides how a call ends,
/// unless memory is wanted. So octets that lead to the end of a connection that was made give [`CallEnd::Done`].
///
/// [`CallEnd::Done`]: crate::CallEnd::Done
pub fn faultless_ends()
    ensures ends { FaultlessEnds }
{}
