//! The rule between bits and tones on an HDLC line: inverted NRZ, as ISO/IEC 3309 links over Bell
//! 202 use it. A 1 keeps the line's tone and a 0 changes it, so nothing hangs on which tone is
//! which. Before the first bit the line stands at mark. What is promised: over any list of bits or
//! tones the answers are exactly that rule's, and the two directions undo each other.
#![tactic(auto)]

mod laws;
mod receive;
mod send;

pub use laws::each_undoes_the_other;
pub use receive::NrziIn;
pub use send::NrziOut;
