//! The two ends of a program that works on a stream of octets.
//!
//! A source and a sink count their faults. Code that is lent one can't raise that count, so a contract that allows an
//! answer of failure only when the count rose refuses a body that gives up by itself. A call that does not fail leaves
//! the count as it was, so a contract that keeps the count refuses a body that tries a failed call again.
ghost use Rattle.std.specs.Prelude.{◌≡◌, ◌≤◌, ◌++◌, ℕ, List, length, Some, IfOk, OnOk, OnErr};
ghost use Rattle.tnc_base.specs.Faults.{HasRisen};
ghost use Rattle.tnc_base.specs.Streams.{SourceTold, SinkTold, Gives, WrotePart};

use crate::Failed;

/// Where octets come from.
pub trait Source {
    /// The octets that reads will give from here on, if the source tells them, and how often a read has failed.
    ghost told: { Self → SourceTold };

    /// Puts the next octets at the front of `buffer` and answers how many. 0 with a nonempty buffer is the end of
    /// input.
    fn read(&mut self, buffer: &mut [u8]) -> Result<usize, Failed>
        ensures bound { IfOk result (λ count. count ≤ length buffer.new) }
        ensures gives { (octets : List ℕ) → (told self.old).left ≡ Some octets
            → IfOk result (Gives octets (told self.new).left buffer.new) }
        ensures kept { OnErr result ((told self.new).left ≡ (told self.old).left) }
        ensures later { (told self.old).faults ≤ (told self.new).faults }
        ensures faultless { OnOk result ((told self.new).faults ≡ (told self.old).faults) }
        ensures failed { OnErr result (HasRisen (told self.old).faults (told self.new).faults) };
}

/// Where octets go to.
pub trait Sink {
    /// The octets that were written, if the sink tells them, and how often a write has failed.
    ghost told: { Self → SinkTold };

    /// Appends all octets, or on `Failed` a first part of them.
    fn write(&mut self, octets: &[u8]) -> Result<(), Failed>
        ensures appends { (before : List ℕ) → (told self.old).written ≡ Some before
            → OnOk result ((told self.new).written ≡ Some (before ++ octets.now)) }
        ensures partly { (before : List ℕ) → (told self.old).written ≡ Some before
            → OnErr result (WrotePart before octets.now (told self.new).written) }
        ensures later { (told self.old).faults ≤ (told self.new).faults }
        ensures faultless { OnOk result ((told self.new).faults ≡ (told self.old).faults) }
        ensures failed { OnErr result (HasRisen (told self.old).faults (told self.new).faults) };
}
