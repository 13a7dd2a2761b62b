//! A stream of messages as its octets come.

ghost use Rattle.std.specs.Prelude.{◌≡◌, ◌≢◌, ℕ, List, [], ◌∷◌, ◌++◌, Err, MatchResult, None, Some};
ghost use Rattle.agwpe_port.specs.Answer.{answer_of};

use crate::fault::AgwFault;
use crate::message::AgwMessage;
use crate::under_way::UnderWay;
use std::alloc::Global;
use std::marker::Model;

/// Reads a stream of messages octet by octet.
#[derive(Drop)]
pub struct AgwIn {
    under_way: UnderWay,
}

impl Model for AgwIn {
    ghost use Rattle.agwpe_port.specs.Held.{Held, StandsForSome};

    ghost Value = { Held };

    ghost view = { λ a. a.under_way };

    ghost invariant = { λ a. StandsForSome a.under_way };
}

impl AgwIn {
    ghost use Rattle.agwpe_port.specs.declared.fault.AgwFault.TheVariants.{Memory, Failed};
    ghost use Rattle.agwpe_port.specs.Messages.{messages_in, bad_length_in, given, IsFault};
    ghost use Rattle.agwpe_port.specs.Held.{StandsFor, StandsForSome};

    /// A reader to which no octet has come. It takes memory from `alloc`.
    pub fn new(alloc: Global) -> Self
        ensures stands_for { StandsFor result [] }
    {
        AgwIn {
            under_way: UnderWay::new(alloc),
        }
    }

    /// Takes the next octet, and gives the message that ends with it. If memory is wanted and not given, the octet is
    /// not taken. After too long a length no memory is wanted: each octet is answered by `Failed`.
    pub fn push(&mut self, octet: u8) -> Result<Option<AgwMessage>, AgwFault>
        ensures stood { StandsForSome self.old }
        ensures stands_for { (stream : List ℕ) → StandsFor self.old stream → result ≢ Err Memory
            → StandsFor self.new (stream ++ octet ∷ []) }
        ensures message { (stream : List ℕ) → StandsFor self.old stream → result ≢ Err Memory
            → messages_in (stream ++ octet ∷ []) ≡ messages_in stream ++ given result }
        ensures fault { (stream : List ℕ) → StandsFor self.old stream
            → MatchResult result (λ _. bad_length_in (stream ++ octet ∷ []) ≡ None) (IsFault stream octet) }
        ensures failed { (stream : List ℕ) (len : ℕ) → StandsFor self.old stream → bad_length_in stream ≡ Some len
            → result ≡ Err (Failed len) }
        ensures untaken { result ≡ Err Memory → self.new ≡ self.old }
    {
        if let Some(len) = self.under_way.bad() {
            return Err(AgwFault::Failed { len });
        }
        let message = self.under_way.take(octet)?;
        answer(self.under_way.bad(), message)
    }

    /// The length of the body that was too long, if a header told one.
    pub fn failed(&self) -> Option<u32>
        ensures stands { StandsForSome self.now }
        ensures bad { (stream : List ℕ) → StandsFor self.now stream → result ≡ bad_length_in stream }
    {
        self.under_way.bad()
    }
}

// The answer to an octet that ended this message, or a header with this length.
fn answer(bad: Option<u32>, message: Option<AgwMessage>) -> Result<Option<AgwMessage>, AgwFault>
    ensures { result ≡ answer_of bad message }
{
    match bad {
        Some(len) => Err(AgwFault::BadLength { len }),
        None => Ok(message),
    }
}
