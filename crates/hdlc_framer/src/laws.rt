//! Laws on the definitions. A law is the contract of a function that does nothing.

ghost use Rattle.std.specs.Prelude.{◌≡◌, ◌≤◌, ◌↔◌, ℕ, Bool, List, length};
ghost use Rattle.hdlc_framer.specs.Carrier.{HoldsCarrier, IsBusy};
ghost use Rattle.hdlc_framer.specs.CheckSequence.{remainder};
ghost use Rattle.hdlc_framer.specs.Division.{IsRemainder};
ghost use Rattle.hdlc_framer.specs.Events.{EventAt};
ghost use Rattle.hdlc_framer.specs.Frames.{EndsFrame};

use crate::event::Event;

/// A frame that ends with a bit is one frame: whatever earlier flag is taken, the octets are the same, and so is the
/// flag.
pub fn one_frame_ends()
    ensures { (bits : List Bool) → (octets : List ℕ) → (others : List ℕ)
        → (ends : EndsFrame bits octets) → (others_end : EndsFrame bits others)
        → (octets ≡ others) × (ends.0 ≡ others_end.0) }
{}

/// One event comes with a bit: so each of the four comes exactly when its own definition holds.
pub fn one_event_comes()
    ensures { (bits : List Bool) → (event : Event) → (other : Event)
        → EventAt bits event → EventAt bits other → event ≡ other }
{}

/// The remainder of the check sequence is the one remainder of a division by x^16 + x^12 + x^5 + 1: a quotient exists
/// for it, and for no other.
pub fn remainder_is_of_division()
    ensures { (p : List Bool) → (r : List Bool) → 16 ≤ length p
        → (IsRemainder p r ↔ (r ≡ remainder p)) }
{}

/// A carrier of one flag is held exactly if a flag has come and, since the last one, neither seven 1s in a row nor
/// 10,000 bits.
pub fn one_flag_makes_busy()
    ensures { (bits : List Bool) → HoldsCarrier 1 bits ↔ IsBusy bits }
{}
