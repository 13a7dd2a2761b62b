//! Laws on the definitions. A law is the contract of a function that does nothing.
ghost use Rattle.std.specs.Prelude.{◌≡◌, ◌<◌, ℕ, Bool, List, All};
ghost use Rattle.fx25_blocks.specs.Units.{IsUnit};
ghost use Rattle.fx25_sender.specs.Units.{unit};

/// The bits that stand for a frame in a transmission are a unit: a tag with so many check octets and the fewest data
/// octets into which the frame fits, and its block, or the plain frame if it fits into none.
pub fn unit_is_unit()
    ensures { (checks : ℕ) → (frame : List ℕ) → IsUnit checks frame (unit checks frame) }
{}

/// A frame has one unit with so many check octets.
pub fn units_are_one()
    ensures { (checks : ℕ) → (frame : List ℕ) → (bits : List Bool) → (other : List Bool)
        → IsUnit checks frame bits → IsUnit checks frame other → bits ≡ other }
{}
