//! The next repeater of a path.
ghost use Rattle.std.specs.Prelude.{◌≡◌, ℕ, ◌<◌, ◌↔◌, true, length, slice_index_or, IsTrue, IfSome, IfNone};
ghost use Rattle.std.specs.Bool.{OnFalse};
ghost use Rattle.digipeater.specs.Repeated.{IsNextRepeater, IsTurnOf, repeated};
ghost use Rattle.ax25_address.specs.declared.path.Hop.{Hop};

use ax25_address::{Call, Hop, read_path};

/// Sets the H bit of the next repeater in the frame if that is the call, and tells whether it was.
/// Else the octets stay as they were.
pub fn repeat(octets: &mut [u8], call: &Call) -> bool
    ensures turn { IsTrue result ↔ ((k : ℕ) × IsTurnOf call.now octets.old k) }
    ensures repeated { (k : ℕ) → IsTurnOf call.now octets.old k → octets.new ≡ repeated octets.old k }
    ensures unchanged { OnFalse result (octets.new ≡ octets.old) }
{
    let Ok((path, _)) = read_path(octets) else {
        return false;
    };
    let hops = path.repeaters.as_slice();
    let Some(k) = next_repeater(hops) else {
        return false;
    };
    if hops[k].call != *call {
        return false;
    }
    octets[7 * (k + 2) + 6] |= 0x80;
    true
}

/// The first repeater with H clear.
fn next_repeater(hops: &[Hop]) -> Option<usize>
    ensures next { IfSome result (IsNextRepeater hops.now) }
    ensures none { IfNone result ((j : ℕ) (d : Hop) → j < length hops.now → (slice_index_or hops.now j d).done ≡ true) }
{
    for k in 0..hops.len() {
        if !hops[k].done {
            return Some(k);
        }
    }
    None
}
