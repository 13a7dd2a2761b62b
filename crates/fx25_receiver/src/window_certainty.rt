//! How sure the tone of a window is.
//!
//! The difference of the two energies alone would take for sure what a loud burst decides. As a part of the louder energy
//! it is large only if the window holds one tone.
ghost use Rattle.std.specs.Prelude.{◌≡◌, ◌+◌, ◌-◌, ◌/◌, ◌≤◌};
ghost use Rattle.fx25_receiver.specs.Certainty.{certainty};

use offset_slicers::energies;

/// By how much the energy of the louder tone is more than that of the other, in 65536ths of it.
#[tactic(auto, unfolding(crate::specs::Certainty::certainty))]
pub fn certainty(window: &[i16; 8]) -> u32
    ensures { result ≡ certainty window.now }
{
    let (mark, space) = energies(window);
    part(mark.max(space), mark.min(space))
}

/// By how much one number is more than another, in 65536ths of it.
fn part(louder: u64, quieter: u64) -> u32
    requires { quieter ≤ louder }
    ensures { result ≡ (louder - quieter) / (louder / 65536 + 1) }
{
    ((louder - quieter) / (louder / 65536 + 1)) as u32
}
