//! One reader of a ring of samples, for any lanes that hear the stretches between its gaps.
//!
//! A reader's answers are stretches of samples with gaps between them. Lanes hear each stretch by itself, block by block: what
//! the reader was given in a turn is one block, or one for each stretch. What lanes hear of a stretch is theirs to say, by the
//! relations of [`StretchLanes`]. They give it as they hear it, and what is left when a gap ends the stretch.
//! What is promised: the items of a turn and of those before it are exactly what is heard of the stretches that gaps have
//! ended, and what the lanes gave of the stretch that goes on.
#![tactic(auto)]

mod lanes;
mod reading;
mod turn;

pub use lanes::StretchLanes;
pub use reading::read_on;
pub use turn::Turn;
