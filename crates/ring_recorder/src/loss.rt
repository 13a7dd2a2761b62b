//! What a reader lost.
ghost use Rattle.std.specs.Prelude.{◌≡◌, ◌<◌, vec_len, vec_capacity};
ghost use Rattle.ring_recorder.specs.Held.{with_gap};

/// The samples from `from` to below `to` were overwritten before they were read.
#[derive(Clone, Copy, Debug, PartialEq, Eq)]
pub struct Loss {
    pub from: u64,
    pub to: u64,
}

/// Notes a gap. It goes on the last loss if it begins where that ends. There must be room for one more loss.
pub(crate) fn note_gap(losses: &mut Vec<Loss>, from: u64, to: u64)
    requires { vec_len losses.old < vec_capacity losses.old }
    ensures { losses.new.items ≡ with_gap losses.old.items from to }
{
    let count = losses.len();
    if count > 0 && losses[count - 1].to == from {
        losses[count - 1].to = to;
        return;
    }
    losses.push_reserved(Loss { from, to });
}
