//! Lost connections, and which of them are reported.
ghost use Rattle.std.specs.Prelude.{◌≡◌, Bool, Option, List};
ghost use Rattle.keying.specs.Calls.{command_failed};
ghost use Rattle.keying.specs.Kept.{StandsFor};
ghost use Rattle.keying.specs.Marks.{Mark};
ghost use Rattle.keying.specs.Told.{told_loss, is_another, is_lost_since, loss_since, fault_told};

use crate::line::{End, Phase};
use crate::machine::{Keying, Words};
use crate::report::Why;

impl Keying {
    /// After a command was not written whole by one write. Answers the loss that is to be reported. The connection is
    /// to be dropped.
    pub fn command_failed(&mut self) -> Option<Why>
        ensures told { (words : Words) (past : List Mark) → StandsFor words past self.old
            → result ≡ fault_told words past }
        ensures stands_for { (words : Words) (past : List Mark) → StandsFor words past self.old
            → StandsFor words (command_failed words past) self.new }
    {
        let (phase, loss) = (self.phase, self.last_loss);
        self.take_end(Some(End::Fault));
        self.loss_since(phase, loss)
    }

    /// Whether the connection was lost since it stood so.
    pub(crate) fn is_lost_since(&self, phase: Phase) -> bool
        ensures { result ≡ is_lost_since phase self.now }
    {
        !phase.is_down() && self.phase.is_down()
    }

    /// The loss that is to be reported, since the connection and the last loss stood so.
    pub(crate) fn loss_since(&self, phase: Phase, loss: Option<Why>) -> Option<Why>
        ensures { result ≡ loss_since phase loss self.now }
    {
        if self.is_lost_since(phase) {
            told_loss(self.ready, self.last_loss, loss)
        } else {
            None
        }
    }
}

/// A loss, if it is to be reported: if the line had been ready, or for another reason than the loss before.
pub(crate) fn told_loss(ready: bool, loss: Option<Why>, before: Option<Why>) -> Option<Why>
    ensures { result ≡ told_loss ready loss before }
{
    let why = loss?;
    if ready || is_another(before, why) {
        Some(why)
    } else {
        None
    }
}

fn is_another(before: Option<Why>, why: Why) -> bool
    ensures { result ≡ is_another before why }
{
    match before {
        None => true,
        Some(before) => !before.is_same(why),
    }
}
