//! A connection that is begun, and its first release.
ghost use Rattle.std.specs.Prelude.{◌≡◌, Bool, Option, List};
ghost use Rattle.keying.specs.declared.line.Phase.TheVariants.{Opening};
ghost use Rattle.keying.specs.Calls.{tried};
ghost use Rattle.keying.specs.Kept.{StandsFor, after_all, after_rule};
ghost use Rattle.keying.specs.Marks.{Mark};
ghost use Rattle.keying.specs.Rules.{try_marks, opening_marks, is_try_due};
ghost use Rattle.keying.specs.Told.{try_told, try_told_of};

use crate::line::{Phase, Try};
use crate::losses::told_loss;
use crate::machine::{Keying, Words};
use crate::report::Why;

/// How long after a try the next one is made, in ms.
const BETWEEN_TRIES: u64 = 1000;

impl Keying {
    /// After the caller tried what [`Next::ToConnect`] or [`Next::ToOpen`] asks for. Answers the loss that is to be
    /// reported. A refused connection is to be dropped.
    pub fn tried(&mut self, how: Try) -> Option<Why>
        ensures told { (words : Words) (past : List Mark) → StandsFor words past self.old
            → result ≡ try_told words how past }
        ensures stands_for { (words : Words) (past : List Mark) → StandsFor words past self.old
            → StandsFor words (tried words how past) self.new }
    {
        self.take_try(how)
    }

    /// Whether a connection is to be begun, if there is none.
    pub(crate) fn is_try_due(&self) -> bool
        ensures { result ≡ is_try_due self.now }
    {
        match self.last_try {
            None => true,
            Some(tried) => self.ready || self.time.saturating_sub(tried) >= BETWEEN_TRIES,
        }
    }

    fn take_try(&mut self, how: Try) -> Option<Why>
        ensures told { result ≡ try_told_of self.old.phase how self.old.last_loss }
        ensures kept { self.new ≡ after_rule (try_marks how) self.old }
    {
        match self.phase {
            Phase::Up => return None,
            Phase::Down => self.mark_try(),
            Phase::Opening => {}
        }
        self.open(how)
    }

    /// A connection that is being made, after a try to write its first release.
    fn open(&mut self, how: Try) -> Option<Why>
        ensures told { result ≡ try_told_of Opening how self.old.last_loss }
        ensures kept { self.new ≡ after_all (opening_marks how) self.old }
    {
        match how {
            Try::NotYet => None,
            Try::Written => {
                self.mark_opened();
                None
            }
            Try::Refused => {
                let loss = self.last_loss;
                self.mark_lost(Why::Connect);
                told_loss(false, Some(Why::Connect), loss)
            }
        }
    }
}
