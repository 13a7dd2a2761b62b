//! A turn of the station: what is read on the line, and what is to be done on it.
ghost use Rattle.std.specs.Prelude.{◌≡◌, Bool, Option, List};
ghost use Rattle.keying.specs.Calls.{turned};
ghost use Rattle.keying.specs.Kept.{StandsFor, after_reading, after_rule};
ghost use Rattle.keying.specs.Marks.{Mark};
ghost use Rattle.keying.specs.Rules.{silence_marks, stall_marks, is_overdue, is_stalled};
ghost use Rattle.keying.specs.Told.{turn_told, turn_since, next_in};

use crate::line::{End, Phase};
use crate::machine::{Keying, Words};
use crate::report::{OffWhy, Why};

/// How long a command may be without an answer, and the key on without a tick, in ms.
const PATIENCE: u64 = 2000;

/// What is to be done on the line in a turn.
#[derive(Clone, Copy, Debug, PartialEq, Eq)]
pub enum Next {
    /// Nothing.
    Rest,
    /// Connect, and write a release if it can be written at once.
    ToConnect,
    /// Write a release, if it can be written by now.
    ToOpen,
    /// Write a release, and report that the key is off for want of sound.
    ToRelease,
}

/// What a turn tells.
#[derive(Clone, Copy, Debug, PartialEq, Eq)]
pub struct Turn {
    /// The line is ready, which is to be reported.
    pub ready: bool,
    /// The connection is lost, and to be dropped.
    pub dropped: bool,
    /// Why, if that is to be reported, after `ready`.
    pub lost: Option<Why>,
    /// What is to be done then.
    pub next: Next,
}

impl Keying {
    /// A turn at this time in ms, after the octets were read on the line and reading ended so.
    pub fn turn(&mut self, now: u64, octets: &[u8], end: Option<End>) -> Turn
        ensures told { (words : Words) (past : List Mark) → StandsFor words past self.old
            → result ≡ turn_told words now octets.now end past }
        ensures stands_for { (words : Words) (past : List Mark) → StandsFor words past self.old
            → StandsFor words (turned words now octets.now end past) self.new }
    {
        let (phase, ready, loss) = (self.phase, self.ready, self.last_loss);
        self.listen(now, octets, end);
        let turn = self.turn_since(phase, ready, loss);
        self.stop_if_stalled();
        turn
    }

    /// What is told, since the connection, whether it was ready and the last loss stood so.
    fn turn_since(&self, phase: Phase, ready: bool, loss: Option<Why>) -> Turn
        ensures { result ≡ turn_since phase ready loss self.now }
    {
        Turn {
            ready: !ready && self.ready,
            dropped: self.is_lost_since(phase),
            lost: self.loss_since(phase, loss),
            next: self.next(),
        }
    }

    /// What was read, and then the loss of a line that is silent for too long.
    fn listen(&mut self, now: u64, octets: &[u8], end: Option<End>)
        ensures { self.new ≡ after_rule silence_marks (after_reading now octets.now end self.old) }
    {
        self.read(now, octets, end);
        self.lose_if_silent();
    }

    fn lose_if_silent(&mut self)
        ensures { self.new ≡ after_rule silence_marks self.old }
    {
        if self.is_overdue() {
            self.mark_lost(Why::Silent);
        }
    }

    fn is_overdue(&self) -> bool
        ensures { result ≡ is_overdue self.now.time self.now.waiting }
    {
        match self.waiting.as_slice() {
            [] => false,
            [oldest, ..] => self.time.saturating_sub(*oldest) >= PATIENCE,
        }
    }

    fn next(&self) -> Next
        ensures { result ≡ next_in self.now.phase self.now }
    {
        match self.phase {
            Phase::Down => {
                if self.is_try_due() {
                    Next::ToConnect
                } else {
                    Next::Rest
                }
            }
            Phase::Opening => Next::ToOpen,
            Phase::Up => {
                if self.is_stalled() {
                    Next::ToRelease
                } else {
                    Next::Rest
                }
            }
        }
    }

    fn is_stalled(&self) -> bool
        ensures { result ≡ is_stalled self.now }
    {
        self.on && self.time.saturating_sub(self.ticked) >= PATIENCE
    }

    fn stop_if_stalled(&mut self)
        ensures { self.new ≡ after_rule stall_marks self.old }
    {
        if self.is_stalled() {
            self.mark_released();
            self.mark_cut(OffWhy::Sound);
        }
    }
}
