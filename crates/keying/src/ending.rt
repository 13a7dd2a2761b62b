//! The release at the end of the run.
ghost use Rattle.std.specs.Prelude.{◌≡◌, Bool, Option, List};
ghost use Rattle.keying.specs.Calls.{ended};
ghost use Rattle.keying.specs.Kept.{StandsFor, after_reading, after_rule};
ghost use Rattle.keying.specs.Marks.{Mark};
ghost use Rattle.keying.specs.Rules.{closing_marks};
ghost use Rattle.keying.specs.Told.{ending_told, ending_in, is_in_time};

use crate::line::{End, Phase};
use crate::machine::{Keying, Words};

/// How long answers are waited for at the end of the run, in ms.
const LAST_WAIT: u64 = 1000;

/// What is to be done at the end of the run.
#[derive(Clone, Copy, Debug, PartialEq, Eq)]
pub enum Ending {
    /// Connect, and write a release if it can be written at once.
    ConnectNow,
    /// Write a release, if it can be written by now.
    OpenNow,
    /// Write a release.
    ReleaseNow,
    /// Wait for an answer, for at most some ms.
    Wait,
    /// Nothing more.
    Over,
}

impl Keying {
    /// The end of the run at this time in ms, after the octets were read on the line and reading ended so. It is called
    /// again until nothing more is to be done. A connection that is lost here is not told.
    pub fn release(&mut self, now: u64, octets: &[u8], end: Option<End>) -> Ending
        ensures told { (words : Words) (past : List Mark) → StandsFor words past self.old
            → result ≡ ending_told words now octets.now end past }
        ensures stands_for { (words : Words) (past : List Mark) → StandsFor words past self.old
            → StandsFor words (ended words now octets.now end past) self.new }
    {
        self.read(now, octets, end);
        let ending = self.ending_step();
        self.close();
        ending
    }

    fn ending_step(&self) -> Ending
        ensures { result ≡ ending_in self.now.phase self.now }
    {
        match self.phase {
            Phase::Down => {
                if self.owed && !self.retried && self.is_in_time() {
                    Ending::ConnectNow
                } else {
                    Ending::Over
                }
            }
            Phase::Opening => {
                if self.owed && self.is_in_time() {
                    Ending::OpenNow
                } else {
                    Ending::Over
                }
            }
            Phase::Up => {
                if self.on {
                    Ending::ReleaseNow
                } else if !self.waiting.is_empty() && self.is_in_time() {
                    Ending::Wait
                } else {
                    Ending::Over
                }
            }
        }
    }

    /// Whether answers may still be waited for.
    fn is_in_time(&self) -> bool
        ensures { result ≡ is_in_time self.now.ending self.now.time }
    {
        match self.ending {
            None => true,
            Some(began) => self.time.saturating_sub(began) < LAST_WAIT,
        }
    }

    fn close(&mut self)
        ensures { self.new ≡ after_rule closing_marks self.old }
    {
        if self.on {
            self.mark_released();
        }
        self.mark_end();
    }
}
