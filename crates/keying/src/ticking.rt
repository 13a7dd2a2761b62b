//! The key before and after the samples of a tick.
ghost use Rattle.std.specs.Prelude.{◌≡◌, ◌<◌, true, List, ◌∷◌};
ghost use Rattle.keying.specs.Calls.{ticked, written};
ghost use Rattle.keying.specs.Kept.{StandsFor, is_wanted, after_rule};
ghost use Rattle.keying.specs.Marks.{Mark};
ghost use Rattle.keying.specs.Marks.Mark.{Ticked};
ghost use Rattle.keying.specs.Rules.{tick_marks, written_marks};
ghost use Rattle.keying.specs.Told.{act_told, keying_command, tick_told, written_told};
ghost use Rattle.keying.specs.Key.{key_of};

use crate::command::Command;
use crate::machine::{Keying, Words};
use crate::report::{OffWhy, Report};

/// For how many ticks the key may be on: 90 seconds.
const MOST_TICKS: u16 = 9000;

/// What a tick asks for before its samples are written.
#[derive(Clone, Copy, Debug, PartialEq, Eq)]
pub struct Act {
    /// What to write on the line.
    pub command: Option<Command>,
    /// What to report.
    pub report: Option<Report>,
}

impl Act {
    const NOTHING: Act = Act {
        command: None,
        report: None,
    };
}

impl Keying {
    /// A tick of 10 ms whose samples are about to be written; `sounds` says whether one of them is not 0. Answers what
    /// to write on the line, and what to report, before that.
    pub fn tick(&mut self, sounds: bool) -> Act
        ensures act { (words : Words) (past : List Mark) → StandsFor words past self.old
            → result ≡ tick_told words sounds past }
        ensures stands_for { (words : Words) (past : List Mark) → StandsFor words past self.old
            → StandsFor words (ticked words sounds past) self.new }
    {
        let act = self.act(sounds);
        self.mark_tick(sounds);
        act
    }

    /// Turns the key on or off for a tick.
    fn act(&mut self, sounds: bool) -> Act
        ensures act { result ≡ act_told sounds (is_wanted sounds self.old) self.old }
        ensures kept { self.new ≡ after_rule (tick_marks sounds (is_wanted sounds self.old)) self.old }
        ensures within { self.new.on ≡ true → self.new.lit < 9000 }
    {
        if self.can_be_keyed() && sounds {
            self.mark_keyed();
            return Act {
                command: Some(self.keying_command()),
                report: None,
            };
        }
        if !self.on {
            return Act::NOTHING;
        }
        if self.lit == MOST_TICKS {
            self.mark_released();
            self.mark_cut(OffWhy::Limit);
            return Act {
                command: Some(Command::Release),
                report: Some(Report::Off(OffWhy::Limit)),
            };
        }
        if !sounds && self.linger == 0 {
            self.mark_released();
            return Act {
                command: Some(Command::Release),
                report: None,
            };
        }
        Act::NOTHING
    }

    /// The command that keys.
    fn keying_command(&self) -> Command
        ensures { result ≡ keying_command self.now.words }
    {
        if self.words.data {
            Command::KeyData
        } else {
            Command::Key
        }
    }

    /// After the samples of a tick were written: `fault` says whether that write, or an earlier one of the output or of
    /// the report, failed. Answers what to write on the line. From the first fault on nothing is keyed.
    pub fn written(&mut self, fault: bool) -> Option<Command>
        ensures command { (words : Words) (past : List Mark) → StandsFor words past self.old
            → result ≡ written_told fault (key_of words past) }
        ensures stands_for { (words : Words) (past : List Mark) → StandsFor words past self.old
            → StandsFor words (written words fault past) self.new }
    {
        self.stop_after_fault(fault)
    }

    fn stop_after_fault(&mut self, fault: bool) -> Option<Command>
        ensures command { result ≡ written_told fault self.old }
        ensures kept { self.new ≡ after_rule (written_marks fault) self.old }
    {
        if !fault {
            return None;
        }
        if !self.on {
            self.mark_write_fault();
            return None;
        }
        self.mark_released();
        self.mark_write_fault();
        Some(Command::Release)
    }
}
