//! What is read on the line.
ghost use Rattle.std.specs.Prelude.{◌≡◌, ◌++◌, ◌∷◌, [], Bool, Option, List, ◌≤◌, length};
ghost use Rattle.keying.specs.Kept.{after_all, after_octets, after_reading, after_rule};
ghost use Rattle.keying.specs.Marks.{Mark};
ghost use Rattle.keying.specs.Rules.{answer_marks, accept_marks, line_marks, octet_marks, end_marks};

use crate::answer::{Answer, answer_of};
use crate::line::{End, Phase};
use crate::machine::Keying;
use crate::report::Why;

/// The most octets of a line without its line feed.
const LONGEST_LINE: usize = 63;

impl Keying {
    /// Takes what was read at this time, in ms.
    pub(crate) fn read(&mut self, now: u64, octets: &[u8], end: Option<End>)
        ensures { self.new ≡ after_reading now octets.now end self.old }
    {
        self.mark_turn(now);
        self.take_octets(octets);
        self.take_end(end);
    }

    fn take_octets(&mut self, octets: &[u8])
        ensures { self.new ≡ after_octets octets.now self.old }
    {
        for octet in octets {
            self.take_octet(*octet);
        }
    }

    fn take_octet(&mut self, octet: u8)
        ensures { self.new ≡ after_rule (octet_marks octet) self.old }
    {
        match self.phase {
            Phase::Down => {}
            Phase::Opening => self.mark_lost(Why::Answer),
            Phase::Up => self.take_on_line(octet),
        }
    }

    fn take_on_line(&mut self, octet: u8)
        ensures { self.new ≡ after_rule (line_marks octet) self.old }
    {
        if octet == b'\n' {
            let answer = answer_of(self.part.as_slice());
            self.mark_heard(octet);
            self.take_answer(answer);
        } else if self.part.len() == LONGEST_LINE {
            self.mark_lost(Why::Answer);
        } else {
            self.mark_heard(octet);
        }
    }

    /// An answer; one that no command waits for is none.
    fn take_answer(&mut self, answer: Answer)
        ensures { self.new ≡ after_rule (answer_marks answer) self.old }
    {
        if self.waiting.is_empty() {
            return self.mark_lost(Why::Answer);
        }
        match answer {
            Answer::Unclear => self.mark_lost(Why::Answer),
            Answer::Refuses(number) => self.mark_lost(Why::Refused(number)),
            Answer::Accepts => self.accept(),
        }
    }

    /// The oldest command is accepted; the line is ready with the first release.
    fn accept(&mut self)
        requires { 1 ≤ length self.old.waiting }
        ensures { self.new ≡ after_rule accept_marks self.old }
    {
        if !self.on && self.waiting.len() == 1 && !self.ready {
            self.mark_ready();
        }
        self.mark_accepted();
    }

    /// Reading or writing ended so.
    pub(crate) fn take_end(&mut self, end: Option<End>)
        ensures { self.new ≡ after_rule (end_marks end) self.old }
    {
        let Some(end) = end else {
            return;
        };
        match self.phase {
            Phase::Down => {}
            Phase::Opening => self.mark_lost(Why::Connect),
            Phase::Up => match end {
                End::Closed => self.mark_lost(Why::Ended),
                End::Fault => self.mark_lost(Why::Failed),
            },
        }
    }
}
