//! What is kept of a line and of its key, and how each thing that happens changes it.
ghost use Rattle.std.specs.Prelude.{◌≡◌, ◌≢◌, ◌≤◌, ◌<◌, ℕ, false, true, not, List, [], ◌∷◌, length};
ghost use Rattle.keying.specs.declared.line.Phase.TheVariants.{Down, Opening, Up};
ghost use Rattle.keying.specs.Marks.{Mark};
ghost use Rattle.keying.specs.Marks.Mark.{Turned, Tried, Opened, Keyed, Released, Heard, Accepted, Readied, Lost};
ghost use Rattle.keying.specs.Marks.Mark.{Ticked, Cut, WriteFault, Ends};
ghost use Rattle.keying.specs.Key.{free, is_free, is_down};
ghost use Rattle.keying.specs.Line.{phase};
ghost use Rattle.keying.specs.Kept.{after, StandsFor};

use crate::line::Phase;
use crate::report::{OffWhy, Why};
use arrayvec::ArrayVec;
use std::marker::Model;

/// What the operator chooses.
#[derive(Clone, Copy, Debug, PartialEq, Eq)]
pub struct Words {
    /// For how many ticks the key stays on after the last one with sound: 0 to 500.
    pub tail: u16,
    /// Whether the sound comes from the radio's data socket.
    pub data: bool,
}

/// The key of a transmitter, and the line on which it is turned on and off.
#[derive(Drop)]
pub struct Keying {
    pub(crate) words: Words,
    pub(crate) phase: Phase,
    /// When the turn began, in ms.
    pub(crate) time: u64,
    /// The last command on the line keys.
    pub(crate) on: bool,
    /// For how many ticks it has.
    pub(crate) lit: u16,
    /// When the commands without an answer were written, the oldest first.
    pub(crate) waiting: ArrayVec<u64, 2>,
    /// A keying command was written since a release was accepted.
    pub(crate) owed: bool,
    /// The last connection got as far as an accepted release.
    pub(crate) ready: bool,
    /// What has come of a line.
    pub(crate) part: ArrayVec<u8, 63>,
    pub(crate) last_try: Option<u64>,
    pub(crate) last_loss: Option<Why>,
    /// When the last tick was made.
    pub(crate) ticked: u64,
    /// For how many further ticks the key is wanted if they have no sound.
    pub(crate) linger: u16,
    pub(crate) cut: bool,
    /// A write of the output or of the report failed.
    pub(crate) failed: bool,
    /// When the end of the run began.
    pub(crate) ending: Option<u64>,
    /// A connection was begun after that.
    pub(crate) retried: bool,
}

impl Model for Keying {
    ghost use Rattle.keying.specs.Key.{Key};

    ghost Value = { Key };

    ghost use Rattle.std.specs.Prelude.{◌≡◌, ◌≤◌, true, length};

    ghost view = { λ k. record {
      words = k.words;
      phase = k.phase;
      time = k.time;
      on = k.on;
      lit = k.lit;
      waiting = k.waiting.items;
      owed = k.owed;
      ready = k.ready;
      part = k.part.items;
      last_try = k.last_try;
      last_loss = k.last_loss;
      ticked = k.ticked;
      linger = k.linger;
      cut = k.cut;
      failed = k.failed;
      ending = k.ending;
      retried = k.retried;
    } };

    ghost invariant = { λ k. (k.on ≡ true → length k.waiting.items ≤ 1) × (k.lit ≤ 9000) };
}

impl Keying {
    /// Nothing has happened yet: there is no connection, and the next turn asks for one.
    pub fn new(words: Words) -> Self
        ensures { StandsFor words [] result }
    {
        Keying {
            words,
            phase: Phase::Down,
            time: 0,
            on: false,
            lit: 0,
            waiting: ArrayVec::new(),
            owed: false,
            ready: false,
            part: ArrayVec::new(),
            last_try: None,
            last_loss: None,
            ticked: 0,
            linger: 0,
            cut: false,
            failed: false,
            ending: None,
            retried: false,
        }
    }

    /// Whether a transmission may begin: the radio is connected, released, and has accepted each command.
    pub fn is_free(&self) -> bool
        ensures { (words : Words) (past : List Mark) → StandsFor words past self.now → result ≡ is_free words past }
    {
        self.can_be_keyed()
    }

    /// Whether there is a connection, which may still be in the making.
    pub fn has_line(&self) -> bool
        ensures { (words : Words) (past : List Mark) → StandsFor words past self.now
            → result ≡ not (is_down (phase past)) }
    {
        !self.phase.is_down()
    }

    pub(crate) fn can_be_keyed(&self) -> bool
        ensures { result ≡ free self.now }
    {
        match self.phase {
            Phase::Up => !self.on && self.waiting.is_empty() && !self.cut && !self.failed,
            _ => false,
        }
    }

    pub(crate) fn mark_turn(&mut self, now: u64)
        ensures { self.new ≡ after (Turned now) self.old }
    {
        self.time = now;
    }

    pub(crate) fn mark_try(&mut self)
        ensures { self.new ≡ after Tried self.old }
    {
        self.phase = Phase::Opening;
        self.on = false;
        self.waiting.clear();
        self.waiting.push(self.time);
        self.ready = false;
        self.part.clear();
        self.last_try = Some(self.time);
        self.retried = self.ending.is_some();
    }

    pub(crate) fn mark_opened(&mut self)
        ensures { self.new ≡ after Opened self.old }
    {
        self.phase = Phase::Up;
        self.on = false;
    }

    pub(crate) fn mark_keyed(&mut self)
        requires { self.old.waiting ≡ [] }
        ensures { self.new ≡ after Keyed self.old }
    {
        self.on = true;
        self.lit = 0;
        self.owed = true;
        self.waiting.push(self.time);
    }

    pub(crate) fn mark_released(&mut self)
        requires { self.old.on ≡ true }
        ensures { self.new ≡ after Released self.old }
    {
        self.on = false;
        self.waiting.push(self.time);
    }

    pub(crate) fn mark_heard(&mut self, octet: u8)
        requires { octet ≢ 10 → length self.old.part < 63 }
        ensures { self.new ≡ after (Heard octet) self.old }
    {
        if octet == b'\n' {
            self.part.clear();
        } else {
            self.part.push(octet);
        }
    }

    pub(crate) fn mark_accepted(&mut self)
        requires { 1 ≤ length self.old.waiting }
        ensures { self.new ≡ after Accepted self.old }
    {
        self.waiting.remove(0);
        if !self.on && self.waiting.is_empty() {
            self.owed = false;
        }
    }

    pub(crate) fn mark_ready(&mut self)
        ensures { self.new ≡ after Readied self.old }
    {
        self.ready = true;
    }

    pub(crate) fn mark_lost(&mut self, why: Why)
        ensures { self.new ≡ after (Lost why) self.old }
    {
        self.phase = Phase::Down;
        self.on = false;
        self.waiting.clear();
        self.last_loss = Some(why);
    }

    pub(crate) fn mark_tick(&mut self, sounds: bool)
        requires { self.old.on ≡ true → self.old.lit < 9000 }
        ensures { self.new ≡ after (Ticked sounds) self.old }
    {
        self.cut = self.cut && (sounds || self.linger > 0);
        self.linger = if sounds {
            self.words.tail
        } else {
            self.linger.saturating_sub(1)
        };
        if self.on {
            self.lit += 1;
        }
        self.ticked = self.time;
    }

    pub(crate) fn mark_cut(&mut self, why: OffWhy)
        ensures { self.new ≡ after (Cut why) self.old }
    {
        self.cut = true;
    }

    pub(crate) fn mark_write_fault(&mut self)
        ensures { self.new ≡ after WriteFault self.old }
    {
        self.failed = true;
    }

    pub(crate) fn mark_end(&mut self)
        ensures { self.new ≡ after Ends self.old }
    {
        if self.ending.is_none() {
            self.ending = Some(self.time);
        }
    }
}
