//! The variables of a link apart from its numbers and packets.
ghost use Rattle.std.specs.Prelude.{◌≡◌, ◌<◌, ◌&&◌, IsFalse, if◌then◌else◌};
ghost use Rattle.selective_reject.specs.Outgoing.{back};
ghost use Rattle.link_machine.specs.Machine.{Machine as State, fresh_control, nothing_owed, idle_control, t1_after};
ghost use Rattle.link_machine.specs.Machine.{wide_retries};
ghost use Rattle.link_machine.specs.Turn.{begin};
ghost use Rattle.link_machine.specs.Acts.{timed_by, after_poll, releasing, calling, watching};
ghost use Rattle.link_machine.specs.Wants.{owes, is_asked_again};
ghost use Rattle.link_machine.specs.Seizing.{notice_passed, polling, info_sent};
ghost use Rattle.link_machine.specs.Frames.{stopped_t1, stopped, unretried_call, heard, heard_busy, out_of_sequence};
ghost use Rattle.link_machine.specs.Requests.{has_link, takes_none, is_closed};
ghost use Rattle.link_machine.specs.Ticks.{retried, is_spent, to_poll, silent};

use crate::params::{FittingParams, Params};
use crate::state::LinkState;

/// The inactive link timer T3, in ticks of 10 ms: five minutes.
const T3: u32 = 30_000;

/// How many retries a call modulo 128 has, if the link has more.
const WIDE_RETRIES: u8 = 3;

/// The greatest window.
const MOST_UNDER_WAY: u8 = 127;

/// The state of a link, its conditions, its retry count and its timers (AX.25 2.2 section 6.7.1). A timer is off, or
/// has so many ticks left.
#[derive(Clone, Copy, Debug, PartialEq, Eq)]
pub struct Control {
    /// How many repeaters its path has, on which T1 depends.
    pub hops: u8,
    /// T1 on a path without repeaters, in ticks of 10 ms.
    pub t1_base: u16,
    /// The most retries, N2.
    pub most_retries: u8,
    /// The most I frames under way that the other side takes, as far as it told.
    pub most_sent: u8,
    /// The state.
    pub state: LinkState,
    /// REJ is to be sent.
    pub rej: bool,
    /// A command with P = 1 is to be answered.
    pub answer: bool,
    /// A poll is to be sent.
    pub ask: bool,
    /// An acknowledgement is due.
    pub due: bool,
    /// A poll was sent, and its answer has not come.
    pub poll: bool,
    /// That poll went with an I frame.
    pub by_info: bool,
    /// The other side sent since, and did not answer it.
    pub passed: bool,
    /// SREJ came since.
    pub picked: bool,
    /// The other side is busy.
    pub busy: bool,
    /// A disconnect was asked for.
    pub quit: bool,
    /// The retries so far.
    pub rc: u8,
    /// The acknowledgement timer.
    pub t1: Option<u32>,
    /// The inactive link timer.
    pub t3: Option<u32>,
    /// The timer of the negotiation, TM201: it runs until the next XID command goes out.
    pub tm201: Option<u32>,
    /// How many XID commands were sent.
    pub asked: u8,
}

impl Control {
    /// A link that is not there, on a path of so many repeaters.
    pub(crate) fn idle(hops: u8, params: Params) -> Control
        ensures { result ≡ idle_control hops params }
    {
        Control {
            hops,
            t1_base: params.t1,
            most_retries: params.retries,
            most_sent: MOST_UNDER_WAY,
            state: LinkState::Idle,
            rej: false,
            answer: false,
            ask: false,
            due: false,
            poll: false,
            by_info: false,
            passed: false,
            picked: false,
            busy: false,
            quit: false,
            rc: 0,
            t1: None,
            t3: None,
            tm201: None,
            asked: 0,
        }
    }

    /// The acknowledgement timer T1 after so many retries.
    pub(crate) fn t1_after(&self, retries: u8) -> u32
        ensures { result ≡ t1_after retries self.now }
    {
        let way = 2 * u32::from(self.hops) + 1;
        let patience = u32::from(retries / 2).max(1);
        u32::from(self.t1_base) * way * patience
    }

    /// Whether a link is called, up or released.
    pub(crate) fn has_link(&self) -> bool
        ensures { result ≡ has_link self.now.state }
    {
        !matches!(self.state, LinkState::Idle)
    }

    /// Whether a disconnect is refused.
    pub(crate) fn takes_none(&self) -> bool
        ensures { result ≡ takes_none self.now.state }
    {
        matches!(self.state, LinkState::Idle | LinkState::Releasing)
    }

    /// Whether packets are refused.
    pub(crate) fn is_closed(&self) -> bool
        ensures { result ≡ is_closed self.now }
    {
        self.takes_none() || self.quit
    }

    /// Nothing is to be sent, no poll awaits its answer, and the other side is not busy.
    fn owe_nothing(&mut self)
        ensures { self.new ≡ nothing_owed self.old }
    {
        self.rej = false;
        self.answer = false;
        self.ask = false;
        self.due = false;
        self.poll = false;
        self.by_info = false;
        self.passed = false;
        self.picked = false;
        self.busy = false;
        self.tm201 = None;
    }

    /// A set-up begins, with the link's own T1, N2 and k. A wish to disconnect stays.
    pub(crate) fn begin(&mut self, params: &FittingParams)
        ensures { self.new ≡ fresh_control params.now self.old }
    {
        self.owe_nothing();
        self.rc = 0;
        self.t1 = None;
        self.t3 = Some(T3);
        self.t1_base = params.t1();
        self.most_retries = params.retries();
        self.most_sent = MOST_UNDER_WAY;
    }

    /// SABM or SABME was sent.
    pub(crate) fn call(&mut self)
        ensures { self.new ≡ calling self.old }
    {
        self.state = LinkState::Calling;
        self.t1 = Some(self.t1_after(self.rc));
        self.t3 = None;
    }

    /// A call goes on, with all its retries.
    pub(crate) fn call_anew(&mut self)
        ensures { self.new ≡ unretried_call self.old }
    {
        self.rc = 0;
        self.t1 = Some(self.t1_after(0));
    }

    /// DISC was sent.
    pub(crate) fn release(&mut self)
        ensures { self.new ≡ releasing self.old }
    {
        self.owe_nothing();
        self.state = LinkState::Releasing;
        self.rc = 0;
        self.t1 = Some(self.t1_after(0));
        self.t3 = None;
    }

    /// A call or a release has ended.
    pub(crate) fn end_call(&mut self)
        ensures { self.new ≡ stopped_t1 self.old }
    {
        self.state = LinkState::Idle;
        self.t1 = None;
    }

    /// A set-up has ended.
    pub(crate) fn leave(&mut self)
        ensures { self.new ≡ stopped self.old }
    {
        self.owe_nothing();
        self.state = LinkState::Idle;
        self.t1 = None;
        self.t3 = None;
    }

    /// Packets were acknowledged: some, and perhaps all that were sent.
    pub(crate) fn acknowledge(&mut self, some: bool, all: bool)
        ensures { self.new ≡ timed_by some all self.old }
    {
        if !some {
            return;
        }
        self.rc = 0;
        if self.poll {
            return;
        }
        self.ask = false;
        if all {
            self.t1 = None;
            self.t3 = Some(T3);
        } else {
            self.t1 = Some(self.t1_after(0));
        }
    }

    /// The other side was heard, by an I or S frame; `answers` says that it is a response with F = 1.
    pub(crate) fn hear(&mut self, answers: bool)
        ensures { self.new ≡ heard answers self.old }
    {
        if self.t3.is_some() {
            self.t3 = Some(T3);
        }
        if self.poll && !answers {
            self.passed = true;
        }
    }

    /// The same, by an S frame, which tells whether it is busy.
    pub(crate) fn hear_busy(&mut self, busy: bool, answers: bool)
        ensures { self.new ≡ heard_busy busy answers self.old }
    {
        self.hear(answers);
        self.busy = busy;
    }

    /// By REJ, a frame came that is not the next: one ahead of it, or a repeat.
    pub(crate) fn hear_out_of_sequence(&mut self, lies_ahead: bool)
        ensures { self.new ≡ out_of_sequence lies_ahead self.old }
    {
        if lies_ahead {
            self.rej = true;
        } else {
            self.due = true;
        }
    }

    /// Whether an S frame is to be sent, or it is to be seen whether a poll was heard.
    pub(crate) fn owes(&self) -> bool
        ensures { result ≡ owes self.now }
    {
        self.passed || self.rej || self.answer || self.ask || self.due
    }

    /// A poll was sent, and with an I frame if `by_info`.
    pub(crate) fn poll(&mut self, by_info: bool)
        ensures { self.new ≡ polling by_info self.old }
    {
        self.ask = false;
        self.due = false;
        self.poll = true;
        self.by_info = by_info;
        self.passed = false;
        self.picked = false;
        self.t1 = Some(self.t1_after(self.rc));
        self.t3 = None;
    }

    /// The answer to a poll has come, or comes no more; the retries then are so many.
    pub(crate) fn recover(&mut self, retries: u8)
        ensures { self.new ≡ after_poll retries self.old }
    {
        self.poll = false;
        self.by_info = false;
        self.passed = false;
        self.rc = retries;
        if self.busy {
            self.t1 = Some(self.t1_after(retries));
            self.t3 = None;
        } else {
            self.t1 = None;
            self.t3 = Some(T3);
        }
    }

    /// Sees whether the other side has passed a poll over; `again` says that SREJ asked for numbers. Tells whether all
    /// is to be sent again.
    pub(crate) fn notice_passed(&mut self, full: bool, again: bool) -> bool
        ensures control { (m : State) → m.control ≡ self.old → again ≡ is_asked_again m
            → self.new ≡ (notice_passed full (begin m)).now.control }
        ensures outgoing { (m : State) → m.control ≡ self.old → again ≡ is_asked_again m
            → (notice_passed full (begin m)).now.outgoing ≡ (if result then back m.outgoing else m.outgoing) }
        ensures state { self.new.state ≡ self.old.state }
        ensures quit { self.new.quit ≡ self.old.quit }
    {
        if !self.passed {
            return false;
        }
        self.passed = false;
        if !self.poll || full {
            return false;
        }
        if !self.by_info {
            self.ask = true;
            return false;
        }
        let kept = self.picked && again;
        self.recover(self.rc);
        self.picked = false;
        !kept
    }

    /// Whether a response with F = 1, if this is one, is the answer to a poll.
    pub(crate) fn recovers(&self, answers: bool) -> bool
        ensures { result ≡ (self.now.poll && answers) }
    {
        self.poll && answers
    }

    /// An I frame was sent, with this P.
    pub(crate) fn send_info(&mut self, poll: bool)
        ensures { self.new ≡ info_sent poll self.old }
    {
        if poll {
            self.poll(true);
        } else {
            self.due = false;
            self.watch();
        }
    }

    /// What was sent, or a side that is busy, is watched.
    pub(crate) fn watch(&mut self)
        ensures { self.new ≡ watching self.old }
    {
        self.t1 = self.t1.or(Some(self.t1_after(self.rc)));
        self.t3 = None;
    }

    /// Whether there were as many retries as there may be.
    pub(crate) fn is_spent(&self) -> bool
        ensures spent { result ≡ is_spent self.now }
        ensures more { IsFalse result → self.now.rc < 255 }
    {
        self.rc >= self.most_retries
    }

    /// How many retries a call modulo 128 has, before it goes on modulo 8.
    pub(crate) fn wide_retries(&self) -> u8
        ensures { result ≡ wide_retries self.now }
    {
        WIDE_RETRIES.min(self.most_retries.saturating_sub(1))
    }

    /// One retry more.
    pub(crate) fn retry(&mut self)
        requires { self.old.rc < 255 }
        ensures { self.new ≡ retried self.old }
    {
        self.rc += 1;
        self.t1 = Some(self.t1_after(self.rc));
    }

    /// A side that is up is to be polled.
    pub(crate) fn ask_again(&mut self)
        requires { self.old.rc < 255 }
        ensures { self.new ≡ to_poll self.old }
    {
        self.ask = true;
        self.rc += 1;
    }

    /// A side that was silent is to be polled.
    pub(crate) fn break_silence(&mut self)
        ensures { self.new ≡ silent self.old }
    {
        self.ask = true;
        self.rc = 0;
        self.t3 = None;
    }
}
