//! What the law of two live runs asks of two stations, found of the lines of their monitors: each frame of the link that
//! one hears was sent before by the other one, in order and once, and each SABM, SABME and DISC finds a quiet channel.
//! A frame is queued before it is sent, so a line that comes early enough tells more than the law asks.

use std::alloc::Global;
use std::marker::Model;
use tnc_base::OutOfMemory;

/// A frame of the link, without its calls.
#[derive(Clone, Copy, Debug)]
struct Line<'a> {
    sent: bool,
    text: &'a str,
}

/// What a station's monitor tells of the frames of a link, and how many lines of it a walk has passed.
#[derive(Drop)]
pub(super) struct Station<'a> {
    lines: Vec<Line<'a>>,
    passed: usize,
    /// The frames that it sends, and how many of them the walk has passed.
    frames: Vec<&'a str>,
    sent: usize,
    /// For each frame that it hears the number of that frame among those that the other one sends.
    pairs: Vec<usize>,
    heard: usize,
}

// No test needs a fact about a station, so its value shows none. Each test is then proved faster.
impl<'a> Model for Station<'a> {
    ghost use Rattle.std.specs.Prelude.{⊤};

    ghost Value = { ⊤ };

    ghost view = { λ _. tt };
}

impl<'a> Station<'a> {
    /// The frames that a report tells of between two calls, by how lines of sent ones and of heard ones begin.
    pub(super) fn new(
        alloc: Global,
        report: &'a str,
        [sent, heard]: [&str; 2],
    ) -> Result<Station<'a>, OutOfMemory> {
        let mut lines = Vec::new(alloc);
        let mut frames = Vec::new(alloc);
        for line in report.lines() {
            if let Some(text) = line.strip_prefix(sent) {
                lines.push(Line { sent: true, text })?;
                frames.push(text)?;
            } else if let Some(text) = line.strip_prefix(heard) {
                lines.push(Line { sent: false, text })?;
            }
        }
        Ok(Station {
            lines,
            passed: 0,
            frames,
            sent: 0,
            pairs: Vec::new(alloc),
            heard: 0,
        })
    }

    /// Pairs each frame that it hears with the last one of the same text that the other one sends before those of later
    /// ones. Whether all have one.
    pub(super) fn pair(&mut self, frames: &[&str]) -> Result<bool, OutOfMemory> {
        let mut end = frames.len();
        for line in self.lines.iter().rev() {
            if !line.sent {
                let Some(number) = last_of(frames, end, line.text) else {
                    return Ok(false);
                };
                self.pairs.push(number)?;
                end = number;
            }
        }
        self.pairs.reverse();
        Ok(true)
    }

    /// The frames that it sends.
    pub(super) fn frames(&self) -> &[&'a str] {
        &self.frames
    }

    /// How many frames it hears.
    pub(super) fn hears(&self) -> usize {
        self.pairs.len()
    }

    /// The line that comes next, if it is not of a frame that the other one has yet to send.
    fn next(&self, other: &Station<'_>) -> Option<Line<'a>> {
        let line = self.lines.get(self.passed)?;
        let number = self.pairs.get(self.heard).copied().unwrap_or(0);
        if line.sent || number < other.sent {
            Some(*line)
        } else {
            None
        }
    }

    /// Whether a frame of one of these kinds is in flight to another station: sent, and to be heard later.
    fn has_in_flight(&self, other: &Station<'_>, kinds: &[&str]) -> bool {
        for number in other.pairs.iter().skip(other.heard) {
            let frame = self.frames.get(*number).copied().unwrap_or("");
            if *number < self.sent && is_one_of(frame, kinds) {
                return true;
            }
        }
        false
    }

    fn pass(&mut self, line: Line<'_>) {
        self.passed = self.passed.saturating_add(1);
        if line.sent {
            self.sent = self.sent.saturating_add(1);
        } else {
            self.heard = self.heard.saturating_add(1);
        }
    }
}

/// The last of the first frames that has a text.
fn last_of(frames: &[&str], end: usize, text: &str) -> Option<usize> {
    let mut last = None;
    for (number, frame) in frames.iter().take(end).enumerate() {
        if *frame == text {
            last = Some(number);
        }
    }
    last
}

fn is_one_of(frame: &str, kinds: &[&str]) -> bool {
    for kind in kinds {
        if frame.starts_with(*kind) {
            return true;
        }
    }
    false
}

/// The frames that set a link up or end it, as lines begin.
const SET_UPS: &[&str] = &["SABM ", "SABME ", "DISC "];

/// The answers to these.
const ANSWERS: &[&str] = &["UA ", "DM "];

/// Whether a line of a station finds a quiet channel, if it is of a frame that has to.
fn finds_quiet(line: Line<'_>, own: &Station<'_>, other: &Station<'_>) -> bool {
    !line.sent
        || !is_one_of(line.text, SET_UPS)
        || !own.has_in_flight(other, SET_UPS) && !other.has_in_flight(own, ANSWERS)
}

/// Whether all lines of both stations stand in one order in which the premises hold: first those of `a`, as far as they
/// need none of `b`, and so on.
pub(super) fn stand_in_order(a: &mut Station<'_>, b: &mut Station<'_>) -> bool {
    for _ in 0..a.lines.len().saturating_add(b.lines.len()) {
        let quiet = if let Some(line) = a.next(b) {
            let quiet = finds_quiet(line, a, b);
            a.pass(line);
            quiet
        } else if let Some(line) = b.next(a) {
            let quiet = finds_quiet(line, b, a);
            b.pass(line);
            quiet
        } else {
            return false;
        };
        if !quiet {
            return false;
        }
    }
    true
}
