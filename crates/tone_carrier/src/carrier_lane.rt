//! The windows of one offset, weighed one after the other.

ghost use Rattle.std.specs.Prelude.{◌≡◌, ◌≤◌, ◌↔◌, List, [], ◌∷◌, ◌++◌, IsTrue};
ghost use Rattle.tone_table.specs.declared.tone.Tone.{Tone};
ghost use Rattle.tone_carrier.specs.declared.heard_window.HeardWindow.{HeardWindow};
ghost use Rattle.tone_carrier.specs.HeardWindows.{IsWithin};
ghost use Rattle.tone_carrier.specs.Evidence.{evidence_with, gain};
ghost use Rattle.tone_carrier.specs.Tones.{ShowsCarrier};
ghost use Rattle.tone_carrier.specs.Hold.{hold_with};
ghost use Rattle.tone_carrier.specs.Held.{LaneStandsFor};

use crate::comparison::runs_on;
use crate::heard_window::HeardWindow;
use std::marker::Model;
use tone_table::Tone;

/// The evidence that is enough, and the most that is counted.
const MOST_EVIDENCE: u8 = 24;

/// The evidence that keeps a carrier.
const KEPT_EVIDENCE: u8 = 8;

/// How many windows a carrier is held with less.
const MOST_WINDOWS: u8 = 42;

/// Whether the windows of one offset show a carrier. It stands for all windows since the last gap, and keeps the last
/// one, the evidence, and for how many windows more the carrier is held.
#[derive(Debug, Drop)]
pub struct CarrierLane {
    last: Option<HeardWindow>,
    evidence: u8,
    hold: u8,
}

impl Model for CarrierLane {
    ghost use Rattle.std.specs.Prelude.{◌≡◌, ◌≤◌, Some};
    ghost use Rattle.tone_carrier.specs.declared.heard_window.HeardWindow.{HeardWindow};
    ghost use Rattle.tone_carrier.specs.HeardWindows.{IsWithin};
    ghost use Rattle.tone_carrier.specs.Held.{HeldLane};

    ghost Value = { HeldLane };

    ghost view = { λ s. record { last = s.last; evidence = s.evidence; hold = s.hold } };

    ghost invariant = { λ s. ((window : HeardWindow) → s.last ≡ Some window → IsWithin window) × (s.evidence ≤ 24)
        × (s.hold ≤ 42) };
}

impl CarrierLane {
    /// A lane that has taken no window.
    pub fn new() -> CarrierLane
        ensures { LaneStandsFor result [] }
    {
        CarrierLane {
            last: None,
            evidence: 0,
            hold: 0,
        }
    }

    /// Takes the next window.
    pub fn push(&mut self, window: &HeardWindow)
        requires { IsWithin window.now }
        ensures { (windows : List HeardWindow) → LaneStandsFor self.old windows
            → LaneStandsFor self.new (windows ++ window.now ∷ []) }
    {
        match self.last {
            None => {
                self.last = Some(*window);
            }
            Some(before) => {
                self.last = Some(*window);
                self.evidence = evidence_with(self.evidence, &before, window);
                self.hold = hold_with(self.hold, self.evidence);
            }
        }
    }

    /// Begins anew at a gap, as if no window had come before.
    pub fn restart(&mut self)
        ensures { LaneStandsFor self.new [] }
    {
        self.last = None;
        self.evidence = 0;
        self.hold = 0;
    }

    /// Whether the windows show a carrier.
    pub fn is_busy(&self) -> bool
        ensures { (windows : List HeardWindow) → LaneStandsFor self.now windows
            → (IsTrue result ↔ ShowsCarrier windows) }
    {
        self.hold > 0
    }
}

/// The evidence with one window more.
fn evidence_with(evidence: u8, before: &HeardWindow, window: &HeardWindow) -> u8
    requires evidence { evidence ≤ 24 }
    requires before { IsWithin before.now }
    requires window { IsWithin window.now }
    ensures evidence { result ≡ evidence_with evidence before.now window.now }
    ensures most { result ≤ 24 }
{
    if runs_on(before, window) {
        (evidence + gain(before.tone, window.tone)).min(MOST_EVIDENCE)
    } else {
        evidence.saturating_sub(5)
    }
}

/// What a window that runs on adds: one in the same tone, two if the tone changes.
fn gain(before: Tone, tone: Tone) -> u8
    ensures gain { result ≡ gain before tone }
    ensures most { result ≤ 2 }
{
    match (before, tone) {
        (Tone::Mark, Tone::Mark) | (Tone::Space, Tone::Space) => 1,
        (Tone::Mark, Tone::Space) | (Tone::Space, Tone::Mark) => 2,
    }
}

/// For how many windows more a carrier is held, by the evidence after a window.
fn hold_with(hold: u8, evidence: u8) -> u8
    requires { hold ≤ 42 }
    ensures hold { result ≡ hold_with hold evidence }
    ensures most { result ≤ 42 }
{
    if evidence == MOST_EVIDENCE || hold > 0 && evidence >= KEPT_EVIDENCE {
        return MOST_WINDOWS;
    }
    hold.saturating_sub(1)
}
