//! Four lanes that take samples one by one.

ghost use Rattle.std.specs.Prelude.{◌≡◌, ℕ, ◌+◌, ◌<◌, ◌≤◌, ◌^◌, ◌↔◌, ℤ, List, [], ◌∷◌, ◌++◌, drop, IsTrue};
ghost use Rattle.std.specs.Prelude.{slice_index_or};
ghost use Rattle.tone_carrier.specs.declared.heard_window.HeardWindow.{HeardWindow};
ghost use Rattle.tone_carrier.specs.Tones.{HasTones, ShowsCarrier};
ghost use Rattle.tone_carrier.specs.Held.{HeldLane, LaneStandsFor, StandsFor};

use crate::carrier_lane::CarrierLane;
use crate::heard_window::HeardWindow;
use std::marker::Model;

/// Whether samples since the last gap have tones. It keeps the last eight of them, and a lane for each of the offsets
/// 0, 2, 4 and 6.
#[derive(Debug, Drop)]
pub struct Carrier {
    lanes: [CarrierLane; 4],
    begin: u64,
    position: u64,
    recent: [i16; 8],
}

impl Model for Carrier {
    ghost use Rattle.std.specs.Prelude.{◌≤◌};
    ghost use Rattle.tone_carrier.specs.Held.{HeldCarrier};

    ghost Value = { HeldCarrier };

    ghost view = { λ s. record { lanes = s.lanes; begin = s.begin; position = s.position; recent = s.recent } };

    ghost invariant = { λ s. s.begin ≤ s.position };
}

impl Carrier {
    /// A carrier at position 0 that has heard nothing.
    pub fn new() -> Carrier
        ensures stands_for { StandsFor result 0 [] }
        ensures position { result.position ≡ 0 }
    {
        Carrier {
            lanes: new_lanes(),
            begin: 0,
            position: 0,
            recent: [0; 8],
        }
    }

    /// Takes one sample.
    pub fn push(&mut self, sample: i16)
        requires { self.old.position < 2 ^ 48 }
        ensures stands_for { (begin : ℕ) (x : List ℤ) → StandsFor self.old begin x
            → StandsFor self.new begin (x ++ sample ∷ []) }
        ensures position { self.new.position ≡ self.old.position + 1 }
    {
        let recent = with_sample(&self.recent, sample);
        self.recent = recent;
        let position = self.position + 1;
        self.position = position;
        if position < self.begin + 8 {
            return;
        }
        if position % 2 == 1 {
            return;
        }
        let lane = &mut self.lanes[(position % 8 / 2) as usize];
        lane.push(&HeardWindow::of(&recent));
    }

    /// Begins a new stretch at `to`, after a gap, as if no sample had come before.
    pub fn skip(&mut self, to: u64)
        requires { (self.old.position ≤ to) × (to ≤ 2 ^ 48) }
        ensures stands_for { StandsFor self.new to [] }
        ensures position { self.new.position ≡ to }
    {
        self.lanes = new_lanes();
        self.begin = to;
        self.position = to;
        self.recent = [0; 8];
    }

    /// How many samples were pushed or skipped.
    pub fn position(&self) -> u64
        ensures { result ≡ self.now.position }
    {
        self.position
    }

    /// Whether the samples of the stretch have tones.
    pub fn is_busy(&self) -> bool
        ensures { (begin : ℕ) (x : List ℤ) → StandsFor self.now begin x → (IsTrue result ↔ HasTones begin x) }
    {
        is_some_busy(&self.lanes)
    }
}

/// Four lanes that have taken no window.
fn new_lanes() -> [CarrierLane; 4]
    ensures { (half : ℕ) (d : HeldLane) → half < 4 → LaneStandsFor (slice_index_or result half d) [] }
{
    [
        CarrierLane::new(),
        CarrierLane::new(),
        CarrierLane::new(),
        CarrierLane::new(),
    ]
}

/// Whether the windows of some lane show a carrier.
fn is_some_busy(lanes: &[CarrierLane; 4]) -> bool
    ensures { (windows : ℕ → List HeardWindow)
        → ((k : ℕ) (d : HeldLane) → k < 4 → LaneStandsFor (slice_index_or lanes.now k d) (windows k))
        → (IsTrue result ↔ ((k : ℕ) × (k < 4) × ShowsCarrier (windows k))) }
{
    for lane in lanes {
        if lane.is_busy() {
            return true;
        }
    }
    false
}

/// The last seven of eight samples, and one more.
fn with_sample(recent: &[i16; 8], sample: i16) -> [i16; 8]
    ensures { result ≡ drop 1 recent.now ++ sample ∷ [] }
{
    let mut with = [sample; 8];
    with[..7].copy_from_slice(&recent[1..]);
    with
}
