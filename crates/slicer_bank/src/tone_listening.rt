//! A lane that listens for tones, or none.

ghost use Rattle.std.specs.Prelude.{◌≡◌, ◌↔◌, List, [], ◌∷◌, ◌++◌, true, is_some, IsTrue};
ghost use Rattle.offset_slicers.specs.Decided.{IsDecidedAs};
ghost use Rattle.tone_carrier.specs.declared.heard_window.HeardWindow.{HeardWindow};
ghost use Rattle.tone_carrier.specs.HeardWindows.{heard_window};
ghost use Rattle.tone_carrier.specs.Tones.{ShowsCarrier};
ghost use Rattle.slicer_bank.specs.StretchLanes.{TonesStandFor};

use offset_slicers::Decision;
use tone_carrier::{CarrierLane, HeardWindow};

/// One that has taken no window, if it is asked for.
pub(crate) fn tones_if(asked: bool) -> Option<CarrierLane>
    ensures stands_for { TonesStandFor result [] }
    ensures asked { is_some result ≡ asked }
{
    if asked {
        Some(CarrierLane::new())
    } else {
        None
    }
}

/// Gives it the next window and the decision on that.
pub(crate) fn weigh(tones: &mut Option<CarrierLane>, window: &[i16; 8], decision: &Decision)
    requires { IsDecidedAs window.now decision.now }
    ensures stands_for { (windows : List HeardWindow) → TonesStandFor tones.old windows
        → TonesStandFor tones.new (windows ++ heard_window window.now ∷ []) }
    ensures asked { is_some tones.new ≡ is_some tones.old }
{
    match tones {
        None => {}
        Some(lane) => {
            let heard = HeardWindow::decided(window, decision.tone, decision.sine, decision.cosine);
            lane.push(&heard);
        }
    }
}

/// Begins anew at a gap, as if no window had come before.
pub(crate) fn restart(tones: &mut Option<CarrierLane>)
    ensures stands_for { TonesStandFor tones.new [] }
    ensures asked { is_some tones.new ≡ is_some tones.old }
{
    match tones {
        None => {}
        Some(lane) => lane.restart(),
    }
}

/// Whether it listens and its windows show a carrier.
pub(crate) fn is_busy(tones: &Option<CarrierLane>) -> bool
    ensures { (windows : List HeardWindow) → TonesStandFor tones.now windows
        → (IsTrue result ↔ ((is_some tones.now ≡ true) × ShowsCarrier windows)) }
{
    match tones {
        None => false,
        Some(lane) => lane.is_busy(),
    }
}
