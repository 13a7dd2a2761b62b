//! What the words say of links and of the station's call.
ghost use Rattle.std.specs.Prelude.{◌≡◌, ◌≤◌, IfSome, IsNone, IsTrue, IsFalse, Option, option_map};
ghost use Rattle.clap.specs.Words.{found_of, rows_of};
ghost use Rattle.ax25_address.specs.Callsign.{Callsign};
ghost use Rattle.selective_reject.specs.declared.window.Mode.{Mode};
ghost use Rattle.link_machine.specs.declared.params.Params.{Params};
ghost use Rattle.link_machine.specs.Params.{HasWindows};
ghost use Rattle.tnc_words.specs.Links.{HasCall, HasMode, HasParams, SaysParams, usual_t1};

use crate::number::{Bounds, number_found};
use crate::parsing::{has_flag, text_of};
use ax25_address::Call;
use clap::ArgMatches;
use link_machine::Params;
use selective_reject::{Mode, check_window};

/// The windows, before it is asked whether they fit.
const WINDOW: Bounds = Bounds {
    least: 0,
    greatest: 255,
};

/// T1 on a path without repeaters, in ticks of 10 ms.
const T1: Bounds = Bounds {
    least: 100,
    greatest: 3000,
};

/// The most retries.
const RETRIES: Bounds = Bounds {
    least: 1,
    greatest: 20,
};

/// The parameters of links among what was found. `None` also if a window does not fit its modulus.
pub(crate) fn link_params(found: &ArgMatches) -> Option<Params>
    ensures params { IfSome result (HasParams (rows_of (found_of found.now))) }
    ensures none { IsNone result → (params : Params) → ¬ HasParams (rows_of (found_of found.now)) params }
{
    let params = params_said(found)?;
    if !has_windows(params) {
        return None;
    }
    Some(params)
}

/// The same, whether the windows fit or not.
fn params_said(found: &ArgMatches) -> Option<Params>
    ensures params { IfSome result (SaysParams (rows_of (found_of found.now))) }
    ensures none { IsNone result → (params : Params) → ¬ SaysParams (rows_of (found_of found.now)) params }
{
    Some(Params {
        mode: mode(text_of(found, "mode"), Mode::Rej)?,
        window: number_found(found, "window", 4, WINDOW)? as u8,
        wide: has_flag(found, "wide"),
        wide_mode: mode(text_of(found, "mode"), Mode::Srej)?,
        wide_window: number_found(found, "wide-window", 32, WINDOW)? as u8,
        t1: number_found(found, "t1", usual_t1(has_flag(found, "hf")), T1)? as u16,
        retries: number_found(found, "retries", 10, RETRIES)? as u8,
    })
}

/// The usual T1, by whether the station is for short wave.
fn usual_t1(hf: bool) -> u64
    ensures value { result ≡ usual_t1 hf }
    ensures bound { result ≤ 3000 }
{
    if hf { 600 } else { 200 }
}

/// Whether each window fits its modulus in its mode.
fn has_windows(params: Params) -> bool
    ensures yes { IsTrue result → HasWindows params }
    ensures no { IsFalse result → ¬ HasWindows params }
{
    check_window(8, params.window, params.mode).is_ok()
        && check_window(128, params.wide_window, params.wide_mode).is_ok()
}

/// The mode with the name in a text, or `usual` if there is no text.
fn mode(text: Option<&str>, usual: Mode) -> Option<Mode>
    ensures mode { IfSome result (HasMode usual (option_map (λ t. t.now) text.entry)) }
    ensures none { IsNone result → (mode : Mode) → ¬ HasMode usual (option_map (λ t. t.now) text.entry) mode }
{
    let Some(text) = text else {
        return Some(usual);
    };
    match text {
        "rej" => Some(Mode::Rej),
        "srej" => Some(Mode::Srej),
        _ => None,
    }
}

/// The call of a text, or no call if there is no text. `None` if a text is no call.
pub(crate) fn call_said(text: Option<&str>) -> Option<Option<Call>>
    ensures call { IfSome result (HasCall (option_map (λ t. t.now) text.entry)) }
    ensures none { IsNone result → (call : Option Callsign) → ¬ HasCall (option_map (λ t. t.now) text.entry) call }
{
    let Some(text) = text else {
        return Some(None);
    };
    match Call::parse(text) {
        Ok(call) => Some(Some(call)),
        Err(_) => None,
    }
}
