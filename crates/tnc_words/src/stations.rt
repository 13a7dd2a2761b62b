//! The stations of a call, as options name them.
ghost use Rattle.std.specs.Prelude.{◌≡◌, ◌∷◌, [], ⊤, List, IfSome, IsNone, Option, option_map};
ghost use Rattle.clap.specs.Words.{first_of, found_of, rows_of};
ghost use Rattle.ax25_address.specs.Callsign.{Callsign};
ghost use Rattle.ax25_address.specs.CallText.{IsCallText};
ghost use Rattle.tnc_words.specs.Stations.{GivesCall, HasRepeaters, IsCallList};

use crate::parsing::text_of;
use arrayvec::ArrayVec;
use ax25_address::Call;
use clap::ArgMatches;

/// The most repeaters of a path (AX.25 2.2 section 3.12).
const MOST_REPEATERS: usize = 8;

/// The call that was given for an option, which has no default.
pub(crate) fn call_given(found: &ArgMatches, name: &str) -> Option<Call>
    ensures call { IfSome result (GivesCall (first_of name.now (rows_of (found_of found.now)))) }
    ensures none { IsNone result → (call : Callsign)
        → ¬ GivesCall (first_of name.now (rows_of (found_of found.now))) call }
{
    spelled(text_of(found, name)?)
}

/// The repeaters of an option, which are none if it was not given. `None` if its text is no list of one to eight calls.
pub(crate) fn repeaters_found(found: &ArgMatches, name: &str) -> Option<ArrayVec<Call, 8>>
    ensures calls { IfSome result (λ calls.
        HasRepeaters (first_of name.now (rows_of (found_of found.now))) calls.items) }
    ensures none { IsNone result → (calls : List Callsign)
        → ¬ HasRepeaters (first_of name.now (rows_of (found_of found.now))) calls }
{
    match text_of(found, name) {
        Some(text) => calls_in(text),
        None => Some(ArrayVec::new()),
    }
}

/// The calls of a text that are joined by commas.
fn calls_in(text: &str) -> Option<ArrayVec<Call, 8>>
    ensures calls { IfSome result (λ calls. IsCallList text.now calls.items) }
    ensures none { IsNone result → (calls : List Callsign) → ¬ IsCallList text.now calls }
{
    let mut calls = ArrayVec::new();
    let mut rest = text;
    while calls.len() < MOST_REPEATERS {
        match rest.split_once(',') {
            Some((first, others)) => {
                calls.push(spelled(first)?);
                rest = others;
            }
            None => {
                calls.push(spelled(rest)?);
                return Some(calls);
            }
        }
    }
    None
}

/// The call of a text, if it is one.
fn spelled(text: &str) -> Option<Call>
    ensures call { IfSome result (IsCallText text.now) }
    ensures none { IsNone result → (call : Callsign) → ¬ IsCallText text.now call }
{
    match Call::parse(text) {
        Ok(call) => Some(call),
        Err(_) => None,
    }
}
