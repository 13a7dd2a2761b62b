//! `call` and its options.
ghost use Rattle.std.specs.Prelude.{◌≡◌, Some, IfOk, IfSome, IsErrOf, IsNone, codes, map, string_bytes};
ghost use Rattle.clap.specs.Words.{found_of, rows_of};
ghost use Rattle.tnc_words.specs.declared.command.CallOptions.{CallOptions};
ghost use Rattle.tnc_words.specs.Commands.{HasCallOptions, IsCall, first_word};

use crate::command::CallOptions;
use crate::fault::WordsFault;
use crate::number::{Bounds, number_found, number_given};
use crate::options::CALL;
use crate::parsing::parsed;
use crate::stations::{call_given, repeaters_found};
use clap::ArgMatches;
use std::alloc::Global;

/// The ports of TCP.
const PORT: Bounds = Bounds {
    least: 1,
    greatest: 65_535,
};

/// The octets that are awaited.
const EXPECT: Bounds = Bounds {
    least: 0,
    greatest: 1_000_000,
};

/// How often the station is polled.
const POLLS: Bounds = Bounds {
    least: 1,
    greatest: 1_000_000,
};

/// `call` and its options, after its own word.
pub(crate) fn read_call(alloc: Global, words: &[String]) -> Result<CallOptions, WordsFault>
    requires { first_word (map string_bytes words.now) ≡ Some (codes "call") }
    ensures taken { IfOk result (IsCall (map string_bytes words.now)) }
    ensures refused { IsErrOf result WordsFault.Refused
        → (call : CallOptions) → ¬ IsCall (map string_bytes words.now) call }
{
    let found = parsed(alloc, "call", &CALL, words)?;
    match call_options(&found) {
        Some(call) => Ok(call),
        None => Err(WordsFault::Refused),
    }
}

/// The options of `call` among what was found.
fn call_options(found: &ArgMatches) -> Option<CallOptions>
    ensures options { IfSome result (HasCallOptions (rows_of (found_of found.now))) }
    ensures none { IsNone result → (call : CallOptions) → ¬ HasCallOptions (rows_of (found_of found.now)) call }
{
    Some(CallOptions {
        agw: number_given(found, "agw", PORT)? as u16,
        own: call_given(found, "from")?,
        remote: call_given(found, "to")?,
        via: repeaters_found(found, "via")?,
        expect: number_found(found, "expect", 0, EXPECT)? as u32,
        polls: number_found(found, "polls", 100_000, POLLS)? as u32,
    })
}
