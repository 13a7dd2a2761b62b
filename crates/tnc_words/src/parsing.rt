//! Words by `clap`.
ghost use Rattle.std.specs.Prelude.{◌≡◌, [], true, IfOk, OnOk, IsErrOf, map, option_map, string_bytes};
ghost use Rattle.clap.specs.Words.{app_of, fault_of, first_of, found_of, is_simple_and_free, matches_of, new_app};
ghost use Rattle.clap.specs.Words.{rows_of};
ghost use Rattle.tnc_words.specs.Entries.{with_entries};
ghost use Rattle.tnc_words.specs.Options.{is_used};

use crate::fault::WordsFault;
use crate::options::{Entry, command_of};
use clap::error::ErrorKind;
use clap::parser::ValueSource;
use clap::{ArgMatches, Command};
use std::alloc::Global;

/// What is found in words for a command with the options of a table. The first word is its name.
pub(crate) fn parsed<'a>(
    alloc: Global,
    name: &'a str,
    entries: &[Entry],
    words: &'a [String],
) -> Result<ArgMatches<'a>, WordsFault>
    requires { is_simple_and_free (with_entries (new_app name.now) entries.now) ≡ true }
    ensures rows { IfOk result (λ found. rows_of (found_of found)
        ≡ matches_of (with_entries (new_app name.entry.now) entries.now) (map string_bytes words.entry.now)) }
    ensures taken { OnOk result
        (fault_of (with_entries (new_app name.entry.now) entries.now) (map string_bytes words.entry.now) ≡ []) }
    ensures refused { IsErrOf result WordsFault.Refused
        → ¬ (fault_of (with_entries (new_app name.entry.now) entries.now) (map string_bytes words.entry.now) ≡ []) }
{
    found_by(command_of(alloc, name, entries)?, words)
}

/// What a command makes of words, of which the first is its name.
fn found_by<'a>(command: Command<'a>, words: &'a [String]) -> Result<ArgMatches<'a>, WordsFault>
    requires { is_simple_and_free (app_of command) ≡ true }
    ensures rows { IfOk result (λ found. rows_of (found_of found)
        ≡ matches_of (app_of command.entry) (map string_bytes words.entry.now)) }
    ensures taken { OnOk result (fault_of (app_of command.entry) (map string_bytes words.entry.now) ≡ []) }
    ensures refused { IsErrOf result WordsFault.Refused
        → ¬ (fault_of (app_of command.entry) (map string_bytes words.entry.now) ≡ []) }
{
    match command.try_get_matches_from(words) {
        Ok(found) => Ok(found),
        Err(error) if error.kind() == ErrorKind::OutOfMemory => Err(WordsFault::Memory),
        Err(_) => Err(WordsFault::Refused),
    }
}

/// The text of an option, if it was given.
pub(crate) fn text_of<'a>(found: &ArgMatches<'a>, name: &str) -> Option<&'a str>
    ensures { option_map (λ text. text.now) result ≡ first_of name.now (rows_of (found_of found.now)) }
{
    found.get_str(name)
}

/// Whether a flag was given.
pub(crate) fn has_flag(found: &ArgMatches, name: &str) -> bool
    ensures { result ≡ is_used name.now (rows_of (found_of found.now)) }
{
    match found.value_source(name) {
        Some(ValueSource::CommandLine) => true,
        Some(ValueSource::DefaultValue) => false,
        None => false,
    }
}
