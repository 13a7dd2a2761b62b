//! `record` and its options.
ghost use Rattle.std.specs.Prelude.{◌≡◌, Some, IfOk, IfSome, IsErrOf, IsNone, codes, map, string_bytes};
ghost use Rattle.clap.specs.Words.{found_of, rows_of};
ghost use Rattle.tnc_words.specs.declared.command.RecordOptions.{RecordOptions};
ghost use Rattle.tnc_words.specs.Commands.{HasRecordOptions, IsRecord, first_word};

use crate::command::RecordOptions;
use crate::fault::WordsFault;
use crate::number::{Bounds, number_found};
use crate::options::RECORD;
use crate::parsing::{has_flag, parsed};
use clap::ArgMatches;
use std::alloc::Global;

/// The samples that are kept: half an hour of sound at most.
const KEEP: Bounds = Bounds {
    least: 1,
    greatest: 17_280_000,
};

/// `record` and its options, after its own word.
pub(crate) fn read_record(alloc: Global, words: &[String]) -> Result<RecordOptions, WordsFault>
    requires { first_word (map string_bytes words.now) ≡ Some (codes "record") }
    ensures taken { IfOk result (IsRecord (map string_bytes words.now)) }
    ensures refused { IsErrOf result WordsFault.Refused
        → (recorder : RecordOptions) → ¬ IsRecord (map string_bytes words.now) recorder }
{
    let found = parsed(alloc, "record", &RECORD, words)?;
    record_options(&found).ok_or(WordsFault::Refused)
}

/// The options of `record` among what was found.
fn record_options(found: &ArgMatches) -> Option<RecordOptions>
    ensures options { IfSome result (HasRecordOptions (rows_of (found_of found.now))) }
    ensures none { IsNone result
        → (recorder : RecordOptions) → ¬ HasRecordOptions (rows_of (found_of found.now)) recorder }
{
    Some(RecordOptions {
        keep: number_found(found, "keep", 576_000, KEEP)? as u32,
        sensitive: has_flag(found, "sensitive"),
    })
}
