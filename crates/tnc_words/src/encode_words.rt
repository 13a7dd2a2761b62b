//! `encode` and its options.
ghost use Rattle.std.specs.Prelude.{◌≡◌, Some, IfOk, IfSome, IsErrOf, IsNone, codes, map, string_bytes};
ghost use Rattle.clap.specs.Words.{found_of, rows_of};
ghost use Rattle.tnc_words.specs.declared.command.EncodeWords.{EncodeWords};
ghost use Rattle.tnc_words.specs.Commands.{HasEncodeOptions, IsEncode, first_word};

use crate::command::EncodeWords;
use crate::fault::WordsFault;
use crate::forms::{audio_form, frame_form};
use crate::modem_words::modem;
use crate::number::{Bounds, number_found};
use crate::options::ENCODE;
use crate::parsing::{has_flag, parsed};
use clap::ArgMatches;
use std::alloc::Global;

/// The flags that open a transmission.
const OPENING: Bounds = Bounds {
    least: 2,
    greatest: 10_000,
};

/// The flags that close one.
const CLOSING: Bounds = Bounds {
    least: 1,
    greatest: 10_000,
};

/// The silent samples before one.
const SILENCE: Bounds = Bounds {
    least: 0,
    greatest: 1_000_000,
};

/// The peak of each tone.
const LEVEL: Bounds = Bounds {
    least: 10,
    greatest: 32_767,
};

/// `encode` and its options, after its own word.
pub(crate) fn read_encode(alloc: Global, words: &[String]) -> Result<EncodeWords, WordsFault>
    requires { first_word (map string_bytes words.now) ≡ Some (codes "encode") }
    ensures taken { IfOk result (IsEncode (map string_bytes words.now)) }
    ensures refused { IsErrOf result WordsFault.Refused
        → (encode : EncodeWords) → ¬ IsEncode (map string_bytes words.now) encode }
{
    let found = parsed(alloc, "encode", &ENCODE, words)?;
    encode_options(&found).ok_or(WordsFault::Refused)
}

/// The options of `encode` among what was found.
fn encode_options(found: &ArgMatches) -> Option<EncodeWords>
    ensures options { IfSome result (HasEncodeOptions (rows_of (found_of found.now))) }
    ensures none { IsNone result → (encode : EncodeWords) → ¬ HasEncodeOptions (rows_of (found_of found.now)) encode }
{
    Some(EncodeWords {
        frames: frame_form(found),
        audio: audio_form(found),
        join: has_flag(found, "join"),
        opening: number_found(found, "opening", 75, OPENING)? as u16,
        closing: number_found(found, "closing", 2, CLOSING)? as u16,
        silence: number_found(found, "silence", 0, SILENCE)? as u32,
        level: number_found(found, "level", 10_000, LEVEL)? as u16,
        modem: modem(found)?,
    })
}
