//! `decode` and its options.
ghost use Rattle.std.specs.Prelude.{◌≡◌, Some, IfOk, IfSome, IsErrOf, IsNone, codes, map, string_bytes};
ghost use Rattle.clap.specs.Words.{found_of, rows_of};
ghost use Rattle.tnc_words.specs.declared.command.DecodeWords.{DecodeWords};
ghost use Rattle.tnc_words.specs.declared.command.Receiving.{Receiving};
ghost use Rattle.tnc_words.specs.Commands.{HasDecodeOptions, IsDecode, first_word};
ghost use Rattle.tnc_words.specs.Rates.{HasReceiving};

use crate::command::{DecodeWords, Receiving, SampleRate};
use crate::fault::WordsFault;
use crate::forms::{audio_form, frame_form};
use crate::options::DECODE;
use crate::parsing::{has_flag, parsed, text_of};
use crate::rate_words::sample_rate;
use clap::ArgMatches;
use std::alloc::Global;

/// `decode` and its options, after its own word.
pub(crate) fn read_decode(alloc: Global, words: &[String]) -> Result<DecodeWords, WordsFault>
    requires { first_word (map string_bytes words.now) ≡ Some (codes "decode") }
    ensures taken { IfOk result (IsDecode (map string_bytes words.now)) }
    ensures refused { IsErrOf result WordsFault.Refused
        → (decode : DecodeWords) → ¬ IsDecode (map string_bytes words.now) decode }
{
    let found = parsed(alloc, "decode", &DECODE, words)?;
    decode_options(&found).ok_or(WordsFault::Refused)
}

/// The options of `decode` among what was found.
fn decode_options(found: &ArgMatches) -> Option<DecodeWords>
    ensures options { IfSome result (HasDecodeOptions (rows_of (found_of found.now))) }
    ensures none { IsNone result → (decode : DecodeWords) → ¬ HasDecodeOptions (rows_of (found_of found.now)) decode }
{
    Some(DecodeWords {
        audio: audio_form(found),
        frames: frame_form(found),
        threads: has_flag(found, "threads"),
        receiving: receiving(found)?,
    })
}

/// How samples are heard, by what was found.
fn receiving(found: &ArgMatches) -> Option<Receiving>
    ensures receiving { IfSome result (HasReceiving (rows_of (found_of found.now))) }
    ensures none { IsNone result → (receiving : Receiving) → ¬ HasReceiving (rows_of (found_of found.now)) receiving }
{
    let rate = sample_rate(text_of(found, "rate"))?;
    let flags = (
        has_flag(found, "hf"),
        has_flag(found, "sensitive"),
        has_flag(found, "fx25"),
    );
    let threads = has_flag(found, "threads");
    match (flags, rate) {
        ((false, false, false), rate) => Some(Receiving::Standard { rate }),
        ((false, true, false), rate) => Some(Receiving::Sensitive { rate }),
        ((true, false, false), SampleRate::Narrow) if !threads => Some(Receiving::ShortWave),
        ((true, true, false), SampleRate::Narrow) if !threads => {
            Some(Receiving::SensitiveShortWave)
        }
        ((false, false, true), SampleRate::Narrow) => Some(Receiving::Fx25),
        ((false, true, true), SampleRate::Narrow) => Some(Receiving::SensitiveFx25),
        _ => None,
    }
}
