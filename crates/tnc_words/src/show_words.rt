//! `show` and its option.
ghost use Rattle.std.specs.Prelude.{◌≡◌, Some, IfOk, IfSome, IsErrOf, IsNone, codes, map, option_map, string_bytes};
ghost use Rattle.clap.specs.Words.{found_of, rows_of};
ghost use Rattle.ax25_frames.specs.ControlField.{numbers};
ghost use Rattle.ax25_frames.specs.declared.frame.Modulus.{Modulus};
ghost use Rattle.tnc_words.specs.declared.command.ShowWords.{ShowWords};
ghost use Rattle.tnc_words.specs.Commands.{HasShowOptions, IsShow, first_word};
ghost use Rattle.tnc_words.specs.Numbers.{HasNumber};

use crate::command::ShowWords;
use crate::fault::WordsFault;
use crate::number::{Bounds, number_or_default};
use crate::options::SHOW;
use crate::parsing::{parsed, text_of};
use ax25_frames::Modulus;
use clap::ArgMatches;
use std::alloc::Global;

/// The number of a modulus, which is the least or the greatest of these.
const MODULO: Bounds = Bounds {
    least: 8,
    greatest: 128,
};

/// `show` and its option, after its own word.
pub(crate) fn read_show(alloc: Global, words: &[String]) -> Result<ShowWords, WordsFault>
    requires { first_word (map string_bytes words.now) ≡ Some (codes "show") }
    ensures taken { IfOk result (IsShow (map string_bytes words.now)) }
    ensures refused { IsErrOf result WordsFault.Refused
        → (show : ShowWords) → ¬ IsShow (map string_bytes words.now) show }
{
    let found = parsed(alloc, "show", &SHOW, words)?;
    show_options(&found).ok_or(WordsFault::Refused)
}

/// The option of `show` among what was found.
fn show_options(found: &ArgMatches) -> Option<ShowWords>
    ensures options { IfSome result (HasShowOptions (rows_of (found_of found.now))) }
    ensures none { IsNone result → (show : ShowWords) → ¬ HasShowOptions (rows_of (found_of found.now)) show }
{
    Some(ShowWords {
        modulus: modulus(text_of(found, "modulo"))?,
    })
}

/// The modulus with the number of a text, or 8 if there is no text.
fn modulus(text: Option<&str>) -> Option<Modulus>
    ensures modulus { IfSome result (λ modulus.
        HasNumber (option_map (λ t. t.now) text.entry) 8 8 128 (numbers modulus)) }
    ensures none { IsNone result → (modulus : Modulus)
        → ¬ HasNumber (option_map (λ t. t.now) text.entry) 8 8 128 (numbers modulus) }
{
    match number_or_default(text, 8, MODULO)? {
        8 => Some(Modulus::Eight),
        128 => Some(Modulus::OneTwentyEight),
        _ => None,
    }
}
