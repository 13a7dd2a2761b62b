//! `loop` and its options.
ghost use Rattle.std.specs.Prelude.{◌≡◌, Some, IfOk, IfSome, IsErrOf, IsNone, codes, map, string_bytes};
ghost use Rattle.clap.specs.Words.{found_of, rows_of};
ghost use Rattle.tnc_words.specs.declared.command.LoopWords.{LoopWords};
ghost use Rattle.tnc_words.specs.Commands.{HasLoopOptions, IsLoop, first_word};

use crate::command::LoopWords;
use crate::fault::WordsFault;
use crate::number::{Bounds, number_given};
use crate::options::LOOP;
use crate::parsing::{has_flag, parsed};
use clap::ArgMatches;
use std::alloc::Global;

/// The seeds.
const SEED: Bounds = Bounds {
    least: 0,
    greatest: u64::MAX,
};

/// How many frames there may be.
const FRAMES: Bounds = Bounds {
    least: 0,
    greatest: 1000,
};

/// `loop` and its options, after its own word.
pub(crate) fn read_loop(alloc: Global, words: &[String]) -> Result<LoopWords, WordsFault>
    requires { first_word (map string_bytes words.now) ≡ Some (codes "loop") }
    ensures taken { IfOk result (IsLoop (map string_bytes words.now)) }
    ensures refused { IsErrOf result WordsFault.Refused
        → (run : LoopWords) → ¬ IsLoop (map string_bytes words.now) run }
{
    let found = parsed(alloc, "loop", &LOOP, words)?;
    loop_options(&found).ok_or(WordsFault::Refused)
}

/// The options of `loop` among what was found.
fn loop_options(found: &ArgMatches) -> Option<LoopWords>
    ensures options { IfSome result (HasLoopOptions (rows_of (found_of found.now))) }
    ensures none { IsNone result → (run : LoopWords) → ¬ HasLoopOptions (rows_of (found_of found.now)) run }
{
    Some(LoopWords {
        seed: number_given(found, "seed", SEED)?,
        frames: number_given(found, "frames", FRAMES)? as u16,
        rough: has_flag(found, "rough"),
        threads: has_flag(found, "threads"),
    })
}
