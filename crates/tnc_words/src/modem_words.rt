//! How bits are sent, among what was found.
ghost use Rattle.std.specs.Prelude.{◌≡◌, Bool, IfSome, IsNone, Option, Some, option_map};
ghost use Rattle.clap.specs.Words.{found_of, rows_of};
ghost use Rattle.tnc_words.specs.declared.command.CheckOctets.{CheckOctets};
ghost use Rattle.tnc_words.specs.declared.command.Modem.{Modem};
ghost use Rattle.tnc_words.specs.Numbers.{GivesNumber, HasNumber};
ghost use Rattle.tnc_words.specs.Sending.{HasModem, IsModem, count_of};
ghost use Rattle.tnc_words.specs.StationModems.{count_sent};

use crate::command::{CheckOctets, Modem};
use crate::number::{Bounds, number_within};
use crate::parsing::{has_flag, text_of};
use clap::ArgMatches;

/// The check octets around a frame.
const CHECKS: Bounds = Bounds {
    least: 16,
    greatest: 64,
};

impl CheckOctets {
    /// How many they are.
    pub fn count(self) -> usize
        ensures { result ≡ count_of self }
    {
        match self {
            CheckOctets::Sixteen => 16,
            CheckOctets::ThirtyTwo => 32,
            CheckOctets::SixtyFour => 64,
        }
    }
}

/// The modem that sends: that of short wave if `--hf` was given, or Bell 202, with check octets if `--fx25` was given.
pub(crate) fn modem(found: &ArgMatches) -> Option<Modem>
    ensures modem { IfSome result (HasModem (rows_of (found_of found.now))) }
    ensures none { IsNone result → (modem : Modem) → ¬ HasModem (rows_of (found_of found.now)) modem }
{
    modem_by(has_flag(found, "hf"), text_of(found, "fx25"))
}

/// The modem by whether `--hf` was given and by the text of `--fx25`.
fn modem_by(hf: bool, checks: Option<&str>) -> Option<Modem>
    ensures modem { IfSome result (IsModem hf (option_map (λ t. t.now) checks.entry)) }
    ensures none { IsNone result → (modem : Modem) → ¬ IsModem hf (option_map (λ t. t.now) checks.entry) modem }
{
    match (hf, checks) {
        (false, None) => Some(Modem::Bell202),
        (true, None) => Some(Modem::ShortWave),
        (false, Some(text)) => Some(Modem::Fx25(check_octets(text)?)),
        (true, Some(_)) => None,
    }
}

/// The check octets around a frame of a station, of which there may be none.
const CHECKS_SENT: Bounds = Bounds {
    least: 0,
    greatest: 64,
};

/// The check octets that a station sends whose number a text is, or none for 0.
pub(crate) fn checks_sent(text: &str) -> Option<Option<CheckOctets>>
    ensures checks { IfSome result (λ checks. GivesNumber (Some text.now) 0 64 (count_sent checks)) }
    ensures none { IsNone result → (checks : Option CheckOctets)
        → ¬ GivesNumber (Some text.now) 0 64 (count_sent checks) }
{
    match number_within(text, CHECKS_SENT)? {
        0 => Some(None),
        16 => Some(Some(CheckOctets::Sixteen)),
        32 => Some(Some(CheckOctets::ThirtyTwo)),
        64 => Some(Some(CheckOctets::SixtyFour)),
        _ => None,
    }
}

/// The check octets that stations send whose number a text is, or none for 0 or without a text.
pub(crate) fn checks_or_none(text: Option<&str>) -> Option<Option<CheckOctets>>
    ensures checks { IfSome result (λ checks.
        HasNumber (option_map (λ t. t.now) text.entry) 0 0 64 (count_sent checks)) }
    ensures none { IsNone result → (checks : Option CheckOctets)
        → ¬ HasNumber (option_map (λ t. t.now) text.entry) 0 0 64 (count_sent checks) }
{
    match text {
        Some(text) => checks_sent(text),
        None => Some(None),
    }
}

/// The check octets whose number a text is.
fn check_octets(text: &str) -> Option<CheckOctets>
    ensures checks { IfSome result (λ checks. GivesNumber (Some text.now) 16 64 (count_of checks)) }
    ensures none { IsNone result → (checks : CheckOctets) → ¬ GivesNumber (Some text.now) 16 64 (count_of checks) }
{
    match number_within(text, CHECKS)? {
        16 => Some(CheckOctets::Sixteen),
        32 => Some(CheckOctets::ThirtyTwo),
        64 => Some(CheckOctets::SixtyFour),
        _ => None,
    }
}
