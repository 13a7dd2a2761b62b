//! Numbers among the words.
ghost use Rattle.std.specs.Prelude.{◌≡◌, ◌<◌, ◌^◌, ℕ, IfSome, IsNone, Option, Some, option_map};
ghost use Rattle.clap.specs.Words.{first_of, found_of, rows_of};
ghost use Rattle.tnc_words.specs.Numbers.{GivesNumber, HasNumber, IsNumber, NamesNumber};

use crate::parsing::text_of;
use clap::ArgMatches;

/// The numbers that an option takes.
#[derive(Clone, Copy)]
pub(crate) struct Bounds {
    pub least: u64,
    pub greatest: u64,
}

/// The number that was given for an option, which has no default.
pub(crate) fn number_given(found: &ArgMatches, name: &str, bounds: Bounds) -> Option<u64>
    ensures number { IfSome result
        (GivesNumber (first_of name.now (rows_of (found_of found.now))) bounds.least bounds.greatest) }
    ensures none { IsNone result → (number : ℕ)
        → ¬ GivesNumber (first_of name.now (rows_of (found_of found.now))) bounds.least bounds.greatest number }
{
    number_within(text_of(found, name)?, bounds)
}

/// The number of an option among what was found, or the default if it was not given.
pub(crate) fn number_found(
    found: &ArgMatches,
    name: &str,
    default: u64,
    bounds: Bounds,
) -> Option<u64>
    ensures number { IfSome result
        (HasNumber (first_of name.now (rows_of (found_of found.now))) default bounds.least bounds.greatest) }
    ensures none { IsNone result → (number : ℕ)
        → ¬ HasNumber (first_of name.now (rows_of (found_of found.now))) default bounds.least bounds.greatest number }
{
    number_or_default(text_of(found, name), default, bounds)
}

/// The number of an option: that of its text, or the default if it has none.
pub(crate) fn number_or_default(text: Option<&str>, default: u64, bounds: Bounds) -> Option<u64>
    ensures number { IfSome result
        (HasNumber (option_map (λ t. t.now) text.entry) default bounds.least bounds.greatest) }
    ensures none { IsNone result → (number : ℕ)
        → ¬ HasNumber (option_map (λ t. t.now) text.entry) default bounds.least bounds.greatest number }
{
    let Some(text) = text else {
        return Some(default);
    };
    number_within(text, bounds)
}

/// The number of an option: that of its text, or no number if it has none.
pub(crate) fn number_if_given(text: Option<&str>, bounds: Bounds) -> Option<Option<u64>>
    ensures number { IfSome result (NamesNumber (option_map (λ t. t.now) text.entry) bounds.least bounds.greatest) }
    ensures none { IsNone result → (number : Option ℕ)
        → ¬ NamesNumber (option_map (λ t. t.now) text.entry) bounds.least bounds.greatest number }
{
    let Some(text) = text else {
        return Some(None);
    };
    Some(Some(number_within(text, bounds)?))
}

/// The number of a text, if it is one within bounds.
pub(crate) fn number_within(text: &str, bounds: Bounds) -> Option<u64>
    ensures number { IfSome result (GivesNumber (Some text.now) bounds.least bounds.greatest) }
    ensures none { IsNone result → (number : ℕ) → ¬ GivesNumber (Some text.now) bounds.least bounds.greatest number }
{
    let number = number_of(text)?;
    if number < bounds.least || bounds.greatest < number {
        return None;
    }
    Some(number)
}

/// The number of one or more decimal digits. `None` if a text is none, or a number of 2^64 or more.
fn number_of(text: &str) -> Option<u64>
    ensures number { IfSome result (IsNumber text.now) }
    ensures none { IsNone result → (number : ℕ) → number < 2 ^ 64 → ¬ IsNumber text.now number }
{
    if text.as_bytes().first() == Some(&b'+') {
        return None;
    }
    text.parse().ok()
}
