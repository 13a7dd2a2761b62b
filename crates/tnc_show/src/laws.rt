//! Laws on what is shown. A law is the contract of a function that does nothing.
ghost use Rattle.std.specs.Prelude.{◌≡◌, ℕ, List};
ghost use Rattle.tnc_words.specs.declared.command.ShowWords.{ShowWords};
ghost use Rattle.tnc_show.specs.Shown.{IsShown};

/// An input is shown by one text.
pub fn one_text()
    ensures { (words : ShowWords) (octets text other : List ℕ) → IsShown words octets text
        → IsShown words octets other → text ≡ other }
{}
