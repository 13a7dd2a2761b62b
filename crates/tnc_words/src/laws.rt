//! Laws on the definitions. A law is the contract of a function that does nothing.

ghost use Rattle.std.specs.Prelude.{◌≡◌, List};
ghost use Rattle.clap.specs.Words.{Text};
ghost use Rattle.tnc_words.specs.declared.command.Command.{Command};
ghost use Rattle.tnc_words.specs.Commands.{Asks};

/// The law of words, which holds of all lists and needs no work: they ask for one command at most.
pub fn one_command()
    ensures { (words : List Text) → (command other : Command) → Asks words command → Asks words other
        → command ≡ other }
{}
