//! The words that ask for help or for the version.
ghost use Rattle.std.specs.Prelude.{◌≡◌, ◌∷◌, [], Some, map, string_bytes, IfSome, IsNone};
ghost use Rattle.tnc_words.specs.declared.topic.Topic.{Topic};
ghost use Rattle.tnc_words.specs.Commands.{Asks};
ghost use Rattle.tnc_words.specs.Help.{IsHelp, IsVersion, name_of};

use crate::command::Command;
use crate::topic::Topic;

/// `help` about a topic, or `version`, if the words ask for one of them.
pub(crate) fn read_help(words: &[String]) -> Option<Command>
    ensures asks { IfSome result (Asks (map string_bytes words.now)) }
    ensures no_help { IsNone result → (topic : Topic) → ¬ IsHelp (map string_bytes words.now) topic }
    ensures no_version { IsNone result → ¬ IsVersion (map string_bytes words.now) }
{
    match words {
        [only] => named_alone(only.as_str()),
        [first, second] => named_by_two(first.as_str(), second.as_str()),
        _ => None,
    }
}

/// What one word asks for.
fn named_alone(word: &str) -> Option<Command>
    ensures asks { IfSome result (Asks (word.now ∷ [])) }
    ensures none { IsNone result → (topic : Topic) → ¬ IsHelp (word.now ∷ []) topic }
    ensures no_version { IsNone result → ¬ IsVersion (word.now ∷ []) }
{
    match word {
        "help" | "--help" | "-h" => Some(Command::Help(Topic::Program)),
        "version" | "--version" => Some(Command::Version),
        _ => None,
    }
}

/// What two words ask for.
fn named_by_two(first: &str, second: &str) -> Option<Command>
    ensures asks { IfSome result (Asks (first.now ∷ second.now ∷ [])) }
    ensures none { IsNone result → (topic : Topic) → ¬ IsHelp (first.now ∷ second.now ∷ []) topic }
{
    if first == "help" {
        return Some(Command::Help(topic_named(second)?));
    }
    if second == "--help" {
        return Some(Command::Help(topic_named(first)?));
    }
    None
}

/// The command with a name, as a topic.
fn topic_named(name: &str) -> Option<Topic>
    ensures named { IfSome result (λ topic. name_of topic ≡ Some name.now) }
    ensures none { IsNone result → (topic : Topic) → ¬ name_of topic ≡ Some name.now }
{
    match name {
        "decode" => Some(Topic::Decode),
        "encode" => Some(Topic::Encode),
        "show" => Some(Topic::Show),
        "loop" => Some(Topic::Loop),
        "bench" => Some(Topic::Bench),
        "serve" => Some(Topic::Serve),
        "record" => Some(Topic::Record),
        "call" => Some(Topic::Call),
        _ => None,
    }
}
