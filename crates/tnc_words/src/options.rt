//! The commands as `clap` is told of them: a table of options for each.
ghost use Rattle.std.specs.Prelude.{◌≡◌, IfOk, false};
ghost use Rattle.clap.specs.Words.{app_of, new_app, rule_of, with_rule};
ghost use Rattle.tnc_words.specs.Entries.{rule_of_entry, with_entries};
ghost use Rattle.tnc_words.specs.Options.{flag_rule, needed_rule, option_rule};

use clap::{Arg, ArgAction, Command};
use std::alloc::{AllocError, Global};

/// An option in the table of a command.
pub(crate) enum Entry {
    /// It is there or not.
    Flag(&'static str),
    /// It has a value.
    Value(&'static str),
    /// It has a value, and has to be given.
    Needed(&'static str),
}

/// The options of `decode`.
pub(crate) const DECODE: [Entry; 7] = [
    Entry::Flag("wav"),
    Entry::Flag("kiss"),
    Entry::Flag("threads"),
    Entry::Flag("hf"),
    Entry::Flag("sensitive"),
    Entry::Flag("fx25"),
    Entry::Value("rate"),
];

/// The options of `encode`.
pub(crate) const ENCODE: [Entry; 9] = [
    Entry::Flag("wav"),
    Entry::Flag("kiss"),
    Entry::Flag("join"),
    Entry::Flag("hf"),
    Entry::Value("fx25"),
    Entry::Value("opening"),
    Entry::Value("closing"),
    Entry::Value("silence"),
    Entry::Value("level"),
];

/// The option of `show`.
pub(crate) const SHOW: [Entry; 1] = [Entry::Value("modulo")];

/// The options of `loop`.
pub(crate) const LOOP: [Entry; 4] = [
    Entry::Needed("seed"),
    Entry::Needed("frames"),
    Entry::Flag("rough"),
    Entry::Flag("threads"),
];

/// The options of `bench`.
pub(crate) const BENCH: [Entry; 7] = [
    Entry::Needed("seed"),
    Entry::Value("octets"),
    Entry::Value("loss"),
    Entry::Value("noise"),
    Entry::Value("fx25"),
    Entry::Flag("full"),
    Entry::Flag("wide"),
];

/// The options of `serve`.
pub(crate) const SERVE: [Entry; 27] = [
    Entry::Value("kiss"),
    Entry::Value("agw"),
    Entry::Value("bind"),
    Entry::Value("seed"),
    Entry::Value("mode"),
    Entry::Value("window"),
    Entry::Flag("wide"),
    Entry::Value("wide-window"),
    Entry::Value("t1"),
    Entry::Value("retries"),
    Entry::Value("txdelay"),
    Entry::Value("txtail"),
    Entry::Value("persist"),
    Entry::Value("slot"),
    Entry::Flag("duplex"),
    Entry::Value("paclen"),
    Entry::Value("digi"),
    Entry::Value("dcd"),
    Entry::Flag("hf"),
    Entry::Flag("sensitive"),
    Entry::Value("fx25"),
    Entry::Value("rate"),
    Entry::Flag("monitor"),
    Entry::Value("stats"),
    Entry::Value("ptt"),
    Entry::Value("ptt-tail"),
    Entry::Flag("ptt-data"),
];

/// The options of `record`.
pub(crate) const RECORD: [Entry; 2] = [Entry::Value("keep"), Entry::Flag("sensitive")];

/// The options of `call`.
pub(crate) const CALL: [Entry; 6] = [
    Entry::Needed("agw"),
    Entry::Needed("from"),
    Entry::Needed("to"),
    Entry::Value("via"),
    Entry::Value("expect"),
    Entry::Value("polls"),
];

/// A command with the options of a table, in order.
pub(crate) fn command_of<'a>(
    alloc: Global,
    name: &'a str,
    entries: &[Entry],
) -> Result<Command<'a>, AllocError>
    ensures { IfOk result (λ command. app_of command ≡ with_entries (new_app name.entry.now) entries.now) }
{
    let mut command = Command::new(alloc, name);
    for entry in entries {
        command = with(command, argument(alloc, entry))?;
    }
    Ok(command)
}

/// An option as `clap` is told of it.
fn argument<'a>(alloc: Global, entry: &Entry) -> Arg<'a>
    ensures rule { rule_of result ≡ rule_of_entry entry.now }
    ensures local { result.global ≡ false }
{
    match entry {
        Entry::Flag(name) => flag(alloc, name),
        Entry::Value(name) => option(alloc, name),
        Entry::Needed(name) => needed(alloc, name),
    }
}

/// An option with a value.
fn option<'a>(alloc: Global, name: &'a str) -> Arg<'a>
    ensures rule { rule_of result ≡ option_rule name.entry.now }
    ensures local { result.global ≡ false }
{
    Arg::new(alloc, name).long(name).action(ArgAction::Set)
}

/// An option with a value, which has to be given.
fn needed<'a>(alloc: Global, name: &'a str) -> Arg<'a>
    ensures rule { rule_of result ≡ needed_rule name.entry.now }
    ensures local { result.global ≡ false }
{
    option(alloc, name).required(true)
}

/// An option that is there or not.
fn flag<'a>(alloc: Global, name: &'a str) -> Arg<'a>
    ensures rule { rule_of result ≡ flag_rule name.entry.now }
    ensures local { result.global ≡ false }
{
    Arg::new(alloc, name).long(name).action(ArgAction::SetTrue)
}

/// A command with one more option.
fn with<'a>(command: Command<'a>, arg: Arg<'a>) -> Result<Command<'a>, AllocError>
    requires { arg.global ≡ false }
    ensures { IfOk result (λ longer. app_of longer ≡ with_rule (app_of command.entry) (rule_of arg.entry)) }
{
    command.arg(arg)
}
