//! `help` and `version`.
use super::assert_asked;
use crate::tests::assertions::assert_equal;
use std::test::Fail;
use tnc_words::{Command, Topic, help_text, version_line};

/// Lines that ask for help, and for which.
const HELP: &[(&str, Topic)] = &[
    ("help", Topic::Program),
    ("--help", Topic::Program),
    ("-h", Topic::Program),
    ("help decode", Topic::Decode),
    ("decode --help", Topic::Decode),
    ("help encode", Topic::Encode),
    ("encode --help", Topic::Encode),
    ("help show", Topic::Show),
    ("show --help", Topic::Show),
    ("help loop", Topic::Loop),
    ("loop --help", Topic::Loop),
    ("help bench", Topic::Bench),
    ("bench --help", Topic::Bench),
    ("help serve", Topic::Serve),
    ("serve --help", Topic::Serve),
    ("help record", Topic::Record),
    ("record --help", Topic::Record),
    ("help call", Topic::Call),
    ("call --help", Topic::Call),
];

#[test]
fn help_is_asked_for_alone(rt: HostRuntime) -> Result<(), Fail> {
    for (line, topic) in HELP {
        assert_asked(&rt, rt.alloc(), "", line, Command::Help(*topic))?;
    }
    Ok(())
}

#[test]
fn the_version_is_asked_for_alone(rt: HostRuntime) -> Result<(), Fail> {
    assert_equal(&rt, &version_line().starts_with("tnc "), &true);
    assert_asked(&rt, rt.alloc(), "", "version", Command::Version)?;
    assert_asked(&rt, rt.alloc(), "", "--version", Command::Version)
}

/// How the text of each topic begins.
const TEXTS: &[(Topic, &str)] = &[
    (Topic::Program, "Usage: tnc COMMAND"),
    (Topic::Decode, "Usage: tnc decode"),
    (Topic::Encode, "Usage: tnc encode"),
    (Topic::Show, "Usage: tnc show"),
    (Topic::Loop, "Usage: tnc loop"),
    (Topic::Bench, "Usage: tnc bench"),
    (Topic::Serve, "Usage: tnc serve"),
    (Topic::Record, "Usage: tnc record"),
    (Topic::Call, "Usage: tnc call"),
];

#[test]
fn each_topic_has_its_text(rt: HostRuntime) {
    for (topic, first) in TEXTS {
        let begins = help_text(*topic).starts_with(first);
        assert_equal(&rt, &(*topic, begins), &(*topic, true));
    }
}
