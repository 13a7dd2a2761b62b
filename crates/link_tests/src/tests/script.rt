//! Exchanges as lines of text: words that happen in order, a bar, and what is seen at the last of them.
use crate::tests::assertions::assert_equal;
use link_machine::{Told, Why};
use std::alloc::Global;
use std::process::Abort;
use std::test::Fail;

/// What words happen to.
pub(crate) trait Subject {
    /// Lets a word happen, and appends what is seen to the text.
    fn happen(&mut self, alloc: Global, word: &str, text: &mut String) -> Result<(), Fail>;
}

/// What is seen at the last of the words.
pub(crate) fn last_of<S: Subject>(
    alloc: Global,
    subject: &mut S,
    words: &str,
) -> Result<String, Fail> {
    let mut text = String::new(alloc);
    for word in words.split_whitespace() {
        text = String::new(alloc);
        subject.happen(alloc, word, &mut text)?;
    }
    Ok(text)
}

/// Asserts a line.
pub(crate) fn assert_line<R: Abort, S: Subject>(
    rt: &R,
    alloc: Global,
    subject: &mut S,
    line: &str,
) -> Result<(), Fail> {
    let (words, wanted) = line.split_once('|').unwrap_or((line, ""));
    let text = last_of(alloc, subject, words)?;
    assert_text(rt, words, text.as_str(), wanted);
    Ok(())
}

/// Asserts a text, but for the spaces around it.
fn assert_text<R: Abort>(rt: &R, words: &str, text: &str, wanted: &str) {
    assert_equal(rt, &(words, text.trim()), &(words, wanted.trim()));
}

/// Asserts all lines, one after the other.
pub(crate) fn assert_exchange<R: Abort, S: Subject>(
    rt: &R,
    alloc: Global,
    subject: &mut S,
    lines: &str,
) -> Result<(), Fail> {
    for line in lines.lines() {
        assert_line(rt, alloc, subject, line)?;
    }
    Ok(())
}

/// The name of a word, and its three numbers, 0 if it has none.
pub(crate) fn parts(word: &str) -> (&str, u16, u16, u16) {
    let (name, rest) = word.split_once('/').unwrap_or((word, ""));
    let (first, rest) = rest.split_once('/').unwrap_or((rest, ""));
    let (second, third) = rest.split_once('/').unwrap_or((rest, ""));
    (name, number(first), number(second), number(third))
}

fn number(text: &str) -> u16 {
    text.parse().unwrap_or(0)
}

pub(crate) fn octet(number: u16) -> u8 {
    u8::try_from(number).unwrap_or(0)
}

/// Appends what is told, each item with a comma.
pub(crate) fn push_told(alloc: Global, told: &[Told], text: &mut String) -> Result<(), Fail> {
    for item in told {
        match item {
            Told::Opened { ours } => push_opened(*ours, text)?,
            Told::Given { packet } => push_given(alloc, packet.octets.as_slice(), text)?,
            Told::Ended { why } => push_ended(alloc, *why, text)?,
        }
    }
    Ok(())
}

fn push_opened(ours: bool, text: &mut String) -> Result<(), Fail> {
    let opened = if ours { "opened by us," } else { "opened," };
    text.push_str(opened)?;
    Ok(())
}

fn push_given(alloc: Global, octets: &[u8], text: &mut String) -> Result<(), Fail> {
    for octet in octets {
        text.push_str(format!(in alloc; "given {octet},")?.as_str())?;
    }
    Ok(())
}

fn push_ended(alloc: Global, why: Why, text: &mut String) -> Result<(), Fail> {
    text.push_str(format!(in alloc; "ended {why:?},")?.as_str())?;
    Ok(())
}
