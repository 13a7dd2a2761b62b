//! What words ask for, and which words are refused.
use crate::tests::assertions::assert_equal;
use std::alloc::Global;
use std::process::Abort;
use std::test::Fail;
use tnc_words::{Command, WordsFault, read_words};

mod batch;
mod bench;
mod call;
mod decode;
mod help;
mod record;
mod refused;
mod serve;

/// Appends the words of a line.
fn push_words(alloc: Global, words: &mut Vec<String>, line: &str) -> Result<(), Fail> {
    for word in line.split_whitespace() {
        words.push(String::from_str(alloc, word)?)?;
    }
    Ok(())
}

/// The words of `front` and then those of a line.
fn words_of(alloc: Global, front: &str, line: &str) -> Result<Vec<String>, Fail> {
    let mut words = Vec::new(alloc);
    push_words(alloc, &mut words, front)?;
    push_words(alloc, &mut words, line)?;
    Ok(words)
}

/// Asserts what the words of a line ask for after those of `front`.
fn assert_asked<R: Abort>(
    rt: &R,
    alloc: Global,
    front: &str,
    line: &str,
    want: Command,
) -> Result<(), Fail> {
    let words = words_of(alloc, front, line)?;
    let asked = read_words(alloc, &words);
    assert_equal(rt, &(line, asked), &(line, Ok(want)));
    Ok(())
}

/// Whether the words of a line are refused after those of `front`.
fn is_refused(alloc: Global, front: &str, line: &str) -> Result<bool, Fail> {
    match read_words(alloc, &words_of(alloc, front, line)?) {
        Err(WordsFault::Refused) => Ok(true),
        Err(WordsFault::Memory) => Ok(false),
        Ok(_) => Ok(false),
    }
}

/// Asserts that the words of each line are refused after those of `front`.
fn assert_none_taken<R: Abort>(
    rt: &R,
    alloc: Global,
    front: &str,
    lines: &str,
) -> Result<(), Fail> {
    let taken = taken(alloc, front, lines)?;
    assert_equal(rt, &(front, taken.as_str()), &(front, ""));
    Ok(())
}

/// The lines whose words are not refused after those of `front`.
fn taken(alloc: Global, front: &str, lines: &str) -> Result<String, Fail> {
    let mut taken = String::new(alloc);
    for line in lines.lines() {
        if !is_refused(alloc, front, line)? {
            taken.push_str(line)?;
            taken.push_str("\n")?;
        }
    }
    Ok(taken)
}
