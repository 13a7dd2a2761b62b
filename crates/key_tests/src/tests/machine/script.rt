//! A script, and a run of it that writes down each answer.

use crate::tests::assertions::assert_equal;
use keying::{Command, End, Ending, Keying, Next, Report, Try, Turn, Words};
use std::alloc::{AllocError, Global};
use std::process::Abort;
use std::test::Fail;

/// A call, or the same call a number of times.
#[derive(Clone, Copy)]
pub(super) enum Step {
    /// A turn at a time in ms, with what was read.
    Turn(u64, &'static [u8], Option<End>),
    AfterTry(Try),
    /// So many ticks, all with sound or all without.
    Ticks(u32, bool),
    /// A write of the output or of the report failed.
    WriteFault,
    CommandFailed,
    /// The end of the run at a time in ms, with what was read.
    Release(u64, &'static [u8]),
}

/// What a step answers, as lines: commands and reports as they are written, and a word for each thing to be done.
pub(super) type Row = (Step, &'static [u8]);

pub(super) struct Case {
    pub(super) name: &'static str,
    pub(super) words: Words,
    /// Whether it begins on a line that got ready at 50 ms, by a connection at 0 ms.
    pub(super) ready: bool,
    pub(super) rows: &'static [Row],
}

/// Runs a script, and compares each answer.
pub(super) fn run<R: Abort>(rt: &R, alloc: Global, case: &Case) -> Result<(), Fail> {
    let mut keying = if case.ready {
        ready(case.words)
    } else {
        Keying::new(case.words)
    };
    for (number, (step, wanted)) in case.rows.iter().enumerate() {
        let mut log = Vec::new(alloc);
        perform(&mut keying, *step, &mut log)?;
        assert_equal(
            rt,
            &(case.name, number, log.as_slice()),
            &(case.name, number, *wanted),
        );
    }
    Ok(())
}

fn ready(words: Words) -> Keying {
    let mut keying = Keying::new(words);
    let _ = keying.turn(0, b"", None);
    let _ = keying.tried(Try::Written);
    let _ = keying.turn(50, b"RPRT 0\n", None);
    keying
}

fn perform(keying: &mut Keying, step: Step, log: &mut Vec<u8>) -> Result<(), AllocError> {
    match step {
        Step::Turn(now, octets, end) => log_turn(keying.turn(now, octets, end), log),
        Step::AfterTry(how) => match keying.tried(how) {
            Some(why) => log_report(Report::Lost(why), log),
            None => Ok(()),
        },
        Step::Ticks(count, sounds) => perform_ticks(keying, count, sounds, log),
        Step::WriteFault => log_command(keying.written(true), log),
        Step::CommandFailed => match keying.command_failed() {
            Some(why) => log_report(Report::Lost(why), log),
            None => Ok(()),
        },
        Step::Release(now, octets) => log_ending(keying.release(now, octets, None), log),
    }
}

fn perform_ticks(
    keying: &mut Keying,
    count: u32,
    sounds: bool,
    log: &mut Vec<u8>,
) -> Result<(), AllocError> {
    for _ in 0..count {
        let act = keying.tick(sounds);
        log_command(act.command, log)?;
        if let Some(report) = act.report {
            log_report(report, log)?;
        }
        log_command(keying.written(false), log)?;
    }
    Ok(())
}

fn log_command(command: Option<Command>, log: &mut Vec<u8>) -> Result<(), AllocError> {
    match command {
        Some(command) => log.extend_from_slice(command.text()),
        None => Ok(()),
    }
}

fn log_report(report: Report, log: &mut Vec<u8>) -> Result<(), AllocError> {
    log.extend_from_slice(report.text().as_slice())?;
    log.extend_from_slice(b"\n")
}

fn log_turn(turn: Turn, log: &mut Vec<u8>) -> Result<(), AllocError> {
    if turn.ready {
        log_report(Report::Ready, log)?;
    }
    if turn.dropped {
        log.extend_from_slice(b"drop\n")?;
    }
    if let Some(why) = turn.lost {
        log_report(Report::Lost(why), log)?;
    }
    match turn.next {
        Next::Rest => Ok(()),
        Next::ToConnect => log.extend_from_slice(b"connect\n"),
        Next::ToOpen => log.extend_from_slice(b"open\n"),
        Next::ToRelease => log.extend_from_slice(b"stop\n"),
    }
}

fn log_ending(ending: Ending, log: &mut Vec<u8>) -> Result<(), AllocError> {
    match ending {
        Ending::ConnectNow => log.extend_from_slice(b"connect\n"),
        Ending::OpenNow => log.extend_from_slice(b"open\n"),
        Ending::ReleaseNow => log.extend_from_slice(b"T 0\n"),
        Ending::Wait => log.extend_from_slice(b"wait\n"),
        Ending::Over => log.extend_from_slice(b"over\n"),
    }
}
