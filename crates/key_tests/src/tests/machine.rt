//! Scripts of what comes on the line and of ticks, and what each step answers.

mod cases;
mod script;

use crate::tests::assertions::assert_equal;
use cases::CASES;
use keying::{Command, OffWhy, Report, Why};
use script::run;
use std::test::Fail;

#[test]
fn each_step_answers_as_the_rules_say(rt: HostRuntime) -> Result<(), Fail> {
    for case in CASES {
        run(&rt, rt.alloc(), case)?;
    }
    Ok(())
}

/// Each command and each kind of report, as octets.
const COMMANDS: [(Command, &[u8]); 3] = [
    (Command::Release, b"T 0\n"),
    (Command::Key, b"T 1\n"),
    (Command::KeyData, b"T 3\n"),
];

const REPORTS: [(Report, &[u8]); 9] = [
    (Report::Ready, b"ptt ready"),
    (Report::Lost(Why::Connect), b"ptt lost connect"),
    (Report::Lost(Why::Ended), b"ptt lost ended"),
    (Report::Lost(Why::Failed), b"ptt lost failed"),
    (
        Report::Lost(Why::Refused(4294967295)),
        b"ptt lost refused 4294967295",
    ),
    (Report::Lost(Why::Answer), b"ptt lost answer"),
    (Report::Lost(Why::Silent), b"ptt lost silent"),
    (Report::Off(OffWhy::Limit), b"ptt off limit"),
    (Report::Off(OffWhy::Sound), b"ptt off sound"),
];

#[test]
fn texts_are_those_of_the_protocol(rt: HostRuntime) {
    for (command, text) in COMMANDS {
        assert_equal(&rt, &command.text(), &text);
    }
    for (report, text) in REPORTS {
        assert_equal(&rt, &report.text().as_slice(), &text);
    }
}
