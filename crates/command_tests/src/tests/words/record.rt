//! `record`.
use super::assert_asked;
use std::test::Fail;
use tnc_words::{Command, RecordOptions};

/// What that word alone asks for.
const ALONE: RecordOptions = RecordOptions {
    keep: 576_000,
    sensitive: false,
};

/// What stands after `record`, and what it asks for.
const RECORD: &[(&str, RecordOptions)] = &[
    ("", ALONE),
    ("--", ALONE),
    ("--keep 1", RecordOptions { keep: 1, ..ALONE }),
    (
        "--keep=0017280000",
        RecordOptions {
            keep: 17_280_000,
            ..ALONE
        },
    ),
    (
        "--sensitive",
        RecordOptions {
            sensitive: true,
            ..ALONE
        },
    ),
    (
        "--sensitive --keep 100",
        RecordOptions {
            keep: 100,
            sensitive: true,
        },
    ),
];

#[test]
fn record_takes_how_much_it_keeps(rt: HostRuntime) -> Result<(), Fail> {
    for (line, want) in RECORD {
        assert_asked(&rt, rt.alloc(), "record", line, Command::Record(*want))?;
    }
    Ok(())
}
