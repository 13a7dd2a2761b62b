//! Lines of hexadecimal digits, sent by `encode` and shown by `show`.
use super::{assert_ended, run_over};
use crate::assertions::assert_equal;
use std::test::Fail;

// Each row: the lines, how many octets are sent, the status and the report.
#[test]
fn lines_are_read_or_refused_at_their_place(rt: HostRuntime) -> Result<(), Fail> {
    for (lines, octets, status, report) in [
        ("\n\r\n", 0, 0, ""),
        ("9C946EA04040E09C6E988A9A40613F\r\n", 12_064, 0, ""),
        (
            "9c946ea04040e09c6e988a9a40613f\r\n\r\n\n9c946ea04040e09c6e988a9a40613f",
            24_128,
            0,
            "",
        ),
        ("9c9", 0, 2, "tnc: bad input: odd line at 0\n"),
        (
            "9c946ea04040e09c6e988a9a40613f\r",
            0,
            2,
            "tnc: bad input: odd line at 0\n",
        ),
        (
            "9c946ea04040e09c6e988a9a40613f\nzz",
            12_064,
            2,
            "tnc: bad input: bad digit at 31\n",
        ),
        (
            "9c946ea04040e09c6e988a9a40613f\n9c946ea04040e09c6e988a9a40613f0g\n9c946ea04040e09c6e988a9a40613f",
            12_064,
            2,
            "tnc: bad input: bad digit at 62\n",
        ),
        (
            "\n9c946ea04040e09c6e988a9a40613f\n9c946ea04040e09c6e988a9a40613f0\n",
            12_064,
            2,
            "tnc: bad input: odd line at 32\n",
        ),
        (
            "9c946ea04040e09c6e988a9a40613f\n9c946ea04040e09c6e988a9a4061",
            12_064,
            2,
            "tnc: bad input: short line at 31\n",
        ),
        ("\r\nzz", 0, 2, "tnc: bad input: bad digit at 2\n"),
        ("00\n", 0, 2, "tnc: bad input: short line at 0\n"),
    ] {
        let got = run_over(&rt, rt.alloc(), "encode", lines.as_bytes())?;
        assert_ended(&rt, lines, &got, (status, octets, report));
        // No WAV file is written for an input with a bad line.
        let wav = run_over(&rt, rt.alloc(), "encode --wav", lines.as_bytes())?;
        let size = if status == 0 {
            octets.saturating_add(44)
        } else {
            0
        };
        assert_ended(&rt, lines, &wav, (status, size, report));
    }
    Ok(())
}

#[test]
fn a_line_has_at_most_2048_octets(rt: HostRuntime) -> Result<(), Fail> {
    let words = "encode --opening=2 --closing=1";
    let mut longest = Vec::new(rt.alloc());
    longest.resize(2048, b'f')?;
    longest.extend_from_slice(b"\r\n")?;
    let good = run_over(&rt, rt.alloc(), words, &longest)?;
    assert_ended(&rt, words, &good, (0, good.output.len(), ""));
    longest.resize(2048 + 4097, b'z')?;
    let got = run_over(&rt, rt.alloc(), words, &longest)?;
    let report = "tnc: bad input: long line at 2050\n";
    assert_ended(&rt, words, &got, (2, good.output.len(), report));
    assert_equal(&rt, &got.output.as_slice(), &good.output.as_slice());
    Ok(())
}

#[test]
fn frames_are_shown_in_the_modulus_that_is_asked_for(rt: HostRuntime) -> Result<(), Fail> {
    let line = "N7LEM>NJ7P I cmd ns=2 nr=3 p=1 pid=f0 len=2 6869\n";
    let eight = "9c946ea04040e09c6e988a9a406174f06869\r\n\n";
    let many = "9c946ea04040e09c6e988a9a40610407f06869";
    for (words, input, status, output, report) in [
        ("show", eight, 0, line, ""),
        ("show --modulo=8", eight, 0, line, ""),
        ("show --modulo 0128", many, 0, line, ""),
        (
            "show",
            "9c\n\nzz\n",
            2,
            "! short at 1\n",
            "tnc: bad input: bad digit at 4\n",
        ),
    ] {
        let got = run_over(&rt, rt.alloc(), words, input.as_bytes())?;
        assert_ended(&rt, words, &got, (status, output.len(), report));
        assert_equal(
            &rt,
            &(words, got.output.as_slice()),
            &(words, output.as_bytes()),
        );
    }
    Ok(())
}
