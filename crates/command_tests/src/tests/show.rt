//! Inputs and their lines.
use crate::tests::assertions::assert_equal;
use ax25_frames::Modulus;
use std::alloc::Global;
use std::process::Abort;
use std::test::Fail;
use tnc_base::{MemSink, MemSource};
use tnc_forms::{Fault, InputFault, LineFault, LineFlaw};
use tnc_show::{one_text, show};
use tnc_words::ShowWords;

/// What is written of an input that comes in pieces of 31 octets, and how the command ends, if the source fails the
/// reads and the sink the writes of these numbers.
fn shown(
    alloc: Global,
    modulus: Modulus,
    input: &[u8],
    reads: &[u64],
    writes: &[u64],
) -> Result<(Vec<u8>, Result<(), Fault>), Fail> {
    let mut source = MemSource::new(input.to_vec(alloc)?, 31, reads.to_vec(alloc)?);
    let mut sink = MemSink::new(alloc, 4096, writes.to_vec(alloc)?)?;
    let end = show(alloc, ShowWords { modulus }, &mut source, &mut sink);
    Ok((sink.written().to_vec(alloc)?, end))
}

/// A flaw of a line, and its place.
type Bad = Option<(LineFlaw, usize)>;

/// How the command ends on such a line, or if there is none.
fn ended(bad: Bad) -> Result<(), Fault> {
    match bad {
        Some((flaw, place)) => Err(Fault::Input(InputFault::Line(LineFault { flaw, place }))),
        None => Ok(()),
    }
}

/// Asserts what is written of an input, and how the command ends, if the source fails the reads and the sink the writes
/// of these numbers.
fn assert_run<R: Abort>(
    rt: &R,
    alloc: Global,
    modulus: Modulus,
    input: &[u8],
    failing: [&[u64]; 2],
    (text, end): (&str, Result<(), Fault>),
) -> Result<(), Fail> {
    let [reads, writes] = failing;
    let (written, ended) = shown(alloc, modulus, input, reads, writes)?;
    assert_equal(
        rt,
        &(failing, written.as_slice(), ended),
        &(failing, text.as_bytes(), end),
    );
    Ok(())
}

/// An input, its text, and the bad line.
type Row = (&'static str, &'static str, Bad);

/// Asserts what is written of each whole input, and how the command ends.
fn assert_rows<R: Abort>(
    rt: &R,
    alloc: Global,
    modulus: Modulus,
    rows: &[Row],
) -> Result<(), Fail> {
    for (input, text, bad) in rows {
        let end = ended(*bad);
        assert_run(
            rt,
            alloc,
            modulus,
            input.as_bytes(),
            [&[], &[]],
            (text, end),
        )?;
    }
    Ok(())
}

const INPUTS: &[Row] = &[
    ("", "", None),
    (
        "9c946ea04040e09c6e988a9a40613f",
        "N7LEM>NJ7P SABM cmd f=1\n",
        None,
    ),
    (
        "9c946ea04040e09c6e988a9a406174f06869\n",
        "N7LEM>NJ7P I cmd ns=2 nr=3 p=1 pid=f0 len=2 6869\n",
        None,
    ),
    (
        "\n\r\n9C946EA04040E09C6E988A9A40613F\r\n\n9c946ea04040e09c6e988a9a406163\n",
        "N7LEM>NJ7P SABM cmd f=1\nN7LEM>NJ7P UA rsp f=0\n",
        None,
    ),
    ("00", "! bad character at 0\n", None),
    ("9c946ea04040e0", "! short at 7\n", None),
    ("9c946ea04041e0", "! bad character at 5\n", None),
    ("9c946ea0404061", "! one address\n", None),
    ("9c946ea04040e09c6e988a9a4061", "! no control at 14\n", None),
    ("9c946ea04040e09c6e988a9a406103", "! no pid at 15\n", None),
    (
        "9c946ea04040e09c6e988a9a406107",
        "! unknown control 07\n",
        None,
    ),
    (
        "9c946ea04040e09c6e988a9a40613f00",
        "! stray info at 15\n",
        None,
    ),
    (
        "00\n9c946ea04040e09c6e988a9a40613f\n",
        "! bad character at 0\nN7LEM>NJ7P SABM cmd f=1\n",
        None,
    ),
    ("9c9", "", Some((LineFlaw::OddLine, 0))),
    (
        "00\n9c9\n",
        "! bad character at 0\n",
        Some((LineFlaw::OddLine, 3)),
    ),
    (
        "9c\n9cx0\n",
        "! short at 1\n",
        Some((LineFlaw::BadDigit, 5)),
    ),
    (
        "9c\r\n9\r\n00\n",
        "! short at 1\n",
        Some((LineFlaw::OddLine, 4)),
    ),
    ("9c\r", "", Some((LineFlaw::OddLine, 0))),
    ("00 \n", "", Some((LineFlaw::OddLine, 0))),
    (" 00\n\n", "", Some((LineFlaw::OddLine, 0))),
];

#[test]
fn inputs_and_their_lines(rt: HostRuntime) -> Result<(), Fail> {
    one_text();
    assert_rows(&rt, rt.alloc(), Modulus::Eight, INPUTS)
}

const CONTROL_FIELDS: &[Row] = &[
    (
        "9c946ea04040e09c6e988a9a40610407f06869\n",
        "N7LEM>NJ7P I cmd ns=2 nr=3 p=1 pid=f0 len=2 6869\n",
        None,
    ),
    (
        "9c946ea04040e09c6e988a9a406104\n",
        "! no control at 15\n",
        None,
    ),
    (
        "9c946ea04040e09c6e988a9a406111\n",
        "! unknown control 11\n",
        None,
    ),
];

#[test]
fn control_fields_of_two_octets(rt: HostRuntime) -> Result<(), Fail> {
    assert_rows(&rt, rt.alloc(), Modulus::OneTwentyEight, CONTROL_FIELDS)
}

/// What an input begins with, and digits that follow so many times.
fn repeated(alloc: Global, begin: &str, digits: &str, count: usize) -> Result<String, Fail> {
    let mut input = String::from_str(alloc, begin)?;
    for _ in 0..count {
        input.push_str(digits)?;
    }
    Ok(input)
}

/// Each row: what an input begins with, digits and how often they follow, its text, and the bad line.
const LONG: &[(&str, &str, usize, &str, Bad)] = &[
    ("", "82404040404060", 11, "! no end\n", None),
    (
        "9c946ea04040e09c6e988a9a406100f0",
        "41",
        257,
        "! info too long 257\n",
        None,
    ),
    ("", "0", 2048, "! bad character at 0\n", None),
    ("", "0", 2049, "", Some((LineFlaw::LongLine, 0))),
    (
        "9c\n",
        "0",
        2049,
        "! short at 1\n",
        Some((LineFlaw::LongLine, 3)),
    ),
];

/// Asserts what is written of such a whole input, and how the command ends.
fn assert_long<R: Abort>(
    rt: &R,
    alloc: Global,
    (begin, digits, count): (&str, &str, usize),
    want: (&str, Result<(), Fault>),
) -> Result<(), Fail> {
    let input = repeated(alloc, begin, digits, count)?;
    assert_run(
        rt,
        alloc,
        Modulus::Eight,
        input.as_bytes(),
        [&[], &[]],
        want,
    )
}

#[test]
fn long_lines(rt: HostRuntime) -> Result<(), Fail> {
    for (begin, digits, count, text, bad) in LONG {
        let want = (*text, ended(*bad));
        assert_long(&rt, rt.alloc(), (begin, digits, *count), want)?;
    }
    Ok(())
}

/// Lines and their texts.
const LINES: [(&str, &str); 5] = [
    ("00\n", "! bad character at 0\n"),
    (
        "9c946ea04040e09c6e988a9a40613f\n",
        "N7LEM>NJ7P SABM cmd f=1\n",
    ),
    ("\r\n", ""),
    ("9c\r\n", "! short at 1\n"),
    (
        "9c946ea04040e09c6e988a9a406163\n",
        "N7LEM>NJ7P UA rsp f=0\n",
    ),
];

/// These lines, so many times, and the text of those that end in the first octets of them.
fn many_lines(alloc: Global, times: usize, octets: usize) -> Result<(String, String), Fail> {
    let mut input = String::new(alloc);
    let mut text = String::new(alloc);
    for _ in 0..times {
        for (line, shown) in LINES {
            input.push_str(line)?;
            if input.len() <= octets {
                text.push_str(shown)?;
            }
        }
    }
    Ok((input, text))
}

/// Asserts what stands written of these lines thirty times, if a read or a write fails after so many octets.
fn assert_cut<R: Abort>(
    rt: &R,
    alloc: Global,
    octets: usize,
    failing: [&[u64]; 2],
    fault: Fault,
) -> Result<(), Fail> {
    let (input, text) = many_lines(alloc, 30, octets)?;
    let want = (text.as_str(), Err(fault));
    assert_run(rt, alloc, Modulus::Eight, input.as_bytes(), failing, want)
}

// The read after so many pieces fails: the lines that ended in these stand written.
#[test]
fn a_failed_read_keeps_the_lines_before_it(rt: HostRuntime) -> Result<(), Fail> {
    for read in 0..=50 {
        let reads = [read as u64];
        let failing: [&[u64]; 2] = [&reads, &[]];
        assert_cut(&rt, rt.alloc(), read * 31, failing, Fault::Read)?;
    }
    Ok(())
}

// Each piece ends a line that is shown, so the write of this number is that of this piece: what the pieces before it
// brought stands written.
#[test]
fn a_failed_write_keeps_the_lines_before_it(rt: HostRuntime) -> Result<(), Fail> {
    for write in 0..=50 {
        let writes = [write as u64];
        let failing: [&[u64]; 2] = [&[], &writes];
        assert_cut(&rt, rt.alloc(), write * 31, failing, Fault::Write)?;
    }
    Ok(())
}

// Nothing is written of what ends no line, and so nothing fails.
#[test]
fn no_line_no_write(rt: HostRuntime) -> Result<(), Fail> {
    for input in ["", "\n\r\n\n"] {
        let failing: [&[u64]; 2] = [&[], &[0]];
        assert_run(
            &rt,
            rt.alloc(),
            Modulus::Eight,
            input.as_bytes(),
            failing,
            ("", Ok(())),
        )?;
    }
    Ok(())
}

/// What is shown of the octet 00.
const FIRST: &str = "! bad character at 0\n";

/// Asserts that a read that fails is not made after a line that is bad so.
fn assert_ends_before<R: Abort>(
    rt: &R,
    alloc: Global,
    input: &str,
    read: u64,
    flaw: LineFlaw,
) -> Result<(), Fail> {
    let want = (FIRST, ended(Some((flaw, 3))));
    let reads = [read];
    let failing: [&[u64]; 2] = [&reads, &[]];
    assert_run(rt, alloc, Modulus::Eight, input.as_bytes(), failing, want)
}

// A bad line ends the reading: a later read is not made, and so does not fail.
#[test]
fn nothing_is_read_after_a_bad_line(rt: HostRuntime) -> Result<(), Fail> {
    let input = "00\nzz\n00\n00\n00\n00\n00\n00\n00\n00\n00\n00\n";
    assert_ends_before(&rt, rt.alloc(), input, 1, LineFlaw::BadDigit)?;
    // The 67th read brings the octet at 2052, which is the 2050th of the line.
    let long = repeated(rt.alloc(), "00\n", "4", 4000)?;
    assert_ends_before(&rt, rt.alloc(), &long, 67, LineFlaw::LongLine)
}
