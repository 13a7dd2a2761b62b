//! A live station to whose ports no host connects.
use super::{NEVER, assert_ended, run_live};
use crate::assertions::assert_equal;
use std::test::Fail;

// Each row: how many samples of silence come, what fails, the status, how many octets come out, the report, and how
// often the ports are opened. A tick is 96 samples, and only whole ticks are sent.
#[test]
fn a_station_without_hosts_sends_silence(rt: HostRuntime) -> Result<(), Fail> {
    let words = "serve --kiss 8001 --agw=8000";
    for (samples, failing, end, listens) in [
        (960, [NEVER; 4], (0, 1920, ""), 1),
        (1000, [NEVER; 4], (0, 1920, ""), 1),
        (0, [NEVER; 4], (0, 0, ""), 1),
        (960, [0, NEVER, NEVER, NEVER], (4, 0, ""), 1),
        (960, [100, NEVER, NEVER, NEVER], (4, 576, ""), 1),
        (960, [NEVER, 0, NEVER, NEVER], (5, 0, ""), 1),
        (960, [NEVER, 3, NEVER, NEVER], (5, 576, ""), 1),
        (960, [NEVER, NEVER, NEVER, 1], (0, 1920, ""), 1),
        (960, [NEVER, NEVER, NEVER, 0], (10, 0, "tnc: no port\n"), 0),
        (960, [NEVER, NEVER, 0, 0], (5, 0, ""), 0),
    ] {
        let mut silence = Vec::new(rt.alloc());
        silence.resize(2 * samples, 0)?;
        let got = run_live(&rt, rt.alloc(), words, &silence, failing)?;
        assert_ended(&rt, words, &got, end);
        assert_equal(&rt, &(failing, got.listens), &(failing, listens));
        assert!(rt; got.output.iter().all(|octet| *octet == 0));
    }
    Ok(())
}

#[test]
fn one_word_is_enough(rt: HostRuntime) -> Result<(), Fail> {
    for words in ["serve", "serve --kiss none", "serve --agw=none --kiss none"] {
        let got = run_live(&rt, rt.alloc(), words, b"", [NEVER; 4])?;
        assert_ended(&rt, words, &got, (0, 0, ""));
        assert_equal(&rt, &(words, got.listens), &(words, 1));
    }
    Ok(())
}

#[test]
fn other_words_open_no_port(rt: HostRuntime) -> Result<(), Fail> {
    for words in ["decode", "serve --kiss=8001 --agw=0"] {
        let got = run_live(&rt, rt.alloc(), words, b"", [NEVER; 4])?;
        assert_equal(&rt, &(words, got.listens), &(words, 0));
    }
    Ok(())
}
