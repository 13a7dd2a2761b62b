//! Words that are refused.
use super::assert_none_taken;
use crate::tests::assertions::assert_equal;
use std::alloc::Global;
use std::test::Fail;
use tnc_words::{WordsFault, read_words};

/// What stands after `decode`.
const DECODE: &str = "\
x
--join
--wav --wav
--kiss --kiss
--wav=true
--wa
--wav --help
--version
--level 10
--hf --threads
--hf --rate 48000
--sensitive --hf --threads
--sensitive --hf --rate 48000
--sensitive --hf --fx25
--sensitive --sensitive
--sensitive=true
--rate 44100
--wav --rate 44100
--rate
--rate 9600 --rate 9600
--threads --threads
--threads=2
--fx25 --hf
--fx25 --sensitive --rate 48000
--fx25 --rate 48000
--fx25 --fx25
--fx25=true
--fx25 16
";

/// What stands after `encode`.
const ENCODE: &str = "\
x
-h
--help --wav
--version
--joi
--Join
--join=true
--join --join
--modulo 8
--opening
--opening=
--opening 1
--opening 10001
--opening -1
--opening=-1
--opening 1x
--opening +5
--opening 5 --opening 5
--opening 18446744073709551618
--closing 0
--closing 10001
--silence 1000001
--silence 4294967296
--level
--level 9
--level 32768
--level 65546
--level -10
--level 10 --level 10
--rate 48000
--rough
--threads
--sensitive
--fx25
--fx25=
--fx25 0
--fx25 15
--fx25 17
--fx25 48
--fx25 65
--fx25 16x
--fx25 16 --fx25 16
--fx25 16 --hf
";

/// What stands after `show`.
const SHOW: &str = "\
x
--wav
--modulo
--modulo=
--modulo 7
--modulo 9
--modulo 16
--modulo 127
--modulo 129
--modulo 8x
--modulo +8
--modulo 8 --modulo 8
";

/// What stands after `loop`.
const LOOP: &str = "\
--seed 7
--frames 1
7 1
--seed --frames 1
--seed 7 --frames
--seed= --frames=1
--seed 7 --frames 1001
--seed 18446744073709551616 --frames 1
--seed -1 --frames 1
--seed=-1 --frames=1
--seed +1 --frames 1
--seed 0x7 --frames 1
--seed 7 --seed 7 --frames 1
--seed 7 --frames 1 --join
--rough
--seed 7 --frames 1 --rough=true
--seed 7 --frames 1 --rough --rough
--seed 7 --frames 1 --level 10
--seed 7 --frames 1 --threads=2
";

/// What stands after `serve`.
const SERVE: &str = "\
--kiss
--agw
--kiss=
--kiss 0 --agw 8000
--kiss 8001 --agw 65536
--kiss 65536 --agw 1
--kiss None
--agw nones
--agw non
--kiss none --kiss none
8001 8000
";

/// What stands after the ports of `serve`.
const STATION: &str = "\
x
--kiss 8002
--help
--seed 18446744073709551616
--seed +1
--mode
--mode REJ
--mode=
--window 0
--window 8
--window 256
--window 260
--window 5 --mode srej
--wide=true
--wide-window 0
--wide-window 128
--wide-window 65
--wide-window 65 --mode srej
--wide-window 128 --mode rej
--wide 8
--t1
--t1=
--t1 99
--t1 3001
--t1 0
--t1 -200
--t1 +200
--t1 2s
--t1 200 --t1 200
--retries
--retries 0
--retries 21
--retries +3
--retries 3x
--rate
--rate 44100
--rate 96000
--rate 48k
--rate 9600 --rate 9600
--stats
--stats=
--stats 0
--stats 86401
--stats +10
--stats 10s
--stats 10 --stats 10
--retries 3 --retries 3
--txdelay 256
--txdelay -1
--txdelay=
--txtail 256
--persist 256
--slot 256
--slot +1
--duplex=1
--bind
--bind=
--bind localhost
--bind 127.0.0
--bind 127.0.0.256
--bind 127.0.0.01
--bind 127.0.0.1:8000
--bind ::1
--paclen
--paclen 15
--paclen 257
--paclen 0
--digi N7LEM-16
--digi TOOLONG
--digi N7/LEM
--dcd 0
--dcd 9
--dcd x
--dcd Tones
--dcd tone
--monitor=1
--ptt
--ptt=
--ptt 0
--ptt 65536
--ptt x
--ptt 4532 --ptt 4532
--ptt-tail 70
--ptt-data
--ptt-tail 70 --ptt-data
--ptt 4532 --ptt-tail 501
--ptt 4532 --ptt-tail -1
--ptt 4532 --ptt-tail=
--ptt 4532 --ptt-data=true
--hf=true
--hf --hf
--hf --dcd tones
--hf --dcd 1
--hf --dcd 9
--fx25
--fx25 1
--fx25 8
--fx25 none
--fx25 0 --fx25 0
--fx25 0 --hf
--fx25 0 --rate 48000
--fx25 0 --dcd tones
--fx25 0 --dcd 1
--threads
--sensitive=true
--sensitive --sensitive
";

/// What stands after `record`.
const RECORD: &str = "\
x
--keep
--keep=
--keep 0
--keep 17280001
--keep -1
--keep +1
--keep 1 --keep 1
--sensitive=true
--sensitive --sensitive
--monitor
--wav
";

/// What stands after `call`.
const CALL: &str = "\
--agw 8000
--agw 8000 --from N7LEM
--agw 8000 --to NJ7P
--from N7LEM --to NJ7P
--agw 0 --from N7LEM --to NJ7P
--agw 65536 --from N7LEM --to NJ7P
--agw 8000 --from N7LEM-16 --to NJ7P
--agw 8000 --from N7LEM --to NJ/P
--agw 8000 --from= --to NJ7P
--agw 8000 --from N7LEM --to TOOLONG
8000 N7LEM NJ7P
";

/// What stands after the least words of `call`.
const WAY: &str = "\
x
--agw 8001
--via
--via=
--via ,
--via A1,
--via ,A1
--via A1,,B2
--via A1,TOOLONG
--via A1-16
--via A1;B2
--via A1,B2,C3,D4,E5,F6,G7,H8,I9
--via A1 --via B2
--expect
--expect -1
--expect 1000001
--polls 0
--polls 1000001
--polls +1
--keep 1
";

/// Whole lines.
const OTHERS: &str = "\
decod
Decode
decodee
--join encode
bench
help version
--help loop
-h serve
loop
help help
help decode encode
help Decode
version help
-v
";

/// Each row: the words before, and the lines.
const REFUSED: &[(&str, &str)] = &[
    ("decode", DECODE),
    ("encode", ENCODE),
    ("show", SHOW),
    ("loop", LOOP),
    ("serve", SERVE),
    ("serve --kiss 8001 --agw=8000", STATION),
    ("record", RECORD),
    ("call", CALL),
    ("call --agw 8000 --from N7LEM --to=NJ7P", WAY),
    ("", OTHERS),
];

#[test]
fn other_words_are_refused(rt: HostRuntime) -> Result<(), Fail> {
    for (front, lines) in REFUSED {
        assert_none_taken(&rt, rt.alloc(), front, lines)?;
    }
    Ok(())
}

/// Whether these words are refused.
fn are_refused(alloc: Global, words: &[&str]) -> Result<bool, Fail> {
    let mut given = Vec::new(alloc);
    for word in words {
        given.push(String::from_str(alloc, word)?)?;
    }
    Ok(matches!(read_words(alloc, &given), Err(WordsFault::Refused)))
}

/// Words that a line cannot have.
const NO_LINE: &[&[&str]] = &[
    &[],
    &[""],
    &["encode", "--opening", " 5"],
    &["serve", "--kiss=1", "--agw=2", "--mode", "srej "],
    &["serve", "--kiss=1", "--agw=2", "--digi", ""],
    &["call", "--agw=1", "--from=A1", "--to=B2", "--via", "C3, D4"],
];

#[test]
fn no_words_and_words_with_spaces_are_refused(rt: HostRuntime) -> Result<(), Fail> {
    for words in NO_LINE {
        let refused = are_refused(rt.alloc(), words)?;
        assert_equal(&rt, &(*words, refused), &(*words, true));
    }
    Ok(())
}
