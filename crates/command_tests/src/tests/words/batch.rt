//! `encode`, `show` and `loop`.
use super::assert_asked;
use ax25_frames::Modulus;
use std::alloc::Global;
use std::process::Abort;
use std::test::Fail;
use tnc_words::{
    AudioForm, CheckOctets, Command, EncodeWords, FrameForm, LoopWords, Modem, ShowWords,
    one_command,
};

/// What `encode` asks for alone.
const ENCODE: EncodeWords = EncodeWords {
    frames: FrameForm::Hex,
    audio: AudioForm::Raw,
    join: false,
    opening: 75,
    closing: 2,
    silence: 0,
    level: 10_000,
    modem: Modem::Bell202,
};

const AS_KISS: EncodeWords = EncodeWords {
    frames: FrameForm::Kiss,
    ..ENCODE
};

const AS_WAV: EncodeWords = EncodeWords {
    audio: AudioForm::Wav,
    ..ENCODE
};

/// What stands after `encode`, and what it asks for: forms and flags.
const FORMS: &[(&str, EncodeWords)] = &[
    ("", ENCODE),
    ("--kiss", AS_KISS),
    ("--wav", AS_WAV),
    (
        "--wav --kiss",
        EncodeWords {
            audio: AudioForm::Wav,
            ..AS_KISS
        },
    ),
    (
        "--join",
        EncodeWords {
            join: true,
            ..ENCODE
        },
    ),
    (
        "--hf",
        EncodeWords {
            modem: Modem::ShortWave,
            ..ENCODE
        },
    ),
    (
        "--fx25 16",
        EncodeWords {
            modem: Modem::Fx25(CheckOctets::Sixteen),
            ..ENCODE
        },
    ),
    (
        "--fx25=032",
        EncodeWords {
            modem: Modem::Fx25(CheckOctets::ThirtyTwo),
            ..ENCODE
        },
    ),
    (
        "--fx25 64",
        EncodeWords {
            modem: Modem::Fx25(CheckOctets::SixtyFour),
            ..ENCODE
        },
    ),
];

fn assert_encode<R: Abort>(
    rt: &R,
    alloc: Global,
    rows: &[(&str, EncodeWords)],
) -> Result<(), Fail> {
    for (line, want) in rows {
        assert_asked(rt, alloc, "encode", line, Command::Encode(*want))?;
    }
    Ok(())
}

#[test]
fn encode_takes_its_forms_and_flags(rt: HostRuntime) -> Result<(), Fail> {
    assert_encode(&rt, rt.alloc(), FORMS)
}

/// The same: numbers.
const NUMBERS: &[(&str, EncodeWords)] = &[
    (
        "--opening 2",
        EncodeWords {
            opening: 2,
            ..ENCODE
        },
    ),
    (
        "--opening=10000",
        EncodeWords {
            opening: 10_000,
            ..ENCODE
        },
    ),
    (
        "--closing 1",
        EncodeWords {
            closing: 1,
            ..ENCODE
        },
    ),
    (
        "--closing=10000",
        EncodeWords {
            closing: 10_000,
            ..ENCODE
        },
    ),
    (
        "--closing 00000000000000000000000000007",
        EncodeWords {
            closing: 7,
            ..ENCODE
        },
    ),
    ("--silence=0", ENCODE),
    (
        "--silence 1000000 --opening 0128",
        EncodeWords {
            opening: 128,
            silence: 1_000_000,
            ..ENCODE
        },
    ),
    (
        "--level 10",
        EncodeWords {
            level: 10,
            ..ENCODE
        },
    ),
    ("--level=010000", ENCODE),
    (
        "--level=32767",
        EncodeWords {
            level: 32_767,
            ..ENCODE
        },
    ),
];

#[test]
fn encode_takes_its_numbers(rt: HostRuntime) -> Result<(), Fail> {
    assert_encode(&rt, rt.alloc(), NUMBERS)
}

/// What stands after `show`, and the modulus that it asks for.
const SHOW: &[(&str, Modulus)] = &[
    ("", Modulus::Eight),
    ("--modulo 8", Modulus::Eight),
    ("--modulo=008", Modulus::Eight),
    ("--modulo 128", Modulus::OneTwentyEight),
    ("--modulo=0128", Modulus::OneTwentyEight),
];

#[test]
fn show_takes_a_modulus(rt: HostRuntime) -> Result<(), Fail> {
    one_command();
    for (line, modulus) in SHOW {
        let modulus = *modulus;
        let want = Command::Show(ShowWords { modulus });
        assert_asked(&rt, rt.alloc(), "show", line, want)?;
    }
    Ok(())
}

/// Twenty frames of seed 7.
const TWENTY: LoopWords = LoopWords {
    seed: 7,
    frames: 20,
    rough: false,
    threads: false,
};

/// None of seed 0.
const NONE: LoopWords = LoopWords {
    seed: 0,
    frames: 0,
    ..TWENTY
};

/// Of the greatest seed.
const GREATEST: LoopWords = LoopWords {
    seed: u64::MAX,
    ..TWENTY
};

/// What stands after `loop`, and what it asks for.
const LOOP: &[(&str, LoopWords)] = &[
    ("--seed 7 --frames 20", TWENTY),
    ("--frames=20 --seed=7", TWENTY),
    ("--seed 0 --frames 0", NONE),
    (
        "--seed 18446744073709551615 --frames 1000",
        LoopWords {
            frames: 1000,
            ..GREATEST
        },
    ),
    (
        "--seed 0018446744073709551615 --frames 001",
        LoopWords {
            frames: 1,
            ..GREATEST
        },
    ),
    (
        "--seed 7 --frames 20 --rough",
        LoopWords {
            rough: true,
            ..TWENTY
        },
    ),
    (
        "--rough --frames=20 --seed=7",
        LoopWords {
            rough: true,
            ..TWENTY
        },
    ),
    (
        "--seed=0 --rough --frames=0 --",
        LoopWords {
            rough: true,
            ..NONE
        },
    ),
    (
        "--seed 7 --threads --frames 20",
        LoopWords {
            threads: true,
            ..TWENTY
        },
    ),
];

#[test]
fn loop_takes_its_numbers_and_flags(rt: HostRuntime) -> Result<(), Fail> {
    for (line, want) in LOOP {
        assert_asked(&rt, rt.alloc(), "loop", line, Command::Loop(*want))?;
    }
    Ok(())
}
