//! `decode`.
use super::assert_asked;
use std::alloc::Global;
use std::process::Abort;
use std::test::Fail;
use tnc_words::{AudioForm, Command, DecodeWords, FrameForm, Receiving, SampleRate};

/// What `decode` asks for alone.
const DECODE: DecodeWords = DecodeWords {
    audio: AudioForm::Raw,
    frames: FrameForm::Hex,
    threads: false,
    receiving: Receiving::Standard {
        rate: SampleRate::Narrow,
    },
};

/// At 48,000 samples a second, or what a WAV file tells.
const WIDE: DecodeWords = DecodeWords {
    receiving: Receiving::Standard {
        rate: SampleRate::Wide,
    },
    ..DECODE
};

const SHORT_WAVE: DecodeWords = DecodeWords {
    receiving: Receiving::ShortWave,
    ..DECODE
};

const SENSITIVE: DecodeWords = DecodeWords {
    receiving: Receiving::Sensitive {
        rate: SampleRate::Narrow,
    },
    ..DECODE
};

const FX25: DecodeWords = DecodeWords {
    receiving: Receiving::Fx25,
    ..DECODE
};

const SENSITIVE_FX25: DecodeWords = DecodeWords {
    receiving: Receiving::SensitiveFx25,
    ..DECODE
};

const KISS: FrameForm = FrameForm::Kiss;

const WAV: AudioForm = AudioForm::Wav;

const FROM_WAV: DecodeWords = DecodeWords {
    audio: WAV,
    ..DECODE
};

const AS_KISS: DecodeWords = DecodeWords {
    frames: KISS,
    ..DECODE
};

/// What stands after `decode`, and what it asks for: forms and threads.
const FORMS: &[(&str, DecodeWords)] = &[
    ("", DECODE),
    ("--", DECODE),
    ("--wav", FROM_WAV),
    ("--kiss", AS_KISS),
    (
        "--kiss --wav",
        DecodeWords {
            audio: WAV,
            ..AS_KISS
        },
    ),
    (
        "--threads --wav",
        DecodeWords {
            threads: true,
            ..FROM_WAV
        },
    ),
];

fn assert_rows<R: Abort>(rt: &R, alloc: Global, rows: &[(&str, DecodeWords)]) -> Result<(), Fail> {
    for (line, want) in rows {
        assert_asked(rt, alloc, "decode", line, Command::Decode(*want))?;
    }
    Ok(())
}

#[test]
fn decode_takes_its_forms_and_threads(rt: HostRuntime) -> Result<(), Fail> {
    assert_rows(&rt, rt.alloc(), FORMS)
}

/// The same: what hears, and the rate.
const HEARING: &[(&str, DecodeWords)] = &[
    ("--rate=9600", DECODE),
    ("--rate 48000", WIDE),
    ("--wav --rate=048000", DecodeWords { audio: WAV, ..WIDE }),
    ("--hf --rate 9600", SHORT_WAVE),
    ("--sensitive", SENSITIVE),
    (
        "--sensitive --hf",
        DecodeWords {
            receiving: Receiving::SensitiveShortWave,
            ..DECODE
        },
    ),
    ("--fx25", FX25),
    ("--sensitive --fx25", SENSITIVE_FX25),
    (
        "--wav --threads --rate 9600 --fx25 --kiss",
        DecodeWords {
            audio: WAV,
            frames: KISS,
            threads: true,
            ..FX25
        },
    ),
    (
        "--rate 48000 --sensitive",
        DecodeWords {
            receiving: Receiving::Sensitive {
                rate: SampleRate::Wide,
            },
            ..DECODE
        },
    ),
    (
        "--threads --sensitive --rate=9600 --kiss --wav",
        DecodeWords {
            audio: WAV,
            frames: KISS,
            threads: true,
            ..SENSITIVE
        },
    ),
];

#[test]
fn decode_takes_what_hears_and_its_rate(rt: HostRuntime) -> Result<(), Fail> {
    assert_rows(&rt, rt.alloc(), HEARING)
}
