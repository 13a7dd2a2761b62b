//! The command `loop`, and which candidates are stray.
use crate::tests::assertions::assert_equal;
use clean_signal::{TrueEnd, is_sent};
use frame_merge::Candidate;
use std::alloc::Global;
use std::test::Fail;
use std::thread::Threads;
use tnc_base::{MemSink, Octets};
use tnc_loop::{LoopFault, loop_back};
use tnc_words::LoopWords;

/// Twenty frames of seed 7.
const WORDS: LoopWords = LoopWords {
    seed: 7,
    frames: 20,
    rough: false,
    threads: false,
};

/// What is written, and how the command ends, if the sink fails the writes of these numbers.
fn looped<R: Threads + Sync>(
    rt: &R,
    alloc: Global,
    words: LoopWords,
    writes: &[u64],
) -> Result<(Vec<u8>, Result<(), LoopFault>), Fail> {
    let mut output = MemSink::new(alloc, 1000, writes.to_vec(alloc)?)?;
    let end = loop_back(rt, alloc, words, &mut output);
    Ok((output.written().to_vec(alloc)?, end))
}

const ROUGH: LoopWords = LoopWords {
    rough: true,
    ..WORDS
};

const EXACT_SUMMARY: &[u8] = b"frames 20\nheard 20\nstray 0\nhash 3c053d315c843125\n";

const ROUGH_SUMMARY: &[u8] = b"frames 20\nheard 20\nstray 0\nhash a3787c7f30285198\n";

const NO_SUMMARY: &[u8] = b"frames 0\nheard 0\nstray 0\nhash cbf29ce484222325\n";

/// Each row: the words, and what is written. Counts and hashes are those of another program; the hash of no octet is the
/// offset basis of FNV-1a.
const SUMMARIES: &[(LoopWords, &[u8])] = &[
    (WORDS, EXACT_SUMMARY),
    (
        LoopWords {
            threads: true,
            ..WORDS
        },
        EXACT_SUMMARY,
    ),
    (ROUGH, ROUGH_SUMMARY),
    (
        LoopWords {
            threads: true,
            ..ROUGH
        },
        ROUGH_SUMMARY,
    ),
    (LoopWords { frames: 0, ..WORDS }, NO_SUMMARY),
];

#[test]
fn the_frames_of_seed_seven_are_heard(rt: HostRuntime) -> Result<(), Fail> {
    for (words, summary) in SUMMARIES {
        let (written, end) = looped(&rt, rt.alloc(), *words, &[])?;
        assert_equal(
            &rt,
            &(*words, written.as_slice(), end.is_ok()),
            &(*words, *summary, true),
        );
    }
    Ok(())
}

#[test]
fn an_output_that_fails_is_told(rt: HostRuntime) -> Result<(), Fail> {
    let (written, end) = looped(&rt, rt.alloc(), LoopWords { frames: 1, ..WORDS }, &[0])?;
    assert!(rt; written.is_empty() && matches!(end, Err(LoopFault::Write)));
    Ok(())
}

/// Frames that end at samples 100 and 200.
fn ends(alloc: Global) -> Result<[TrueEnd; 2], Fail> {
    let one = Octets::from_slice(alloc, b"one")?;
    let two = Octets::from_slice(alloc, b"two")?;
    Ok([
        TrueEnd {
            end: 100,
            octets: one,
        },
        TrueEnd {
            end: 200,
            octets: two,
        },
    ])
}

/// Each row: the end and the octets of a candidate, and whether one of them was sent so.
const CANDIDATES: &[(u64, &str, bool)] = &[
    (92, "one", false),
    (93, "one", true),
    (100, "one", true),
    (107, "one", true),
    (108, "one", false),
    (100, "two", false),
    (200, "one", false),
    (200, "two", true),
    (150, "not", false),
    (160, "no", false),
];

/// Whether a candidate was sent.
fn was_sent(alloc: Global, ends: &[TrueEnd], end: u64, octets: &str) -> Result<bool, Fail> {
    let item = Candidate {
        end,
        offset: 0,
        octets: Octets::from_slice(alloc, octets.as_bytes())?,
    };
    Ok(is_sent(ends, &item))
}

#[test]
fn a_candidate_with_other_octets_or_eight_samples_off_is_stray(
    rt: HostRuntime,
) -> Result<(), Fail> {
    let ends = ends(rt.alloc())?;
    for (end, octets, is) in CANDIDATES {
        let got = was_sent(rt.alloc(), &ends, *end, octets)?;
        assert_equal(&rt, &(*end, *octets, got), &(*end, *octets, *is));
    }
    Ok(())
}
