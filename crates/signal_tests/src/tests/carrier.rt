//! What is heard in windows, and where tones are found and lost, as a second program computed them from the
//! definition.

use crate::tests::assertions::assert_equal;
use nrzi_bits::NrziOut;
use offset_slicers::{correlate, decide};
use std::process::Abort;
use tone_carrier::{Carrier, CarrierLane, HeardWindow, power};
use tone_table::{Tone, sine, step};

/// Eight samples, and what is heard of them: the first two windows of mark and space at level 10,000 and at level 10,
/// silence, constants, and the loudest window.
const WINDOWS: [([i16; 8], Tone, i64, i64, i64); 8] = [
    (
        [0, 7071, 10000, 7071, 0, -7071, -10000, -7071],
        Tone::Mark,
        1562485,
        0,
        25599754496,
    ),
    (
        [0, 9914, 2588, -9239, -5000, 7934, 7071, -6088],
        Tone::Space,
        1427169,
        103919,
        23021878928,
    ),
    ([0, 7, 10, 7, 0, -7, -10, -7], Tone::Mark, 1554, 0, 25344),
    ([0, 9, 2, -9, -5, 7, 7, -6], Tone::Space, 1344, 94, 20625),
    ([0; 8], Tone::Mark, 0, 0, 0),
    ([100; 8], Tone::Space, 2804, -953, 640000),
    ([-32768; 8], Tone::Space, -919040, 312064, 68719476736),
    (
        [32767, -32768, 32767, -32768, 32767, -32768, 32767, -32768],
        Tone::Space,
        273645,
        806136,
        549739036816,
    ),
];

#[test]
fn windows_are_heard(rt: HostRuntime) {
    for (samples, tone, sine, cosine, loud) in &WINDOWS {
        let heard = HeardWindow {
            tone: *tone,
            sine: *sine,
            cosine: *cosine,
            power: *loud,
        };
        assert_equal(&rt, &HeardWindow::of(samples), &heard);
        assert_equal(&rt, &power(samples), loud);
    }
}

#[test]
fn a_decision_hands_over_its_sums(rt: HostRuntime) {
    let samples = [0, 7071, 10000, 7071, 0, -7071, -10000, -7071];
    let [sine, cosine, _, _] = correlate(&samples);
    if decide(&samples) == Tone::Mark {
        let heard = HeardWindow::decided(&samples, Tone::Mark, sine, cosine);
        assert_equal(&rt, &heard, &HeardWindow::of(&samples));
        return;
    }
    assert_equal(&rt, &false, &true);
}

/// Where a carrier was found first, and where it was lost last.
#[derive(Drop)]
struct Places {
    found: u64,
    lost: u64,
}

/// Gives a carrier one sample, and notes whether it is found or lost with it.
fn hear<R: Abort>(rt: &R, carrier: &mut Carrier, places: &mut Places, sample: i16) {
    assert!(*rt; carrier.position() < 10000);
    let before = carrier.is_busy();
    carrier.push(sample);
    let after = carrier.is_busy();
    if after && !before && places.found == 0 {
        places.found = carrier.position();
    }
    if before && !after {
        places.lost = carrier.position();
    }
}

/// Gives a carrier the eight samples of a tone from a phase on, and tells the phase after them.
fn send<R: Abort>(rt: &R, carrier: &mut Carrier, places: &mut Places, phase: u8, tone: Tone) -> u8 {
    let mut phase = phase % 48;
    for _ in 0..8u8 {
        phase %= 48;
        hear(rt, carrier, places, sine(phase));
        phase += step(tone) % 48;
    }
    phase % 48
}

/// A row of bits, how often it is sent, and after how many samples the tones are found and, in the silence after them,
/// lost: 0s, 1s, and flags.
const SENT: [(&[bool], u8, u64, u64); 3] = [
    (&[false], 60, 104, 480 + 360),
    (&[true], 60, 200, 480 + 366),
    (
        &[false, true, true, true, true, true, true, false],
        12,
        168,
        768 + 360,
    ),
];

#[test]
fn tones_are_found_and_lost(rt: HostRuntime) {
    for (bits, times, found, lost) in SENT {
        let mut carrier = Carrier::new();
        let mut places = Places { found: 0, lost: 0 };
        let mut line = NrziOut::new();
        let mut phase = 0;
        for _ in 0..times {
            for bit in bits {
                phase = send(&rt, &mut carrier, &mut places, phase, line.step(*bit));
            }
        }
        for _ in 0..600u16 {
            hear(&rt, &mut carrier, &mut places, 0);
        }
        assert_equal(&rt, &(places.found, places.lost), &(found, lost));
    }
}

/// A transmission of 0s of which 101 samples are lost after 200: it is found again 105 samples after the gap.
#[test]
fn a_gap_begins_anew(rt: HostRuntime) {
    let mut carrier = Carrier::new();
    let mut places = Places { found: 0, lost: 0 };
    let mut line = NrziOut::new();
    let mut phase = 0;
    for _ in 0..25u8 {
        phase = send(&rt, &mut carrier, &mut places, phase, line.step(false));
    }
    assert_equal(&rt, &(places.found, carrier.is_busy()), &(104, true));
    assert!(rt; carrier.position() <= 301);
    carrier.skip(301);
    assert_equal(&rt, &(carrier.position(), carrier.is_busy()), &(301, false));
    places.found = 0;
    for _ in 0..25u8 {
        phase = send(&rt, &mut carrier, &mut places, phase, line.step(false));
    }
    assert_equal(&rt, &places.found, &406);
}

/// Windows of mark in a row, which run on, show a carrier from the 25th on; one that does not takes five off.
#[test]
fn a_lane_takes_windows(rt: HostRuntime) {
    let mark = HeardWindow::of(&[0, 7071, 10000, 7071, 0, -7071, -10000, -7071]);
    let mut lane = CarrierLane::new();
    for count in 1..30u8 {
        lane.push(&mark);
        assert_equal(&rt, &(count, lane.is_busy()), &(count, count >= 25));
    }
    lane.restart();
    assert_equal(&rt, &lane.is_busy(), &false);
    for count in 1..30u8 {
        lane.push(&mark);
        assert_equal(&rt, &(count, lane.is_busy()), &(count, count >= 25));
    }
}
