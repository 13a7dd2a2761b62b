//! From which bit on a deframer is busy, and until when.
use crate::tests::assertions::assert_equal;
use hdlc_framer::Deframer;

/// Is it busy after these bits, a text of 0 and 1, and so many zeros?
fn is_busy_after(deframer: &mut Deframer, bits: &str, zeros: u32) -> bool {
    for bit in bits.bytes() {
        deframer.push(bit == b'1');
    }
    for _ in 0..zeros {
        deframer.push(false);
    }
    deframer.busy()
}

/// Is it busy after these bits and zeros, and once it is reset?
fn busy_then_reset(mut deframer: Deframer, bits: &str, zeros: u32) -> (bool, bool) {
    let busy = is_busy_after(&mut deframer, bits, zeros);
    deframer.reset();
    (busy, deframer.busy())
}

#[test]
fn busy_from_one_flag_on(rt: HostRuntime) {
    let table = [
        ("", 20, false),
        ("0111111", 0, false),
        ("01111110", 0, true),
        ("01111110", 9_999, true),
        ("01111110", 10_000, false),
        ("011111101111111", 0, false),
        ("0111111011111110", 0, false),
        ("0111111011111110111111", 2, true),
    ];
    for (bits, zeros, busy) in table {
        let got = busy_then_reset(Deframer::listening(1), bits, zeros);
        assert_equal(&rt, &(bits, zeros, got), &(bits, zeros, (busy, false)));
    }
}

#[test]
fn busy_from_three_flags_in_a_row_on(rt: HostRuntime) {
    // Sharing a 0, one after another, and not in a row.
    let table = [
        ("0111111001111110", 0, false),
        ("0111111011111101111110", 0, true),
        ("011111100111111001111110", 0, true),
        ("011111100111111000111111001111110", 0, false),
        ("011111100111111001111110", 9_999, true),
        ("011111100111111001111110", 10_000, false),
        ("011111100111111001111110001111110", 9_999, true),
        ("0111111001111110011111101111111001111110", 0, false),
    ];
    for (bits, zeros, busy) in table {
        let got = busy_then_reset(Deframer::listening(3), bits, zeros);
        assert_equal(&rt, &(bits, zeros, got), &(bits, zeros, (busy, false)));
    }
}
