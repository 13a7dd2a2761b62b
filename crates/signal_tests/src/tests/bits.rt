//! The line of a worked transmission, sent and heard.
use crate::tests::assertions::assert_equal;
use crate::tests::letters::letter;
use nrzi_bits::{NrziIn, NrziOut, each_undoes_the_other};

#[test]
fn a_flag_and_a_letter_keep_the_tone_for_one_and_change_it_for_zero(rt: HostRuntime) {
    // The flag 01111110, then the octet 4A, least significant bit first.
    let bits = b"0111111001010010";
    let tones = b"SSSSSSSMSSMMSMMS";
    each_undoes_the_other();
    let mut sender = NrziOut::new();
    let mut receiver = NrziIn::new();
    for (at, (bit, wanted)) in bits.iter().zip(tones).enumerate() {
        let tone = sender.step(*bit == b'1');
        let heard = if receiver.step(tone) { b'1' } else { b'0' };
        assert_equal(&rt, &(at, letter(tone), heard), &(at, *wanted, *bit));
        assert_equal(&rt, &letter(receiver.tone()), wanted);
    }
}
