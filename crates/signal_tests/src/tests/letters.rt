//! Tones and bits as letters, so that a list of them stands as one line of text.
use tone_table::Tone;

/// `M` for mark and `S` for space.
pub(crate) fn letter(tone: Tone) -> u8 {
    match tone {
        Tone::Mark => b'M',
        Tone::Space => b'S',
    }
}
