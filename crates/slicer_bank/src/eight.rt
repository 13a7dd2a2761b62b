//! Eight windows of a lane in a row: their tones, and the bits of these as an octet.
ghost use Rattle.std.specs.Prelude.{◌≡◌, ◌+◌, ◌<◌, ◌*◌, take, drop, if◌then◌else◌};
ghost use Rattle.nrzi_bits.specs.Line.{bits_from, same_tone};
ghost use Rattle.hdlc_framer.specs.BitOrder.{octet_bits};
ghost use Rattle.offset_slicers.specs.Decision.{tone_of};
ghost use Rattle.slicer_bank.specs.Heard.{tones_in};

use offset_slicers::decide;
use tone_table::Tone;

/// The tones of eight windows in a row.
pub fn tones_of(windows: &[i16; 64]) -> [Tone; 8]
    ensures { result ≡ tones_in 8 windows.now }
{
    [
        tone_at(windows, 0),
        tone_at(windows, 1),
        tone_at(windows, 2),
        tone_at(windows, 3),
        tone_at(windows, 4),
        tone_at(windows, 5),
        tone_at(windows, 6),
        tone_at(windows, 7),
    ]
}

/// The tone of one of eight windows in a row.
fn tone_at(windows: &[i16; 64], index: usize) -> Tone
    requires { index < 8 }
    ensures { result ≡ tone_of (take 8 (drop (8 * index) windows.now)) }
{
    decide(windows[8 * index..].first_chunk().unwrap())
}

/// The bits of eight tones, the first one in the lowest place, if they come after a tone.
pub fn octet_of(before: Tone, tones: &[Tone; 8]) -> u8
    ensures { octet_bits result ≡ bits_from before tones.now }
{
    let [a, b, c, d, e, f, g, h] = *tones;
    let last = with_bit(agree(f, g), with_bit(agree(g, h), 0));
    let later = with_bit(agree(d, e), with_bit(agree(e, f), last));
    let early = with_bit(agree(b, c), with_bit(agree(c, d), later));
    with_bit(agree(before, a), with_bit(agree(a, b), early))
}

/// A bit, and bits in the places above it.
fn with_bit(bit: bool, above: u8) -> u8
    requires { above < 128 }
    ensures value { result ≡ 2 * above + (if bit then 1 else 0) }
{
    2 * above + u8::from(bit)
}

/// Whether two tones agree.
fn agree(before: Tone, tone: Tone) -> bool
    ensures { result ≡ same_tone before tone }
{
    before == tone
}
