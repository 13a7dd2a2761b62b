//! A frame bit by bit, as it is sent plainly (AX.25 2.2 sections 3.6 to 3.8).
ghost use Rattle.std.specs.Prelude.{◌≡◌, ◌+◌, ◌*◌, ◌<◌, ◌≤◌, false, length, slice_index, slice_index_or};
ghost use Rattle.hdlc_framer.specs.FrameLength.{most_frame_length};
ghost use Rattle.channel_access.specs.Held.{checked, bits_in, bit_count, stuffed_start, next_stuffed, stuffed_over};

use hdlc_framer::fcs;

/// How many 1s stand before an inserted zero.
const ONES: u8 = 5;

/// Where a sender stands in a frame.
#[derive(Clone, Copy, Debug)]
pub(crate) struct StuffedBits {
    /// The place of the next bit among those of the octets and their check sequence.
    place: u16,
    /// How many 1s came just before.
    ones: u8,
    /// The check sequence.
    check: u16,
}

impl StuffedBits {
    /// At the first bit.
    pub(crate) fn new(octets: &[u8]) -> StuffedBits
        ensures { result ≡ stuffed_start octets.now }
    {
        StuffedBits {
            place: 0,
            ones: 0,
            check: fcs(octets),
        }
    }

    /// The next bit and where the sender stands after it. None if no bit is left.
    pub(crate) fn next(self, octets: &[u8]) -> Option<(bool, StuffedBits)>
        requires { length octets.now ≤ most_frame_length }
        ensures { result ≡ next_stuffed self octets.now }
    {
        if self.ones >= ONES {
            return Some((false, StuffedBits { ones: 0, ..self }));
        }
        if self.place >= bit_count(octets) {
            return None;
        }
        let bit = bit_at(octets, self.check, self.place);
        let ones = if bit { self.ones + 1 } else { 0 };
        Some((
            bit,
            StuffedBits {
                place: self.place + 1,
                ones,
                ..self
            },
        ))
    }

    /// Whether no bit is left.
    pub(crate) fn is_over(self, octets: &[u8]) -> bool
        requires { length octets.now ≤ most_frame_length }
        ensures { result ≡ stuffed_over self octets.now }
    {
        self.ones < ONES && self.place >= bit_count(octets)
    }
}

/// The bits of the octets and of their check sequence, without inserted zeros.
fn bit_count(octets: &[u8]) -> u16
    requires { length octets.now ≤ most_frame_length }
    ensures count { result ≡ bit_count octets.now }
    ensures most { result ≤ 8208 }
{
    8 * (octets.len() as u16 + 2)
}

/// The bit at a place of them.
fn bit_at(octets: &[u8], check: u16, place: u16) -> bool
    requires { place < bit_count octets.now }
    ensures { result ≡ slice_index_or (bits_in octets.now check) place false }
{
    let octet = octet_at(octets, check, usize::from(place / 8));
    (octet >> (place % 8)) & 1 == 1
}

/// The octet at a place among the octets and their check sequence.
fn octet_at(octets: &[u8], check: u16, place: usize) -> u8
    requires { place < length octets.now + 2 }
    ensures { result ≡ slice_index (checked octets.now check) place }
{
    if place < octets.len() {
        return octets[place];
    }
    let [low, high] = check.to_le_bytes();
    if place == octets.len() { low } else { high }
}
