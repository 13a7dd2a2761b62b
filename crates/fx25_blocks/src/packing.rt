//! Octets and their bits, the least significant bit of each octet first.

ghost use Rattle.std.specs.Prelude.{◌≡◌, ◌+◌, ◌*◌, ◌^◌, ◌<◌, ◌≤◌, [], ◌∷◌, ◌++◌, All, drop, length, take};
ghost use Rattle.arrayvec.specs.ArrayVec.{array_vec_len};
ghost use Rattle.hdlc_framer.specs.BitOrder.{low_bits, octet_bits, sent_bits};
ghost use Rattle.fx25_blocks.specs.Tags.{bits_of_64};

use arrayvec::ArrayVec;

// How many octets the longest block has.
pub const MOST_OCTETS: usize = 255;

// How many bits that are.
pub const MOST_BITS: usize = 2040;

// The octets of a block, or a part of them.
pub type Word = ArrayVec<u8, MOST_OCTETS>;

// Their bits.
pub type WordBits = ArrayVec<bool, MOST_BITS>;

// A part of an octet with one bit more.
fn with_bit(part: u8, filled: u8, bit: bool) -> u8
    requires room { filled < 8 }
    requires part { part < 2 ^ filled }
    ensures bits { low_bits (filled + 1) result ≡ low_bits filled part ++ bit ∷ [] }
    ensures below { result < 2 ^ (filled + 1) }
{
    if bit { part | (1 << filled) } else { part }
}

// The octet whose bits begin at a place.
fn octet_at(bits: &[bool], start: usize) -> u8
    requires { start + 8 ≤ length bits.now }
    ensures { octet_bits result ≡ take 8 (drop start bits.now) }
{
    let sent = &bits[start..start + 8];
    let mut octet = 0;
    for place in 0..8_u8 {
        octet = with_bit(octet, place, sent[place as usize]);
    }
    octet
}

// The octets of bits, so many.
pub fn pack(bits: &[bool], count: usize) -> Word
    requires size { length bits.now ≡ 8 * count }
    requires most { count ≤ 255 }
    ensures bits { sent_bits result.items ≡ bits.now }
    ensures count { array_vec_len result ≡ count }
{
    let mut word = ArrayVec::new();
    for place in 0..count {
        word.push(octet_at(bits, 8 * place));
    }
    word
}

// The same octets as a word.
pub fn word_of(octets: &[u8]) -> Word
    requires { length octets.now ≤ 255 }
    ensures { result.items ≡ octets.now }
{
    let mut word = ArrayVec::new();
    for octet in octets {
        word.push(*octet);
    }
    word
}

// The bits of octets.
pub fn unpack(octets: &[u8]) -> WordBits
    requires { length octets.now ≤ 255 }
    ensures { result.items ≡ sent_bits octets.now }
{
    let mut bits = ArrayVec::new();
    for octet in octets {
        push_octet(&mut bits, *octet);
    }
    bits
}

fn push_octet(bits: &mut WordBits, octet: u8)
    requires { array_vec_len bits.old + 8 ≤ 2040 }
    ensures { bits.new.items ≡ bits.old.items ++ octet_bits octet }
{
    for place in 0..8_u8 {
        bits.push((octet >> place) & 1 == 1);
    }
}

// The bits of a number.
pub fn bits_of_64(value: u64) -> ArrayVec<bool, 64>
    ensures { result.items ≡ bits_of_64 value }
{
    let mut bits = ArrayVec::new();
    for place in 0..64_u8 {
        bits.push((value >> place) & 1 == 1);
    }
    bits
}

// What every list of octets is.
pub fn are_octets(octets: &[u8])
    ensures { All (λ octet. octet < 256) octets.now }
{
    let _octets = octets;
}
