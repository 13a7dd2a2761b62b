//! The head of a WAV file.

ghost use Rattle.std.specs.Prelude.{◌≡◌, ◌*◌, ◌≤◌, ◌↔◌, ◌++◌, ℕ, List, None, length, IsOk, IfOk, IfErr};
ghost use Rattle.wav_file.specs.declared.rates.Rates.{Rates};
ghost use Rattle.wav_file.specs.Head.{head_before, head_of};
ghost use Rattle.wav_file.specs.Samples.{samples};
ghost use Rattle.wav_file.specs.Reading.{samples_in, fault_in, verdict_of};

use crate::fault::TooLong;
use byteorder::{ByteOrder, LittleEndian};

// The head of a file without samples.
const EMPTY: [u8; 44] =
    *b"RIFF\x24\0\0\0WAVEfmt \x10\0\0\0\x01\0\x01\0\x80\x25\0\0\0\x4b\0\0\x02\0\x10\0data\0\0\0\0";

// The most samples of a file, for which RIFF's size is a number of 32 bits.
const MOST_SAMPLES: u64 = 2_147_483_629;

/// The 44 octets that stand before `count` samples in a WAV file.
pub fn wav_head(count: u64) -> Result<[u8; 44], TooLong>
    ensures head { IfOk result (λ head. head ≡ head_of count) }
    ensures fits { IsOk result ↔ (count ≤ 2147483629) }
    ensures refused { IfErr result (λ fault. fault.count ≡ count) }
    // The octets after it are samples.
    ensures samples { IfOk result (λ head. (rates : Rates) (octets : List ℕ) → length octets ≤ 2 * count
        → samples_in rates (head ++ octets) ≡ samples octets) }
    ensures no_fault { IfOk result (λ head. (rates : Rates) (octets : List ℕ) → length octets ≤ 2 * count
        → fault_in rates (head ++ octets) ≡ None) }
    ensures whole { IfOk result (λ head. (rates : Rates) (octets : List ℕ) → length octets ≡ 2 * count
        → verdict_of rates (head ++ octets) ≡ Ok tt) }
{
    if count > MOST_SAMPLES {
        return Err(TooLong { count });
    }
    Ok(head_for((2 * count) as u32))
}

// The head before so many octets.
fn head_for(size: u32) -> [u8; 44]
    requires { size ≤ 4294967258 }
    ensures { result ≡ head_before size }
{
    let mut head = EMPTY;
    LittleEndian::write_u32(&mut head[4..8], 36 + size);
    LittleEndian::write_u32(&mut head[40..], size);
    head
}
