//! The parts of a file, and which one is under way after an octet.

ghost use Rattle.std.specs.Prelude.{◌≡◌, ◌<◌, ◌≢◌, ◌≤◌, ℕ, length, take, drop, Some};
ghost use Rattle.byteorder.specs.Endian.{little_number};
ghost use Rattle.wav_file.specs.Chunks.{padded};

use crate::fault::WavFault;
use crate::field::Field;
use crate::rates::Rates;
use crate::sample::sample_of;
use byteorder::{ByteOrder, LittleEndian};

// The first letters of a RIFF file, and the word after its size.
const RIFF: [u8; 4] = *b"RIFF";

const WAVE: [u8; 4] = *b"WAVE";

// A data size from here on stands for data to the end of input.
const ENDLESS_SIZE: u32 = 0x7fff_0000;

// The least size of a format.
const FORMAT_SIZE: u32 = 16;

#[derive(Clone, Copy, Debug)]
pub enum Part {
    // The twelve octets before the first chunk.
    Head,
    // So many octets to be skipped, and then a chunk's head, which its own octets have not ended yet. The rate is that
    // of the format, which was read or not.
    Chunk {
        rate: Option<u32>,
        skip: u64,
    },
    // A field of the format, after fields that told a rate; so many octets of its chunk stand after the last field.
    Format {
        field: Field,
        rate: u32,
        skip: u64,
    },
    // The first data chunk, with the samples' rate, so many octets left, or none for data to the end of input, and the
    // octet that begins a sample.
    Data {
        rate: u32,
        left: Option<u32>,
        low: Option<u8>,
    },
    // A fault has shown.
    Failed {
        fault: WavFault,
    },
}

impl Part {
    ghost use Rattle.wav_file.specs.Held.{after_head, after_chunk_head, after_field, after_data, data_begun};
    ghost use Rattle.wav_file.specs.Held.{pairs_ahead, after_pairs};
    ghost use Rattle.wav_file.specs.Held.{format_begun, answer_of, fault_of_part, rate_of_part, whole_of_part};
    ghost use Rattle.wav_file.specs.Reading.{verdict_on};

    // After an octet of the first twelve.
    pub fn after_head(at: u64, octet: u8) -> Part
        requires { at < 12 }
        ensures { result ≡ after_head at octet }
    {
        let place = at as usize;
        match place {
            0..4 if RIFF[place] != octet => Part::Failed {
                fault: WavFault::NotRiff { at },
            },
            8..12 if WAVE[place - 8] != octet => Part::Failed {
                fault: WavFault::NotWave { at },
            },
            11 => Part::Chunk {
                rate: None,
                skip: 0,
            },
            _ => Part::Head,
        }
    }

    // After a chunk's head, whose last octet is at `at`.
    pub fn after_chunk_head(at: u64, rate: Option<u32>, head: &[u8]) -> Part
        requires { length head.now ≡ 8 }
        ensures { result ≡ after_chunk_head at rate (take 4 head.now) (little_number 4 (drop 4 head.now)) }
    {
        let (name, size) = head.split_at(4);
        let size = LittleEndian::read_u32(size);
        if name == b"data".as_slice() {
            return Part::of_data(at, rate, size);
        }
        if name == b"fmt ".as_slice() && rate.is_none() {
            return Part::of_format(at, size);
        }
        Part::Chunk {
            rate,
            skip: padded(size),
        }
    }

    // After an octet of the data, and the sample that ends with it.
    pub fn after_data(
        rate: u32,
        left: Option<u32>,
        low: Option<u8>,
        octet: u8,
    ) -> (Part, Option<i16>)
        ensures { result ≡ after_data rate left low octet }
    {
        if left == Some(0) {
            return (Part::Data { rate, left, low }, None);
        }
        let left = left.map(|left| left - 1);
        match low {
            None => {
                let low = Some(octet);
                (Part::Data { rate, left, low }, None)
            }
            Some(low) => {
                let sample = sample_of(low, octet);
                (
                    Part::Data {
                        rate,
                        left,
                        low: None,
                    },
                    Some(sample),
                )
            }
        }
    }

    // How many of so many octets are whole samples of the data that come next: none if a sample has begun.
    pub fn pairs_ahead(self, count: usize) -> usize
        ensures { result ≡ pairs_ahead self count }
    {
        match self {
            Part::Data {
                left: None,
                low: None,
                ..
            } => count - count % 2,
            Part::Data {
                left: Some(left),
                low: None,
                ..
            } => {
                let count = count.min(left as usize);
                count - count % 2
            }
            _ => 0,
        }
    }

    // After so many octets that are whole samples of the data.
    pub fn after_pairs(self, count: usize) -> Part
        requires { (most : ℕ) × (count ≡ pairs_ahead self most) }
        ensures { result ≡ after_pairs self count }
    {
        match self {
            Part::Data {
                rate,
                left: Some(left),
                low: None,
            } => Part::Data {
                rate,
                left: Some(left - count as u32),
                low: None,
            },
            part => part,
        }
    }

    // The answer to the octet that led here, with the sample that ended with it.
    pub fn answer(self, sample: Option<i16>) -> Result<Option<i16>, WavFault>
        ensures { result ≡ answer_of (fault_of_part self) sample }
    {
        match self {
            Part::Failed { fault } => Err(fault),
            _ => Ok(sample),
        }
    }

    // The rate of the format that was read.
    pub fn rate(self) -> Option<u32>
        ensures { result ≡ rate_of_part self }
    {
        match self {
            Part::Chunk { rate, .. } => rate,
            Part::Data { rate, .. } => Some(rate),
            _ => None,
        }
    }

    // What a file is worth that ends before the octet at `at`.
    pub fn verdict(self, at: u64) -> Result<(), WavFault>
        ensures { result ≡ verdict_on at (fault_of_part self) (whole_of_part self) }
    {
        match self {
            Part::Failed { fault } => Err(fault),
            Part::Data {
                left: None | Some(0),
                ..
            } => Ok(()),
            _ => Err(WavFault::Truncated { at }),
        }
    }

    fn of_data(at: u64, rate: Option<u32>, size: u32) -> Part
        ensures { result ≡ data_begun at rate size }
    {
        let Some(rate) = rate else {
            return Part::Failed {
                fault: WavFault::NoFormat { at },
            };
        };
        Part::Data {
            rate,
            left: (size < ENDLESS_SIZE).then_some(size),
            low: None,
        }
    }

    fn of_format(at: u64, size: u32) -> Part
        ensures { result ≡ format_begun at size }
    {
        if size < FORMAT_SIZE {
            return Part::Failed {
                fault: WavFault::NoFormat { at },
            };
        }
        Part::Format {
            field: Field::Format,
            rate: 0,
            skip: padded(size) - u64::from(FORMAT_SIZE),
        }
    }

    // After a field of this value, whose last octet is at `at`, for a reader of these rates.
    pub fn after_field(
        rates: Rates,
        at: u64,
        field: Field,
        rate: u32,
        skip: u64,
        value: u32,
    ) -> Part
        ensures { result ≡ after_field rates at field rate skip value }
    {
        if !field.accepts(rates, value) {
            let fault = WavFault::BadFormat {
                at,
                field: field.number(),
                value,
            };
            return Part::Failed { fault };
        }
        let rate = field.rate_after(rate, value);
        match field.next() {
            Some(field) => Part::Format { field, rate, skip },
            None => Part::Chunk {
                rate: Some(rate),
                skip,
            },
        }
    }
}

// How many octets contents of this size have with their padding.
fn padded(size: u32) -> u64
    ensures { result ≡ padded size }
{
    u64::from(size) + u64::from(size % 2)
}
