//! The fields of a format, in order.

ghost use Rattle.std.specs.Prelude.{◌≡◌, ◌≤◌, length};
ghost use Rattle.byteorder.specs.Endian.{little_number};
ghost use Rattle.wav_file.specs.Format.{number_of, width_of, accepts};
ghost use Rattle.wav_file.specs.Held.{next_of, rate_after};

use crate::rates::Rates;
use byteorder::{ByteOrder, LittleEndian};

#[derive(Clone, Copy, Debug)]
pub enum Field {
    Format,
    Channels,
    Rate,
    ByteRate,
    Align,
    Bits,
}

impl Field {
    // The number of the field, counted from 1.
    pub fn number(self) -> u8
        ensures { result ≡ number_of self }
    {
        match self {
            Field::Format => 1,
            Field::Channels => 2,
            Field::Rate => 3,
            Field::ByteRate => 4,
            Field::Align => 5,
            Field::Bits => 6,
        }
    }

    // How many octets the field has.
    pub fn width(self) -> usize
        ensures { result ≡ width_of self }
    {
        match self {
            Field::Rate | Field::ByteRate => 4,
            _ => 2,
        }
    }

    // The field's number in these octets, the lowest first.
    pub fn value(self, octets: &[u8]) -> u32
        requires { width_of self ≤ length octets.now }
        ensures { result ≡ little_number (width_of self) octets.now }
    {
        match self {
            Field::Rate | Field::ByteRate => LittleEndian::read_u32(octets),
            _ => u32::from(LittleEndian::read_u16(octets)),
        }
    }

    // Is this what a reader of these rates reads? The rate in octets is not looked at.
    pub fn accepts(self, rates: Rates, value: u32) -> bool
        ensures { result ≡ accepts rates self value }
    {
        match self {
            Field::Format => value == 1,
            Field::Channels => value == 1,
            Field::Rate => rates.accept(value),
            Field::ByteRate => true,
            Field::Align => value == 2,
            Field::Bits => value == 16,
        }
    }

    // The rate after this field: its value, if it names the rate.
    pub fn rate_after(self, rate: u32, value: u32) -> u32
        ensures { result ≡ rate_after self rate value }
    {
        match self {
            Field::Rate => value,
            _ => rate,
        }
    }

    // The field after this one.
    pub fn next(self) -> Option<Field>
        ensures { result ≡ next_of self }
    {
        match self {
            Field::Format => Some(Field::Channels),
            Field::Channels => Some(Field::Rate),
            Field::Rate => Some(Field::ByteRate),
            Field::ByteRate => Some(Field::Align),
            Field::Align => Some(Field::Bits),
            Field::Bits => None,
        }
    }
}
