//! The modem of a channel.
ghost use Rattle.std.specs.Prelude.{◌≡◌, ◌≤◌};
ghost use Rattle.channel_access.specs.Modem.{count_of, tick_bits, samples_of_bits};

/// How the bits of a transmission are sent.
#[derive(Clone, Copy, Debug, PartialEq, Eq)]
pub enum Modem {
    /// Bell 202: 1200 bits a second, on VHF and UHF.
    Bell202,
    /// 300 bits a second and a shift of 200 Hz, on short wave.
    ShortWave,
    /// Bell 202, each frame with so many check octets around it if it fits into a block (FX.25).
    Fx25(CheckOctets),
}

/// How many check octets follow the data of a block of FX.25.
#[derive(Clone, Copy, Debug, PartialEq, Eq)]
pub enum CheckOctets {
    /// 16.
    Sixteen,
    /// 32.
    ThirtyTwo,
    /// 64.
    SixtyFour,
}

impl CheckOctets {
    /// How many they are.
    pub(crate) fn count(self) -> usize
        ensures { result ≡ count_of self }
    {
        match self {
            CheckOctets::Sixteen => 16,
            CheckOctets::ThirtyTwo => 32,
            CheckOctets::SixtyFour => 64,
        }
    }
}

impl Modem {
    /// The bits of a tick.
    pub(crate) fn tick_bits(self) -> u8
        ensures bits { result ≡ tick_bits self }
        ensures most { result ≤ 12 }
    {
        match self {
            Modem::Bell202 | Modem::Fx25(_) => 12,
            Modem::ShortWave => 3,
        }
    }

    /// How many samples so many bits of a tick have.
    pub(crate) fn samples(self, bits: u8) -> u8
        requires { bits ≤ tick_bits self }
        ensures samples { result ≡ samples_of_bits self bits }
        ensures most { result ≤ 96 }
    {
        match self {
            Modem::Bell202 | Modem::Fx25(_) => 8 * bits,
            Modem::ShortWave => 32 * bits,
        }
    }
}
