//! The wave of a transmission, by the modem that sends it.
ghost use Rattle.std.specs.Prelude.{◌≡◌, ◌+◌, ◌≤◌, ◌++◌, length, take};
ghost use Rattle.channel_access.specs.Modem.{samples_of_bits};
ghost use Rattle.channel_access.specs.HeldWave.{modem_of, wave_start, wave_window, after_tone};

use crate::air_tick::SAMPLES;
use crate::modem::{CheckOctets, Modem};
use afsk_modulator::Modulator;
use hf_sender::HfModulator;
use tone_table::Tone;

/// The amplitude of a transmission.
const FULL_LEVEL: u16 = 10000;

/// Where the wave of a transmission stands.
#[derive(Debug, Drop)]
pub(crate) enum Wave {
    Bell202(Modulator),
    ShortWave(HfModulator),
    Fx25(CheckOctets, Modulator),
}

impl Wave {
    /// No tone was sent.
    pub(crate) fn new(modem: Modem) -> Wave
        ensures { result ≡ wave_start modem }
    {
        match modem {
            Modem::Bell202 => Wave::Bell202(Modulator::new()),
            Modem::ShortWave => Wave::ShortWave(HfModulator::new(FULL_LEVEL)),
            Modem::Fx25(checks) => Wave::Fx25(checks, Modulator::new()),
        }
    }

    /// The modem that sends it.
    pub(crate) fn modem(&self) -> Modem
        ensures { result ≡ modem_of self.now }
    {
        match self {
            Wave::Bell202(_) => Modem::Bell202,
            Wave::ShortWave(_) => Modem::ShortWave,
            Wave::Fx25(checks, _) => Modem::Fx25(*checks),
        }
    }

    /// Puts the samples of the next tone after so many of a tick.
    pub(crate) fn put(&mut self, tone: Tone, samples: &mut [i16; SAMPLES], start: usize)
        requires { start + samples_of_bits (modem_of self.old) 1 ≤ 96 }
        ensures samples { take (start + samples_of_bits (modem_of self.old) 1) samples.new
            ≡ take start samples.old ++ wave_window self.old tone }
        ensures wave { self.new ≡ after_tone self.old tone }
    {
        match self {
            Wave::Bell202(modulator) => put(samples, start, modulator.next(tone).as_slice()),
            Wave::ShortWave(modulator) => put(samples, start, modulator.next(tone).as_slice()),
            Wave::Fx25(_, modulator) => put(samples, start, modulator.next(tone).as_slice()),
        }
    }
}

/// Puts samples after so many of a tick.
fn put(samples: &mut [i16; SAMPLES], start: usize, window: &[i16])
    requires { start + length window.now ≤ 96 }
    ensures { take (start + length window.now) samples.new ≡ take start samples.old ++ window.now }
{
    samples[start..start + window.len()].copy_from_slice(window);
}
