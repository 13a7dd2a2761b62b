//! A WAV file as its octets come.

ghost use Rattle.std.specs.Prelude.{◌≡◌, ◌+◌, ◌≤◌, ℕ, List, [], ◌∷◌, ◌++◌, length, take, Some, Err};
ghost use Rattle.std.specs.Result.{result_err};

use crate::fault::WavFault;
use crate::field::Field;
use crate::part::Part;
use crate::rates::Rates;
use arrayvec::ArrayVec;
use std::marker::Model;

// The most octets that are looked at together: those of a chunk's head.
const UNIT: usize = 8;

/// Reads a WAV file octet by octet, or its data by many samples at once, and takes no memory.
#[derive(Drop)]
pub struct WavIn {
    rates: Rates,
    position: u64,
    part: Part,
    unit: ArrayVec<u8, UNIT>,
}

impl Model for WavIn {
    ghost use Rattle.wav_file.specs.Held.{Held, Fits};

    ghost Value = { Held };

    ghost view = { λ w. record { rates = w.rates; position = w.position; part = w.part; unit = w.unit.items } };

    ghost invariant = { λ w. Fits w.position w.part w.unit.items };
}

impl WavIn {
    ghost use Rattle.wav_file.specs.declared.fault.WavFault.{WavFault};
    ghost use Rattle.wav_file.specs.declared.rates.Rates.{Rates};
    ghost use Rattle.wav_file.specs.Held.{StandsFor, Fits, step_of, to_part, made, pairs_ahead};
    ghost use Rattle.wav_file.specs.Reading.{samples_in, fault_in, given, rate_in, verdict_of};
    ghost use Rattle.wav_file.specs.Place.{told_place};
    ghost use Rattle.wav_file.specs.Samples.{samples};

    /// A reader of files at 9600 samples a second, to which no octet has come.
    pub fn new() -> Self
        ensures stands_for { StandsFor Rates.Narrow result [] }
    {
        WavIn::of_rates(Rates::Narrow)
    }

    /// A reader of files at 9600 or 48,000 samples a second, to which no octet has come. `rate` tells which it is.
    pub fn any_rate() -> Self
        ensures stands_for { StandsFor Rates.NarrowOrWide result [] }
    {
        WavIn::of_rates(Rates::NarrowOrWide)
    }

    fn of_rates(rates: Rates) -> Self
        ensures stands_for { StandsFor rates result [] }
    {
        WavIn {
            rates,
            position: 0,
            part: Part::Head,
            unit: ArrayVec::new(),
        }
    }

    /// Takes the next octet, and gives the sample that ends with it. A fault comes exactly at the octet at which it
    /// shows, and from then on at each later one.
    pub fn push(&mut self, octet: u8) -> Result<Option<i16>, WavFault>
        ensures stands_for { (rates : Rates) (octets : List ℕ) → StandsFor rates self.old octets
            → StandsFor rates self.new (octets ++ octet ∷ []) }
        ensures sample { (rates : Rates) (octets : List ℕ) → StandsFor rates self.old octets
            → samples_in rates (octets ++ octet ∷ []) ≡ samples_in rates octets ++ given result }
        ensures fault { (rates : Rates) (octets : List ℕ) → StandsFor rates self.old octets
            → fault_in rates (octets ++ octet ∷ []) ≡ result_err result }
        ensures again { (rates : Rates) (octets : List ℕ) (fault : WavFault) → StandsFor rates self.old octets
            → fault_in rates octets ≡ Some fault → result ≡ Err fault }
    {
        let sample = self.take(octet);
        self.part.answer(sample)
    }

    /// Takes the octets at the front that are whole samples of the data, and gives how many they are. Their samples are
    /// those of the octets by twos, which the caller reads. All that are there are taken, but none before the data, in
    /// the middle of a sample, or of a single octet, so `push` must take what follows.
    pub fn take_pairs(&mut self, octets: &[u8]) -> usize
        ensures most { result ≡ pairs_ahead self.old.part (length octets.now) }
        ensures count { result ≤ length octets.now }
        ensures stands_for { (rates : Rates) (before : List ℕ) → StandsFor rates self.old before
            → StandsFor rates self.new (before ++ take result octets.now) }
        ensures samples { (rates : Rates) (before : List ℕ) → StandsFor rates self.old before
            → samples_in rates (before ++ take result octets.now)
            ≡ samples_in rates before ++ samples (take result octets.now) }
        ensures fault { (rates : Rates) (before : List ℕ) → StandsFor rates self.old before
            → fault_in rates (before ++ take result octets.now) ≡ fault_in rates before }
    {
        let count = self.part.pairs_ahead(octets.len());
        self.part = self.part.after_pairs(count);
        self.position = self.position.saturating_add(count as u64);
        count
    }

    /// Whether a file that ends here is whole: the fault that showed, or `Truncated` exactly when the file ends before
    /// its data does.
    pub fn finish(&self) -> Result<(), WavFault>
        ensures { (rates : Rates) (octets : List ℕ) → StandsFor rates self.now octets → result
            ≡ verdict_of rates octets }
    {
        self.part.verdict(self.position)
    }

    /// How many samples a second the file has: 9600, or 48,000 if the reader takes that. `None` exactly until the
    /// sixteen octets of the format were read.
    pub fn rate(&self) -> Option<u32>
        ensures { (rates : Rates) (octets : List ℕ) → StandsFor rates self.now octets → result ≡ rate_in rates octets }
    {
        self.part.rate()
    }

    // Makes the step of an octet, and gives the sample that ends with it.
    fn take(&mut self, octet: u8) -> Option<i16>
        ensures fitted { Fits self.old.position self.old.part self.old.unit }
        ensures fits { Fits self.new.position self.new.part self.new.unit }
        ensures rates { self.new.rates ≡ self.old.rates }
        ensures place { self.new.position ≡ told_place (self.old.position + 1) }
        ensures step { made self.new result
            ≡ step_of self.old.rates self.old.position self.old.part self.old.unit octet }
    {
        let at = self.position;
        let sample = match self.part {
            Part::Head => {
                self.part = Part::after_head(at, octet);
                None
            }
            Part::Chunk { rate, skip } => {
                self.take_of_chunk(rate, skip, octet);
                None
            }
            Part::Format { field, rate, skip } => {
                self.take_of_format(field, rate, skip, octet);
                None
            }
            Part::Data { rate, left, low } => {
                let (part, sample) = Part::after_data(rate, left, low, octet);
                self.part = part;
                sample
            }
            Part::Failed { .. } => None,
        };
        self.position = at.saturating_add(1);
        sample
    }

    fn take_of_chunk(&mut self, rate: Option<u32>, skip: u64, octet: u8)
        requires { self.old.part ≡ Part.Chunk rate skip }
        ensures rates { self.new.rates ≡ self.old.rates }
        ensures place { self.new.position ≡ self.old.position }
        ensures step { to_part self.new.part self.new.unit
            ≡ step_of self.old.rates self.old.position self.old.part self.old.unit octet }
    {
        if skip > 0 {
            self.part = Part::Chunk {
                rate,
                skip: skip - 1,
            };
            return;
        }
        self.unit.push(octet);
        if self.unit.is_full() {
            self.part = Part::after_chunk_head(self.position, rate, self.unit.as_slice());
            self.unit.clear();
        }
    }

    fn take_of_format(&mut self, field: Field, rate: u32, skip: u64, octet: u8)
        requires { self.old.part ≡ Part.Format field rate skip }
        ensures rates { self.new.rates ≡ self.old.rates }
        ensures place { self.new.position ≡ self.old.position }
        ensures step { to_part self.new.part self.new.unit
            ≡ step_of self.old.rates self.old.position self.old.part self.old.unit octet }
    {
        self.unit.push(octet);
        if self.unit.len() == field.width() {
            let value = field.value(self.unit.as_slice());
            self.part = Part::after_field(self.rates, self.position, field, rate, skip, value);
            self.unit.clear();
        }
    }
}
