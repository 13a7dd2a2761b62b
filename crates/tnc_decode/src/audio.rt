//! Audio in its two forms, as its octets come.
ghost use Rattle.std.specs.Prelude.{◌≡◌, ◌≤◌, ◌+◌, ◌++◌, List, ℕ, ℤ, [], ◌∷◌, Some, IfOk, OnOk, IsErrOf, length, take};
ghost use Rattle.std.specs.Prelude.{◌<◌, slice_index_or};
ghost use Rattle.wav_file.specs.Samples.{sample_of, samples as samples_in_pairs};
ghost use Rattle.tnc_forms.specs.declared.fault.InputFault.{InputFault};
ghost use Rattle.tnc_words.specs.declared.command.AudioForm.{AudioForm};
ghost use Rattle.wav_file.specs.declared.rates.Rates.{Rates};
ghost use Rattle.wav_file.specs.declared.rates.Rates.TheVariants.{NarrowOrWide};
ghost use Rattle.wav_file.specs.Held.{StandsFor};
ghost use Rattle.tnc_words.specs.declared.command.DecodeWords.{DecodeWords};
ghost use Rattle.tnc_decode.specs.Audio.{fault_in_verdict, form_fault_at, rates_of, samples_at, stopping_fault_at};
ghost use Rattle.tnc_decode.specs.Modem.{modem_of, rate_for};
ghost use Rattle.tnc_decode.specs.declared.audio.Audio.{Audio};
ghost use Rattle.tnc_decode.specs.Held.{HasTaken, HasTakenAt, odd_octet};

use crate::modem::Modem;
use tnc_base::OutOfMemory;
use tnc_forms::{Fault, InputFault};
use tnc_words::{AudioForm, DecodeWords, Receiving, SampleRate};
use wav_file::{WavIn, sample_of};

/// The samples a second of a file whose rate is the wide one.
const WIDE_RATE: u32 = 48_000;

/// Audio up to some octet.
#[derive(Drop)]
pub(crate) enum Audio {
    /// Raw PCM, with the octet that waits for its other half.
    Pcm(Option<u8>),
    /// A WAV file.
    File(WavIn),
}

impl Audio {
    /// The audio of words, of which no octet has come.
    pub(crate) fn new(words: DecodeWords) -> Audio
        ensures { HasTaken words result [] }
    {
        match words.audio {
            AudioForm::Raw => Audio::Pcm(None),
            AudioForm::Wav => Audio::File(new_file(words.receiving)),
        }
    }

    /// The modem that hears it. A WAV file tells it with its format, before any sample.
    pub(crate) fn modem(&self, receiving: Receiving) -> Modem
        ensures { (words : DecodeWords) (octets : List ℕ) → receiving ≡ words.receiving → HasTaken words self.now octets
            → result ≡ modem_of words octets }
    {
        match receiving {
            Receiving::Standard { rate } => Modem::plain_at(self.rate(rate)),
            Receiving::Sensitive { rate } => Modem::sensitive_at(self.rate(rate)),
            Receiving::ShortWave => Modem::ShortWave,
            Receiving::SensitiveShortWave => Modem::SensitiveShortWave,
            Receiving::Fx25 => Modem::Fx25,
            Receiving::SensitiveFx25 => Modem::SensitiveFx25,
        }
    }

    /// The rate of its samples: that which words name, or the one that a WAV file told.
    fn rate(&self, named: SampleRate) -> SampleRate
        ensures { (form : AudioForm) (octets : List ℕ) → HasTakenAt NarrowOrWide form self.now octets
            → result ≡ rate_for named form octets }
    {
        match self {
            Audio::Pcm(_) => named,
            Audio::File(file) => match file.rate() {
                Some(WIDE_RATE) => SampleRate::Wide,
                _ => SampleRate::Narrow,
            },
        }
    }

    /// Takes the next octets, and puts the samples that end in them in place of those in `samples`.
    pub(crate) fn take(&mut self, octets: &[u8], samples: &mut Vec<i16>) -> Result<(), Fault>
        ensures takes { OnOk result ((rates : Rates) (form : AudioForm) (before : List ℕ)
            → HasTakenAt rates form self.old before
            → HasTakenAt rates form self.new (before ++ octets.now)
            × (samples_at rates form (before ++ octets.now) ≡ samples_at rates form before ++ samples.new.items)) }
        ensures count { OnOk result (length samples.new.items ≤ length octets.now) }
        ensures stops { (fault : InputFault) (rates : Rates) (form : AudioForm) (before : List ℕ)
            → IsErrOf result (Fault.Input fault)
            → HasTakenAt rates form self.old before → stopping_fault_at rates form (before ++ octets.now) ≡ Some fault }
        ensures read { ¬ IsErrOf result Fault.Read }
        ensures write { ¬ IsErrOf result Fault.Write }
    {
        samples.clear();
        match self {
            Audio::Pcm(low) => {
                take_pcm(low, octets, samples)?;
                Ok(())
            }
            Audio::File(file) => take_file(file, octets, samples),
        }
    }

    /// What is wrong with an input that ends here. Of raw PCM nothing is.
    pub(crate) fn verdict(&self) -> Option<InputFault>
        ensures { (rates : Rates) (form : AudioForm) (octets : List ℕ) → HasTakenAt rates form self.now octets → result
            ≡ form_fault_at rates form octets }
    {
        match self {
            Audio::Pcm(_) => None,
            Audio::File(file) => match file.finish() {
                Ok(()) => None,
                Err(fault) => Some(InputFault::Wav(fault)),
            },
        }
    }
}

/// A WAV file of which no octet has come, at the rates that are heard.
fn new_file(receiving: Receiving) -> WavIn
    ensures { StandsFor (rates_of receiving) result [] }
{
    match receiving {
        Receiving::Standard { .. } | Receiving::Sensitive { .. } => WavIn::any_rate(),
        Receiving::ShortWave
        | Receiving::SensitiveShortWave
        | Receiving::Fx25
        | Receiving::SensitiveFx25 => WavIn::new(),
    }
}

/// Takes the next octets of raw PCM. Its first sample can begin with the octet that waits.
fn take_pcm(low: &mut Option<u8>, octets: &[u8], samples: &mut Vec<i16>) -> Result<(), OutOfMemory>
    requires { samples.old.items ≡ [] }
    ensures takes { OnOk result ((before : List ℕ) → low.old ≡ odd_octet before
        → (low.new ≡ odd_octet (before ++ octets.now)) × (samples_in_pairs (before ++ octets.now)
        ≡ samples_in_pairs before ++ samples.new.items)) }
    ensures count { OnOk result (length samples.new.items ≤ length octets.now) }
{
    *low = match (*low, octets) {
        (None, octets) => take_pairs(octets, samples)?,
        (Some(first), []) => Some(first),
        (Some(first), [second, rest @ ..]) => {
            append(samples, sample_of(first, *second))?;
            take_pairs(rest, samples)?
        }
    };
    Ok(())
}

/// Appends the samples of octets by twos, and gives an odd octet after them.
fn take_pairs(octets: &[u8], samples: &mut Vec<i16>) -> Result<Option<u8>, OutOfMemory>
    ensures odd { IfOk result (λ odd. odd ≡ odd_octet octets.now) }
    ensures samples { OnOk result (samples.new.items ≡ samples.old.items ++ samples_in_pairs octets.now) }
    ensures count { OnOk result (length samples.new.items ≤ length samples.old.items + length octets.now) }
{
    let mut rest = octets;
    while let [low, high, after @ ..] = rest {
        if let Some((front, later)) = rest.split_first_chunk::<16>() {
            append_eight(samples, front)?;
            rest = later;
        } else {
            append(samples, sample_of(*low, *high))?;
            rest = after;
        }
    }
    Ok(rest.first().copied())
}

/// Takes the next octets of a WAV file: whole samples of the data many at once, and other octets one by one.
fn take_file(file: &mut WavIn, octets: &[u8], samples: &mut Vec<i16>) -> Result<(), Fault>
    requires { samples.old.items ≡ [] }
    ensures takes { OnOk result ((rates : Rates) (form : AudioForm) (before : List ℕ)
        → HasTakenAt rates form (Audio.File file.old) before
        → HasTakenAt rates form (Audio.File file.new) (before ++ octets.now)
        × (samples_at rates form (before ++ octets.now) ≡ samples_at rates form before ++ samples.new.items)) }
    ensures count { OnOk result (length samples.new.items ≤ length octets.now) }
    ensures stops { (fault : InputFault) (rates : Rates) (form : AudioForm) (before : List ℕ)
        → IsErrOf result (Fault.Input fault)
        → HasTakenAt rates form (Audio.File file.old) before → stopping_fault_at rates form (before ++ octets.now)
        ≡ Some fault }
    ensures read { ¬ IsErrOf result Fault.Read }
    ensures write { ¬ IsErrOf result Fault.Write }
{
    let mut count = take_data(file, octets, samples)?;
    'taking: while count < octets.len() {
        take_one(file, octets[count], samples)?;
        count += 1;
        count += take_data(file, &octets[count..], samples)?;
    }
    Ok(())
}

/// Takes the octets at the front that are whole samples of the data, appends their samples, and gives how many octets
/// they are.
fn take_data(file: &mut WavIn, octets: &[u8], samples: &mut Vec<i16>) -> Result<usize, OutOfMemory>
    ensures count { IfOk result (λ count. count ≤ length octets.now) }
    ensures takes { IfOk result (λ count. (rates : Rates) (form : AudioForm) (before : List ℕ)
        → HasTakenAt rates form (Audio.File file.old) before
        → HasTakenAt rates form (Audio.File file.new) (before ++ take count octets.now)) }
    ensures samples { IfOk result (λ count. (rates : Rates) (form : AudioForm) (before : List ℕ) (front : List ℤ)
        → HasTakenAt rates form (Audio.File file.old) before
        → samples_at rates form before ≡ front ++ samples.old.items
        → samples_at rates form (before ++ take count octets.now) ≡ front ++ samples.new.items) }
    ensures few { IfOk result (λ count. length samples.new.items ≤ length samples.old.items + count) }
{
    let count = file.take_pairs(octets);
    take_pairs(&octets[..count], samples)?;
    Ok(count)
}

/// Takes the next octet of a WAV file, and appends the sample that ends with it.
fn take_one(file: &mut WavIn, octet: u8, samples: &mut Vec<i16>) -> Result<(), Fault>
    ensures takes { OnOk result ((rates : Rates) (form : AudioForm) (before : List ℕ)
        → HasTakenAt rates form (Audio.File file.old) before
        → HasTakenAt rates form (Audio.File file.new) (before ++ octet ∷ [])) }
    ensures samples { OnOk result ((rates : Rates) (form : AudioForm) (before : List ℕ) (front : List ℤ)
        → HasTakenAt rates form (Audio.File file.old) before
        → samples_at rates form before ≡ front ++ samples.old.items
        → samples_at rates form (before ++ octet ∷ []) ≡ front ++ samples.new.items) }
    ensures count { OnOk result (length samples.new.items ≤ length samples.old.items + 1) }
    ensures stops { (fault : InputFault) (rates : Rates) (form : AudioForm) (before : List ℕ)
        → IsErrOf result (Fault.Input fault)
        → HasTakenAt rates form (Audio.File file.old) before → stopping_fault_at rates form (before ++ octet ∷ [])
        ≡ Some fault }
    ensures read { ¬ IsErrOf result Fault.Read }
    ensures write { ¬ IsErrOf result Fault.Write }
{
    match file.push(octet) {
        Ok(None) => Ok(()),
        Ok(Some(sample)) => {
            append(samples, sample)?;
            Ok(())
        }
        Err(fault) => Err(Fault::Input(InputFault::Wav(fault))),
    }
}

/// Appends the samples of sixteen octets, which is several times as quick as to append each.
fn append_eight(samples: &mut Vec<i16>, octets: &[u8; 16]) -> Result<(), OutOfMemory>
    ensures appended { OnOk result (samples.new.items ≡ samples.old.items ++ samples_in_pairs octets.now) }
    ensures count { OnOk result (length samples.new.items ≡ length samples.old.items + 8) }
{
    let eight = [
        sample_at(octets, 0),
        sample_at(octets, 2),
        sample_at(octets, 4),
        sample_at(octets, 6),
        sample_at(octets, 8),
        sample_at(octets, 10),
        sample_at(octets, 12),
        sample_at(octets, 14),
    ];
    samples.extend_from_slice(&eight)?;
    Ok(())
}

/// The sample that begins at a place.
fn sample_at(octets: &[u8; 16], place: usize) -> i16
    requires { place < 15 }
    ensures { result ≡ sample_of (slice_index_or octets.now place 0) (slice_index_or octets.now (place + 1) 0) }
{
    sample_of(octets[place], octets[place + 1])
}

/// Appends a sample.
fn append(samples: &mut Vec<i16>, sample: i16) -> Result<(), OutOfMemory>
    ensures appended { OnOk result (samples.new.items ≡ samples.old.items ++ sample ∷ []) }
    ensures count { OnOk result (length samples.new.items ≡ length samples.old.items + 1) }
{
    samples.push(sample)?;
    Ok(())
}
