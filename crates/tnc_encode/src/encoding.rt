//! The word encode: from frames to audio.
ghost use Rattle.std.specs.Prelude.{◌≡◌, ◌≢◌, ◌≤◌, ◌++◌, ◌⊎◌, List, ℕ, Some, None, Err, true, false, length, OnOk, IsErrOf};
ghost use Rattle.tnc_base.specs.Faults.{HasRisen};
ghost use Rattle.afsk_modulator.specs.Modulation.{IsLevel};
ghost use Rattle.tnc_engine.specs.Ended.{IsEnded};
ghost use Rattle.tnc_forms.specs.declared.fault.InputFault.{InputFault};
ghost use Rattle.tnc_forms.specs.Pcm.{pcm};
ghost use Rattle.tnc_forms.specs.Reading.{input_limit, piece_limit};
ghost use Rattle.tnc_encode.specs.Encoded.{encoded, encoded_before, fault_of_whole, keeps_frames, length_fault};
ghost use Rattle.tnc_encode.specs.Encoded.{samples_at_once, signal_of, written_as, written_before};
ghost use Rattle.tnc_encode.specs.Making.{encode_making};
ghost use Rattle.tnc_encode.specs.Writing.{CanBeSent, CanSend, CountsFaults, CountsWrites, EncodesWhole};
ghost use Rattle.tnc_encode.specs.Writing.{FailsInWriting, Writes};

use crate::counting::{count_samples, head};
use crate::frames::read_frames;
use crate::sender::Sender;
use crate::sending::samples_at_once;
use std::alloc::Global;
use std::slice;
use tnc_base::{Octets, Sink, Source};
use tnc_engine::make;
use tnc_forms::{Fault, InputFault, PIECE, read_all, write_pcm};
use tnc_words::{AudioForm, EncodeWords};

/// Sends the frames of the input. Each frame is sent as it comes, in bounded memory, but for one transmission of all
/// frames and for a WAV file: then the input is read to its end first. If a line is bad, the frames before it are sent
/// as raw PCM, or no WAV file is written.
pub fn encode<I: Source, O: Sink>(
    alloc: Global,
    words: EncodeWords,
    input: &mut I,
    output: &mut O,
) -> Result<(), Fault>
    requires opening { 2 ≤ words.opening }
    requires closing { 1 ≤ words.closing }
    requires level { IsLevel words.level }

    ensures ended { (octets : List ℕ) → keeps_frames words.audio words.join ≡ false
        → (I.told input.old).left ≡ Some octets
        → IsEnded (encode_making words) piece_limit octets
        (I.told input.new).left (O.told output.old).written (O.told output.new).written result }
    ensures whole { (octets : List ℕ) → keeps_frames words.audio words.join ≡ true
        → (I.told input.old).left ≡ Some octets
        → EncodesWhole words octets (I.told input.new).left (O.told output.old).written (O.told output.new).written
        result }
    ensures unwritten { keeps_frames words.audio words.join ≡ true
        → (result ≡ Err (Fault.Input InputFault.TooLong)) ⊎ (result ≡ Err Fault.Read) → output.new ≡ output.old }
    ensures faultless { OnOk result (((I.told input.new).faults ≡ (I.told input.old).faults)
        × ((O.told output.new).faults ≡ (O.told output.old).faults)) }
    ensures read { IsErrOf result Fault.Read → HasRisen (I.told input.old).faults (I.told input.new).faults }
    ensures write { IsErrOf result Fault.Write → HasRisen (O.told output.old).faults (O.told output.new).faults }
{
    if keeps_frames(words) {
        return encode_whole(alloc, words, input, output);
    }
    let mut sender = Sender::new(alloc, words);
    let mut buffer = [0; PIECE];
    make(alloc, &mut sender, &mut buffer, input, output)
}

/// True if frames are kept until the input has ended.
fn keeps_frames(words: EncodeWords) -> bool
    ensures { result ≡ keeps_frames words.audio words.join }
{
    match words.audio {
        AudioForm::Raw => words.join,
        AudioForm::Wav => true,
    }
}

/// Reads the input to its end, and then writes the signal of its frames.
#[tactic(auto, unfolding(crate::specs::Encoded::fault_of_whole))]
fn encode_whole<I: Source, O: Sink>(
    alloc: Global,
    words: EncodeWords,
    input: &mut I,
    output: &mut O,
) -> Result<(), Fault>
    requires { CanSend words }
    ensures whole { (octets : List ℕ) → (I.told input.old).left ≡ Some octets
        → EncodesWhole words octets (I.told input.new).left (O.told output.old).written (O.told output.new).written
        result }
    ensures counts { CountsFaults (I.told input.old) (I.told input.new) (O.told output.old) (O.told output.new) result }
    ensures unwritten { (result ≡ Err (Fault.Input InputFault.TooLong)) ⊎ (result ≡ Err Fault.Read) → output.new
        ≡ output.old }
{
    let octets = read_all(alloc, input)?;
    encode_octets(alloc, words, &octets, output)
}

/// Writes the signal of the frames of an input.
fn encode_octets<O: Sink>(
    alloc: Global,
    words: EncodeWords,
    octets: &[u8],
    output: &mut O,
) -> Result<(), Fault>
    requires words { CanSend words }
    requires limit { length octets.now ≤ input_limit }
    ensures good { OnOk result (fault_of_whole words octets.now ≡ None) }
    ensures writes { Writes (encoded words octets.now) (O.told output.old).written (O.told output.new).written result }
    ensures bad { (fault : InputFault) → IsErrOf result (Fault.Input fault)
        → (fault_of_whole words octets.now ≡ Some fault) × (fault ≢ InputFault.TooLong) }
    ensures encoded_before { (before : List ℕ) → (fault : InputFault) → (O.told output.old).written ≡ Some before
        → IsErrOf result (Fault.Input fault)
        → (O.told output.new).written ≡ Some (before ++ encoded_before words octets.now) }
    ensures read { ¬ IsErrOf result Fault.Read }
    ensures counts { CountsWrites (O.told output.old) (O.told output.new) result }
{
    let read = read_frames(alloc, words.frames, octets)?;
    match read.fault {
        None => send_as_told(alloc, words, &read.frames, output),
        Some(fault) => {
            send_before_fault(alloc, words, &read.frames, output)?;
            Err(Fault::Input(fault))
        }
    }
}

/// Writes the signal of all frames of a good input.
fn send_as_told<O: Sink>(
    alloc: Global,
    words: EncodeWords,
    frames: &[Octets],
    output: &mut O,
) -> Result<(), Fault>
    requires words { CanSend words }
    requires frames { CanBeSent frames.now }
    ensures writes { Writes (written_as words.audio (signal_of words frames.now))
        (O.told output.old).written (O.told output.new).written result }
    ensures fits { OnOk result (length_fault words.audio (length (signal_of words frames.now)) ≡ None) }
    ensures long { (fault : InputFault) → IsErrOf result (Fault.Input fault)
        → (length_fault words.audio (length (signal_of words frames.now)) ≡ Some fault)
        × (fault ≢ InputFault.TooLong) × (words.audio ≡ AudioForm.Wav) × (output.new ≡ output.old) }
    ensures read { ¬ IsErrOf result Fault.Read }
    ensures counts { CountsWrites (O.told output.old) (O.told output.new) result }
{
    match words.audio {
        AudioForm::Raw => send_all(alloc, words, frames, output),
        AudioForm::Wav => send_wav(alloc, words, frames, output),
    }
}

/// Writes the signal of the frames before a bad line: a WAV file is not begun.
fn send_before_fault<O: Sink>(
    alloc: Global,
    words: EncodeWords,
    frames: &[Octets],
    output: &mut O,
) -> Result<(), Fault>
    requires words { CanSend words }
    requires frames { CanBeSent frames.now }
    ensures writes { Writes (written_before words.audio (signal_of words frames.now))
        (O.told output.old).written (O.told output.new).written result }
    ensures counts { CountsWrites (O.told output.old) (O.told output.new) result }
    ensures faults { FailsInWriting result }
{
    match words.audio {
        AudioForm::Raw => send_all(alloc, words, frames, output),
        AudioForm::Wav => Ok(()),
    }
}

/// Writes a WAV file of the signal of frames.
fn send_wav<O: Sink>(
    alloc: Global,
    words: EncodeWords,
    frames: &[Octets],
    output: &mut O,
) -> Result<(), Fault>
    requires words { CanSend words }
    requires frames { CanBeSent frames.now }
    ensures writes { Writes (written_as AudioForm.Wav (signal_of words frames.now))
        (O.told output.old).written (O.told output.new).written result }
    ensures fits { OnOk result (length_fault AudioForm.Wav (length (signal_of words frames.now)) ≡ None) }
    ensures long { (fault : InputFault) → IsErrOf result (Fault.Input fault)
        → (length_fault AudioForm.Wav (length (signal_of words frames.now)) ≡ Some fault)
        × (fault ≢ InputFault.TooLong) × (output.new ≡ output.old) }
    ensures counts { CountsWrites (O.told output.old) (O.told output.new) result }
    ensures read { ¬ IsErrOf result Fault.Read }
{
    let count = count_samples(alloc, words, frames)?;
    let head = match head(count) {
        Ok(head) => head,
        Err(fault) => return Err(Fault::Input(fault)),
    };
    match output.write(&head) {
        Ok(()) => send_all(alloc, words, frames, output),
        Err(_) => Err(Fault::Write),
    }
}

/// Writes the signal of frames, a transmission at a time.
fn send_all<O: Sink>(
    alloc: Global,
    words: EncodeWords,
    frames: &[Octets],
    output: &mut O,
) -> Result<(), Fault>
    requires words { CanSend words }
    requires frames { CanBeSent frames.now }
    ensures writes { Writes (pcm (signal_of words frames.now)) (O.told output.old).written
        (O.told output.new).written result }
    ensures counts { CountsWrites (O.told output.old) (O.told output.new) result }
    ensures faults { FailsInWriting result }
{
    if words.join {
        return if frames.is_empty() {
            Ok(())
        } else {
            send(alloc, words, frames, output)
        };
    }
    for frame in frames {
        send(alloc, words, slice::from_ref(frame), output)?;
    }
    Ok(())
}

/// Writes the frames of one transmission.
fn send<O: Sink>(
    alloc: Global,
    words: EncodeWords,
    frames: &[Octets],
    output: &mut O,
) -> Result<(), Fault>
    requires words { CanSend words }
    requires frames { CanBeSent frames.now }
    ensures writes { Writes (pcm (samples_at_once words frames.now))
        (O.told output.old).written (O.told output.new).written result }
    ensures unwritten { IsErrOf result Fault.Memory → output.new ≡ output.old }
    ensures later { (O.told output.old).faults ≤ (O.told output.new).faults }
    ensures counts { CountsWrites (O.told output.old) (O.told output.new) result }
    ensures faults { FailsInWriting result }
{
    let samples = samples_at_once(alloc, words, frames)?;
    let octets = write_pcm(alloc, &samples)?;
    match output.write(&octets) {
        Ok(()) => Ok(()),
        Err(_) => Err(Fault::Write),
    }
}
