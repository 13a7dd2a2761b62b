//! A law between two commands. A law is the contract of a function that does nothing.

ghost use Rattle.std.specs.Prelude.{◌≡◌, ◌<◌, ◌≤◌, ℕ, List, None, length};
ghost use Rattle.std.specs.List.{All};
ghost use Rattle.afsk_modulator.specs.Modulation.{IsLevel};
ghost use Rattle.tnc_words.specs.declared.command.DecodeWords.{DecodeWords};
ghost use Rattle.tnc_words.specs.declared.command.EncodeWords.{EncodeWords};
ghost use Rattle.tnc_forms.specs.Reading.{input_limit};
ghost use Rattle.tnc_decode.specs.Audio.{audio_fault};
ghost use Rattle.tnc_decode.specs.Decoded.{IsDecoded};
ghost use Rattle.tnc_decode.specs.Printing.{print};
ghost use Rattle.tnc_encode.specs.Encoded.{encode_fault, encoded, signal_of, transmissions};
ghost use Rattle.tnc_encode.specs.Frames.{frames_of_input};
ghost use Rattle.tnc_main.specs.RoundTrip.{receiving_of, IsWithoutStray};

/// What `encode` writes is heard by `decode`. Of an input without a fault, `decode` in the same form of audio takes
/// what was written, and if it hears what the modem sends and no candidate of the signal is stray it prints exactly the
/// frames of the input, in order: by Bell 202 or on short wave, as raw PCM or a WAV file, of lines or KISS, in one
/// transmission or in one for each frame. Of frames with check octets `heard` says nothing.
pub fn decode_of_encode()
    ensures heard { (encode : EncodeWords) → (decode : DecodeWords) → (octets text : List ℕ)
        → All (λ octet. octet < 256) octets → 2 ≤ encode.opening → 1 ≤ encode.closing → IsLevel encode.level
        → encode_fault encode octets ≡ None → decode.audio ≡ encode.audio
        → decode.receiving ≡ receiving_of encode.modem
        → IsWithoutStray encode.modem (transmissions encode (frames_of_input encode.frames octets))
        (signal_of encode (frames_of_input encode.frames octets))
        → IsDecoded decode (encoded encode octets) text
        → text ≡ print decode.frames (frames_of_input encode.frames octets) }
    ensures taken { (encode : EncodeWords) → (decode : DecodeWords) → (octets : List ℕ)
        → encode_fault encode octets ≡ None → decode.audio ≡ encode.audio
        → length (encoded encode octets) ≤ input_limit
        → audio_fault decode (encoded encode octets) ≡ None }
{}
