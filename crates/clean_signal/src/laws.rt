//! Laws on clean signals. A law is the contract of a function that does nothing.

ghost use Rattle.std.specs.Prelude.{◌≡◌, ◌<◌, ◌≤◌, ◌+◌, ◌*◌, ℕ, ℤ, pos, List, length, slice_index_or, true};
ghost use Rattle.std.specs.List.{All};
ghost use Rattle.tone_table.specs.declared.tone.Tone.{Tone};
ghost use Rattle.tone_table.specs.Sine.{wave_sample};
ghost use Rattle.tone_table.specs.Wave.{wave_from, wave};
ghost use Rattle.nrzi_bits.specs.Line.{line};
ghost use Rattle.hdlc_framer.specs.Body.{body};
ghost use Rattle.offset_slicers.specs.Near.{IsNear};
ghost use Rattle.frame_merge.specs.declared.candidate.Candidate.{Candidate};
ghost use Rattle.slicer_bank.specs.Candidates.{AreCandidates};
ghost use Rattle.afsk_modulator.specs.Modulation.{IsLevel};
ghost use Rattle.afsk_modulator.specs.Transmission.{transmission_at};
ghost use Rattle.afsk_modulator.specs.Signal.{Transmission, signal, signal_at};
ghost use Rattle.clean_signal.specs.GoodTransmission.{IsTransmission, frames_of};
ghost use Rattle.clean_signal.specs.TrueEnds.{true_ends};
ghost use Rattle.clean_signal.specs.Stray.{is_sent, NoStray};
ghost use Rattle.clean_signal.specs.Carried.{CarriesAll};
ghost use Rattle.clean_signal.specs.NearSignal.{Received, IsReceived, IsNearAll, transmissions_of, sent_at};
ghost use Rattle.clean_signal.specs.MergedFrames.{MergesTo};
ghost use Rattle.clean_signal.specs.WavePlace.{phase_at};

/// A clean signal without a stray candidate gives the frames that were sent, each once, in order, whatever the silences
/// and however many frames and transmissions.
pub fn clean_frames()
    ensures { (sent : List Transmission) → All IsTransmission sent → NoStray sent (signal sent)
        → MergesTo (frames_of sent) (signal sent) }
{}

/// So does the signal at any level from 10 on.
pub fn level_frames()
    ensures { (level : ℕ) (sent : List Transmission) → IsLevel level → All IsTransmission sent
        → NoStray sent (signal_at level sent)
        → MergesTo (frames_of sent) (signal_at level sent) }
{}

/// So do samples near a signal: each transmission begins at a phase of its own and has a level of its own, each of its
/// samples is off by at most a tenth of that level, and anything is heard before it and after it.
pub fn near_frames()
    ensures { (received : List Received) (x : List ℤ) → All IsReceived received → IsNearAll received x
        → NoStray (transmissions_of received) x → MergesTo (frames_of (transmissions_of received)) x }
{}

/// What is sent at a level is near its wave: from level 10 on rounding is less than a tenth.
pub fn sent_is_near()
    ensures transmission { (phase level : ℕ) (frames : List (List ℕ)) (opening closing : ℕ) → 10 ≤ level
        → IsNear level (wave_from phase (line (body frames opening closing)))
        (transmission_at phase level frames opening closing) }
    ensures signal { (level : ℕ) (sent : List Transmission) → 10 ≤ level
        → IsNearAll (sent_at level sent) (signal_at level sent) }
{}

/// So do any samples that carry the transmissions, whatever stands between and after them.
pub fn carried_frames()
    ensures { (sent : List Transmission) (x : List ℤ) → All IsTransmission sent → CarriesAll sent x → NoStray sent x
        → MergesTo (frames_of sent) x }
{}

/// Who has all candidates of the samples and finds none stray has looked at enough.
pub fn none_stray()
    ensures { (sent : List Transmission) (x : List ℤ) (items : List Candidate) → AreCandidates x items
        → All (λ item. is_sent (true_ends sent) item ≡ true) items → NoStray sent x }
{}

/// The samples of a wave by place: sample 8j + i is that of the phase to which the tones before tone j and i steps of
/// tone j lead.
pub fn samples_by_place()
    ensures count { (tones : List Tone) → length (wave tones) ≡ 8 * length tones }
    ensures sample { (tones : List Tone) (j i : ℕ) → j < length tones → i < 8
        → slice_index_or (wave tones) (8 * j + i) (pos 0) ≡ wave_sample (phase_at tones j i) }
{}
