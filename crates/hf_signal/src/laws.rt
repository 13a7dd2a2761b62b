//! Laws on signals of 300 bits a second. A law is the contract of a function that does nothing.

ghost use Rattle.std.specs.Prelude.{◌≡◌, ◌<◌, ◌≤◌, ◌*◌, ℕ, ℤ, List, true};
ghost use Rattle.std.specs.List.{All};
ghost use Rattle.tone_table.specs.declared.tone.Tone.{Tone};
ghost use Rattle.nrzi_bits.specs.Line.{line};
ghost use Rattle.hdlc_framer.specs.Body.{body};
ghost use Rattle.offset_slicers.specs.Near.{IsNear};
ghost use Rattle.frame_merge.specs.declared.candidate.Candidate.{Candidate};
ghost use Rattle.afsk_modulator.specs.Modulation.{IsLevel};
ghost use Rattle.afsk_modulator.specs.Signal.{Transmission};
ghost use Rattle.clean_signal.specs.GoodTransmission.{IsTransmission, frames_of};
ghost use Rattle.clean_signal.specs.NearSignal.{Received, transmissions_of, sent_at};
ghost use Rattle.hf_modem.specs.Decision.{tone_of};
ghost use Rattle.hf_sender.specs.Wave.{pure_window, wave};
ghost use Rattle.hf_sender.specs.Transmission.{hf_transmission};
ghost use Rattle.hf_modem.specs.Signal.{hf_signal};
ghost use Rattle.hf_modem.specs.Candidates.{AreCandidates};
ghost use Rattle.hf_signal.specs.TrueEnds.{true_ends};
ghost use Rattle.hf_signal.specs.Stray.{is_sent, NoStray};
ghost use Rattle.hf_signal.specs.Carried.{CarriesAll};
ghost use Rattle.hf_signal.specs.NearSignal.{IsReceived, IsNearAll};
ghost use Rattle.hf_signal.specs.MergedFrames.{MergesTo};

/// A window near one of a tone is decided as that tone, at each of the three phases at which a bit of a transmission
/// can begin, 0, 16 and 32, and at every level: an error of at most a tenth of the level leaves the energy of the tone
/// that was sent more than that of the other.
pub fn hf_near_windows()
    ensures { (level k : ℕ) (tone : Tone) (x : List ℤ) → 1 ≤ level → k < 3
        → IsNear level (pure_window (16 * k) tone) x → tone_of x ≡ tone }
{}

/// Samples near a signal without a stray candidate give the frames that were sent, each once, in order: each
/// transmission begins at a phase of its own and has a level of its own, each of its samples is off by at most a tenth
/// of that level, and anything is heard before it and after it.
pub fn hf_near_frames()
    ensures { (received : List Received) (x : List ℤ) → All IsReceived received → IsNearAll received x
        → NoStray (transmissions_of received) x → MergesTo (frames_of (transmissions_of received)) x }
{}

/// So does the signal itself at any level from 10 on.
pub fn hf_level_frames()
    ensures { (level : ℕ) (sent : List Transmission) → IsLevel level → All IsTransmission sent
        → NoStray sent (hf_signal level sent)
        → MergesTo (frames_of sent) (hf_signal level sent) }
{}

/// What is sent at a level is near its wave: from level 10 on rounding is less than a tenth.
pub fn hf_sent_is_near()
    ensures transmission { (level : ℕ) (frames : List (List ℕ)) (opening closing : ℕ) → 10 ≤ level
        → IsNear level (wave (line (body frames opening closing))) (hf_transmission level frames opening closing) }
    ensures signal { (level : ℕ) (sent : List Transmission) → 10 ≤ level
        → IsNearAll (sent_at level sent) (hf_signal level sent) }
{}

/// So do any samples that carry the transmissions, whatever stands between and after them.
pub fn hf_carried_frames()
    ensures { (sent : List Transmission) (x : List ℤ) → All IsTransmission sent → CarriesAll sent x → NoStray sent x
        → MergesTo (frames_of sent) x }
{}

/// Checking all candidates of the samples is enough.
pub fn hf_none_stray()
    ensures { (sent : List Transmission) (x : List ℤ) (items : List Candidate) → AreCandidates x items
        → All (λ item. is_sent (true_ends sent) item ≡ true) items → NoStray sent x }
{}
