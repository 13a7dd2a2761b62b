//! The forms of samples and frames among what was found.
ghost use Rattle.std.specs.Prelude.{◌≡◌};
ghost use Rattle.clap.specs.Words.{found_of, rows_of};
ghost use Rattle.tnc_words.specs.Forms.{audio_form as form_of_audio, frame_form as form_of_frames};

use crate::command::{AudioForm, FrameForm};
use crate::parsing::has_flag;
use clap::ArgMatches;

/// The form of samples: a WAV file if `--wav` was given.
pub(crate) fn audio_form(found: &ArgMatches) -> AudioForm
    ensures { result ≡ form_of_audio (rows_of (found_of found.now)) }
{
    if has_flag(found, "wav") {
        return AudioForm::Wav;
    }
    AudioForm::Raw
}

/// The form of frames: KISS if `--kiss` was given.
pub(crate) fn frame_form(found: &ArgMatches) -> FrameForm
    ensures { result ≡ form_of_frames (rows_of (found_of found.now)) }
{
    if has_flag(found, "kiss") {
        return FrameForm::Kiss;
    }
    FrameForm::Hex
}
