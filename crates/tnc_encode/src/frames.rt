//! Frames of a whole input, in their two forms.
ghost use Rattle.std.specs.Prelude.{◌≡◌, ◌++◌, All, IfOk, IfSome, OnOk};
ghost use Rattle.std.specs.List.{filter_map};
ghost use Rattle.std.specs.Option.{option_to_list};
ghost use Rattle.hdlc_framer.specs.FrameLength.{IsBadLength};
ghost use Rattle.tnc_encode.specs.Frames.{form_fault, frame_of, frames_of_input, kiss_frames};

use hdlc_framer::{LEAST_FRAME_LENGTH, has_frame_length};
use kiss_port::{KissIn, KissItem};
use std::alloc::Global;
use tnc_base::{Octets, OutOfMemory};
use tnc_forms::{InputFault, read_hex_frames};
use tnc_words::FrameForm;

/// The frames of an input.
#[derive(Drop)]
pub(crate) struct Frames {
    /// Those before the first bad line.
    pub frames: Vec<Octets>,
    /// What is wrong with the input.
    pub fault: Option<InputFault>,
}

/// The frames of octets in a form, and what is wrong with these: with a KISS stream nothing ever is.
pub(crate) fn read_frames(
    alloc: Global,
    form: FrameForm,
    octets: &[u8],
) -> Result<Frames, OutOfMemory>
    ensures frames { IfOk result (λ read. read.frames.items ≡ frames_of_input form octets.now) }
    ensures fault { IfOk result (λ read. read.fault ≡ form_fault form octets.now) }
    ensures lengths { IfOk result (λ read. All (λ octets. ¬ IsBadLength octets) read.frames.items) }
{
    match form {
        FrameForm::Hex => {
            let lines = read_hex_frames(alloc, LEAST_FRAME_LENGTH, octets)?;
            Ok(Frames {
                frames: lines.frames,
                fault: lines.fault,
            })
        }
        FrameForm::Kiss => Ok(Frames {
            frames: read_kiss_frames(alloc, octets)?,
            fault: None,
        }),
    }
}

/// The frames of a KISS stream that are to be sent.
fn read_kiss_frames(alloc: Global, octets: &[u8]) -> Result<Vec<Octets>, OutOfMemory>
    ensures { IfOk result (λ frames. frames.items ≡ kiss_frames octets.now) }
{
    let mut stream = KissIn::new(alloc);
    let mut frames = Vec::new(alloc);
    for octet in octets {
        let item = stream.push(*octet)?;
        take_frame(&mut frames, item)?;
    }
    Ok(frames)
}

/// Appends the frame of an item, if one is to be sent.
fn take_frame(frames: &mut Vec<Octets>, item: Option<KissItem>) -> Result<(), OutOfMemory>
    ensures { OnOk result (frames.new.items ≡ frames.old.items ++ filter_map frame_of (option_to_list item)) }
{
    if let Some(frame) = frame_of_item(item) {
        frames.push(frame)?;
    }
    Ok(())
}

/// The frame of an item, if there is one, and it is to be sent.
pub(crate) fn frame_of_item(item: Option<KissItem>) -> Option<Octets>
    ensures frame { option_to_list result ≡ filter_map frame_of (option_to_list item) }
    ensures size { IfSome result (λ octets. ¬ IsBadLength octets) }
{
    match item {
        Some(item) => frame_to_send(item),
        None => None,
    }
}

/// The frame of an item, if it is data on port 0 and has the length of a frame.
fn frame_to_send(item: KissItem) -> Option<Octets>
    ensures { result ≡ frame_of item }
{
    let KissItem::Frame { port: 0, octets } = item else {
        return None;
    };
    has_frame_length(octets.as_slice()).then_some(octets)
}
