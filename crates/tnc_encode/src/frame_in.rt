//! Frames as their octets come, in their two forms.
ghost use Rattle.std.specs.Prelude.{◌≡◌, ◌≤◌, ◌<◌, ◌+◌, ◌^◌, ◌++◌, [], ℕ, List, Some, None, length, take, IfOk, IfSome};
ghost use Rattle.std.specs.Prelude.{OnOk, IsErrOf};
ghost use Rattle.std.specs.Option.{option_to_list};
ghost use Rattle.hdlc_framer.specs.FrameLength.{IsBadLength};
ghost use Rattle.tnc_forms.specs.declared.fault.InputFault.{InputFault};
ghost use Rattle.tnc_words.specs.declared.command.FrameForm.{FrameForm};
ghost use Rattle.tnc_encode.specs.Frames.{form_fault, form_fault_so_far, frames_of_input, frames_so_far};
ghost use Rattle.tnc_encode.specs.HeldFrames.{HasTaken, IsReader, position};

use crate::frames::frame_of_item;
use hdlc_framer::LEAST_FRAME_LENGTH;
use kiss_port::KissIn;
use std::alloc::Global;
use tnc_base::{Octets, OutOfMemory};
use tnc_forms::{Fault, HexIn};
use tnc_words::FrameForm;

/// A reader of frames.
#[derive(Drop)]
pub(crate) enum FrameIn {
    /// Of lines of hexadecimal digits.
    Lines(HexIn),
    /// Of a KISS stream.
    Items(KissIn),
}

impl FrameIn {
    /// A reader of a form, to which no octet has come.
    pub(crate) fn new(alloc: Global, form: FrameForm) -> FrameIn
        ensures taken { HasTaken form result [] }
        ensures reader { IsReader result }
        ensures position { position result ≡ 0 }
    {
        match form {
            FrameForm::Hex => FrameIn::Lines(HexIn::new(alloc, LEAST_FRAME_LENGTH)),
            FrameForm::Kiss => FrameIn::Items(KissIn::new(alloc)),
        }
    }

    /// Takes the next octets up to the end of a line or of a piece of KISS, or fewer. Gives how many, and the frame
    /// that ended.
    pub(crate) fn take(&mut self, octets: &[u8]) -> Result<(usize, Option<Octets>), Fault>
        requires reader { IsReader self.old }
        requires room { position self.old + length octets.now < 2 ^ 64 }
        ensures count { IfOk result (λ taken. (taken.0 ≤ length octets.now) × (0 < length octets.now → 0 < taken.0)) }
        ensures reader { OnOk result (IsReader self.new) }
        ensures position { IfOk result (λ taken. position self.new ≤ position self.old + taken.0) }
        ensures size { IfOk result (λ taken. IfSome taken.1 (λ frame. ¬ IsBadLength frame)) }
        ensures taken { (form : FrameForm) (before : List ℕ) → HasTaken form self.old before
            → IfOk result (λ taken. HasTaken form self.new (before ++ take taken.0 octets.now)) }
        ensures frame { (form : FrameForm) (before : List ℕ) → HasTaken form self.old before
            → IfOk result (λ taken. frames_so_far form (before ++ take taken.0 octets.now)
            ≡ frames_so_far form before ++ option_to_list taken.1) }
        ensures bad { (form : FrameForm) (before : List ℕ) → (fault : InputFault) → HasTaken form self.old before
            → IsErrOf result (Fault.Input fault)
            → (form_fault_so_far form (before ++ octets.now) ≡ Some fault)
            × (frames_so_far form (before ++ octets.now) ≡ frames_so_far form before) }
        ensures read { ¬ IsErrOf result Fault.Read }
        ensures write { ¬ IsErrOf result Fault.Write }
    {
        match self {
            FrameIn::Lines(lines) => lines.take(octets),
            FrameIn::Items(items) => Ok(take_octet(items, octets)?),
        }
    }

    /// The frame that ends with the input.
    pub(crate) fn finish(&self) -> Result<Option<Octets>, Fault>
        requires reader { IsReader self.now }
        requires room { position self.now < 2 ^ 64 }
        ensures size { IfOk result (λ frame. IfSome frame (λ octets. ¬ IsBadLength octets)) }
        ensures frame { (form : FrameForm) (octets : List ℕ) → HasTaken form self.now octets
            → IfOk result (λ frame. frames_of_input form octets ≡ frames_so_far form octets ++ option_to_list frame) }
        ensures good { (form : FrameForm) (octets : List ℕ) → HasTaken form self.now octets
            → OnOk result (form_fault form octets ≡ None) }
        ensures bad { (form : FrameForm) (octets : List ℕ) → (fault : InputFault) → HasTaken form self.now octets
            → IsErrOf result (Fault.Input fault)
            → (form_fault form octets ≡ Some fault) × (frames_of_input form octets ≡ frames_so_far form octets) }
        ensures read { ¬ IsErrOf result Fault.Read }
        ensures write { ¬ IsErrOf result Fault.Write }
    {
        match self {
            FrameIn::Lines(lines) => lines.finish(),
            FrameIn::Items(_) => Ok(None),
        }
    }
}

/// Takes the next octet of a KISS stream, if there is one, and gives the frame that ends with it.
fn take_octet(items: &mut KissIn, octets: &[u8]) -> Result<(usize, Option<Octets>), OutOfMemory>
    ensures count { IfOk result (λ taken. (taken.0 ≤ length octets.now) × (0 < length octets.now → 0 < taken.0)) }
    ensures size { IfOk result (λ taken. IfSome taken.1 (λ frame. ¬ IsBadLength frame)) }
    ensures taken { (before : List ℕ) → HasTaken FrameForm.Kiss (FrameIn.Items items.old) before
        → IfOk result (λ taken. HasTaken FrameForm.Kiss (FrameIn.Items items.new) (before ++ take taken.0 octets.now)) }
    ensures frame { (before : List ℕ) → HasTaken FrameForm.Kiss (FrameIn.Items items.old) before
        → IfOk result (λ taken. frames_so_far FrameForm.Kiss (before ++ take taken.0 octets.now)
        ≡ frames_so_far FrameForm.Kiss before ++ option_to_list taken.1) }
{
    match octets {
        [] => Ok((0, None)),
        [octet, ..] => {
            let item = items.push(*octet)?;
            Ok((1, frame_of_item(item)))
        }
    }
}
