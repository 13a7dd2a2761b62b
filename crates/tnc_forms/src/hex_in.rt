//! Lines of hexadecimal digits as their octets come.
ghost use Rattle.std.specs.Prelude.{◌≡◌, ◌≤◌, ◌<◌, ◌+◌, ◌^◌, ◌++◌, [], ℕ, List, Some, None, length, take, IfOk, IfSome};
ghost use Rattle.std.specs.Prelude.{OnOk, IsErrOf};
ghost use Rattle.std.specs.Option.{option_to_list};
ghost use Rattle.std.specs.Str.Lines.{strip_carriage_return};
ghost use Rattle.tnc_forms.specs.declared.fault.InputFault.{InputFault};
ghost use Rattle.tnc_forms.specs.declared.line_fault.LineFlaw.TheVariants.{LongLine};
ghost use Rattle.tnc_forms.specs.Faults.{fault_in_line, hex_fault};
ghost use Rattle.tnc_forms.specs.HexFrames.{HasGoodLength, fault_of, frame_of, frames_in_lines};

use crate::fault::{Fault, InputFault};
use crate::hex_frames::{line_feed, without_carriage_return};
use crate::hex_line::{LONGEST_LINE, LineText, read_line};
use crate::line_fault::{LineFault, LineFlaw};
use std::alloc::Global;
use std::marker::Model;
use tnc_base::Octets;

/// The most octets that are kept: those of the longest line, and a carriage return.
const MOST_KEPT: usize = 2049;

/// Reads lines piece by piece, and gives the frame of each line at its line feed. Keeps the octets of the line that has
/// not ended, at most 2049 of them.
#[derive(Drop)]
pub struct HexIn {
    alloc: Global,
    least: usize,
    place: usize,
    part: Vec<u8>,
}

impl Model for HexIn {
    ghost use Rattle.std.specs.Prelude.{◌≤◌, length};
    ghost use Rattle.tnc_forms.specs.HeldLine.{HeldLine};

    ghost Value = { HeldLine };

    ghost view = { λ h. record { least = h.least; place = h.place; part = h.part.items } };

    ghost invariant = { λ h. length h.part.items ≤ 2049 };
}

impl HexIn {
    ghost use Rattle.tnc_forms.specs.HeldLine.{HeldLine, StandsFor, new_line, position_of};
    ghost use Rattle.tnc_forms.specs.LinesSoFar.{fault_so_far, frames_so_far};

    /// A reader to which no octet has come. `least` is the fewest octets of a frame.
    pub fn new(alloc: Global, least: usize) -> HexIn
        ensures held { result ≡ new_line least }
        ensures stands_for { StandsFor result [] }
    {
        HexIn {
            alloc,
            least,
            place: 0,
            part: Vec::new(alloc),
        }
    }

    /// Takes the next octets up to the end of the line, or all of them if it does not end in them. Gives how many, and
    /// the frame of the line that ended. A line with too many octets is refused before it ends. After a refusal the
    /// reader is of no more use.
    pub fn take(&mut self, octets: &[u8]) -> Result<(usize, Option<Octets>), Fault>
        requires room { position_of self.old + length octets.now < 2 ^ 64 }
        ensures count { IfOk result (λ taken. (taken.0 ≤ length octets.now) × (0 < length octets.now → 0 < taken.0)) }
        ensures position { IfOk result (λ taken. position_of self.new ≡ position_of self.old + taken.0) }
        ensures least { OnOk result (self.new.least ≡ self.old.least) }
        ensures size { IfOk result (λ taken. IfSome taken.1 (HasGoodLength self.old.least)) }
        ensures stands_for { (before : List ℕ) → StandsFor self.old before
            → IfOk result (λ taken. StandsFor self.new (before ++ take taken.0 octets.now)) }
        ensures frame { (before : List ℕ) → StandsFor self.old before
            → IfOk result (λ taken. frames_so_far self.old.least (before ++ take taken.0 octets.now)
            ≡ frames_so_far self.old.least before ++ option_to_list taken.1) }
        ensures bad { (before : List ℕ) → (fault : InputFault) → StandsFor self.old before
            → IsErrOf result (Fault.Input fault)
            → (fault_so_far self.old.least (before ++ octets.now) ≡ Some fault)
            × (frames_so_far self.old.least (before ++ octets.now) ≡ frames_so_far self.old.least before) }
        ensures read { ¬ IsErrOf result Fault.Read }
        ensures write { ¬ IsErrOf result Fault.Write }
    {
        match line_feed(octets) {
            Some(length) => {
                let frame = self.end_line(&octets[..length])?;
                Ok((length + 1, frame))
            }
            None => {
                self.keep(octets)?;
                Ok((octets.len(), None))
            }
        }
    }

    /// The frame of the last line: the input has ended.
    pub fn finish(&self) -> Result<Option<Octets>, Fault>
        requires room { position_of self.now < 2 ^ 64 }
        ensures size { IfOk result (λ frame. IfSome frame (HasGoodLength self.now.least)) }
        ensures frame { (octets : List ℕ) → StandsFor self.now octets
            → IfOk result (λ frame. frames_in_lines self.now.least octets
            ≡ frames_so_far self.now.least octets ++ option_to_list frame) }
        ensures good { (octets : List ℕ) → StandsFor self.now octets
            → OnOk result (hex_fault self.now.least octets ≡ None) }
        ensures bad { (octets : List ℕ) → (fault : InputFault) → StandsFor self.now octets
            → IsErrOf result (Fault.Input fault)
            → (hex_fault self.now.least octets ≡ Some fault)
            × (frames_in_lines self.now.least octets ≡ frames_so_far self.now.least octets) }
        ensures read { ¬ IsErrOf result Fault.Read }
        ensures write { ¬ IsErrOf result Fault.Write }
    {
        frame_of_line(self.alloc, self.least, self.place, &self.part)
    }

    /// Takes the last octets of a line, and the line feed after them.
    fn end_line(&mut self, octets: &[u8]) -> Result<Option<Octets>, Fault>
        requires room { position_of self.old + length octets.now + 1 < 2 ^ 64 }
        ensures ended { OnOk result (self.new
            ≡ record {
              least = self.old.least;
              place = self.old.place + length (self.old.part ++ octets.now)
                  + 1;
              part = [];
            }) }
        ensures size { IfOk result (λ frame. IfSome frame (HasGoodLength self.old.least)) }
        ensures frame { IfOk result (λ frame. frame
            ≡ frame_of self.old.least (record {
              place = self.old.place;
              text = strip_carriage_return (self.old.part
                  ++ octets.now);
            })) }
        ensures good { OnOk result (fault_of self.old.least
            (record { place = self.old.place; text = strip_carriage_return (self.old.part ++ octets.now) }) ≡ None) }
        ensures bad { (fault : InputFault) → IsErrOf result (Fault.Input fault) → fault_in_line (fault_of self.old.least
            (record { place = self.old.place; text = strip_carriage_return (self.old.part ++ octets.now) }))
            ≡ Some fault }
        ensures read { ¬ IsErrOf result Fault.Read }
        ensures write { ¬ IsErrOf result Fault.Write }
    {
        self.keep(octets)?;
        let line = without_carriage_return(&self.part);
        let frame = frame_of_line(self.alloc, self.least, self.place, line)?;
        self.place += self.part.len() + 1;
        self.part.clear();
        Ok(frame)
    }

    /// Takes octets of the line.
    fn keep(&mut self, octets: &[u8]) -> Result<(), Fault>
        ensures kept { OnOk result (self.new
            ≡ record { least = self.old.least; place = self.old.place; part = self.old.part ++ octets.now }) }
        ensures short { OnOk result (length (strip_carriage_return self.new.part) ≤ 2048) }
        ensures long { (fault : InputFault) → IsErrOf result (Fault.Input fault)
            → (fault ≡ InputFault.Line (record { flaw = LongLine; place = self.old.place }))
            × (2048 < length (strip_carriage_return (self.old.part ++ octets.now))) }
        ensures read { ¬ IsErrOf result Fault.Read }
        ensures write { ¬ IsErrOf result Fault.Write }
    {
        let long = Fault::Input(InputFault::Line(LineFault {
            flaw: LineFlaw::LongLine,
            place: self.place,
        }));
        if octets.len() > MOST_KEPT - self.part.len() {
            return Err(long);
        }
        self.part.extend_from_slice(octets)?;
        if without_carriage_return(&self.part).len() > LONGEST_LINE {
            return Err(long);
        }
        Ok(())
    }
}

/// The frame of a line that begins at this place, if it has one.
fn frame_of_line(
    alloc: Global,
    least: usize,
    place: usize,
    text: &[u8],
) -> Result<Option<Octets>, Fault>
    requires { place + length text.now < 2 ^ 64 }
    ensures size { IfOk result (λ frame. IfSome frame (HasGoodLength least)) }
    ensures frame { IfOk result (λ frame. frame ≡ frame_of least (record { place = place; text = text.now })) }
    ensures good { OnOk result (fault_of least (record { place = place; text = text.now }) ≡ None) }
    ensures bad { (fault : InputFault) → IsErrOf result (Fault.Input fault)
        → fault_in_line (fault_of least (record { place = place; text = text.now })) ≡ Some fault }
    ensures read { ¬ IsErrOf result Fault.Read }
    ensures write { ¬ IsErrOf result Fault.Write }
{
    match read_line(alloc, least, text)? {
        LineText::Nothing => Ok(None),
        LineText::Frame(octets) => Ok(Some(octets)),
        LineText::Refused(flaw, offset) => {
            let place = place + offset;
            Err(Fault::Input(InputFault::Line(LineFault { flaw, place })))
        }
    }
}
