//! One stream: every fifth sample, and the bank that hears them.

ghost use Rattle.std.specs.Prelude.{◌≡◌, ℕ, ◌+◌, ◌<◌, ◌≤◌, ◌^◌, ℤ, List, [], ◌∷◌, ◌++◌, length, Some, IfOk, OnOk};
ghost use Rattle.std.specs.List.{All};
ghost use Rattle.frame_merge.specs.declared.candidate.Candidate.{Candidate};
ghost use Rattle.slicer_bank.specs.Candidates.{AreCandidatesAfter};
ghost use Rattle.slicer_bank.specs.Merging.{CanBePut, AllPast};
ghost use Rattle.wide_input.specs.Streams.{stream};
ghost use Rattle.wide_input.specs.Held.{next_skipped};

use frame_merge::Candidate;
use slicer_bank::Bank;
use std::alloc::Global;
use std::marker::Model;
use tnc_base::OutOfMemory;

/// The streams of samples at 48,000 a second.
pub(crate) const STREAMS: usize = 5;

/// The samples of the other streams stand between two of one stream.
const BETWEEN: u8 = 4;

/// The bank of a stream, with a buffer for the stream's part of a block. A job on a thread of its own leaves in `found`
/// what the bank heard, or `None` if memory ran out.
#[derive(Drop)]
pub(crate) struct Stream {
    bank: Bank,
    skipped: u8,
    part: Vec<i16>,
    found: Option<Vec<Candidate>>,
}

impl Model for Stream {
    ghost use Rattle.std.specs.Prelude.{option_map};
    ghost use Rattle.wide_input.specs.Held.{HeldStream};

    ghost Value = { HeldStream };

    ghost view = { λ s. record { bank = s.bank; skipped = s.skipped; found = option_map (λ v. v.items) s.found } };
}

impl Stream {
    ghost use Rattle.wide_input.specs.Held.{StreamStandsFor, HearsBlock, KeepsFit, IsAbreast, TakesPart, AreAlike};

    /// The stream of a number, which has taken nothing.
    pub(crate) fn new(alloc: Global, number: u8) -> Result<Stream, OutOfMemory>
        requires { number < 5 }
        ensures stands_for { IfOk result (λ made. StreamStandsFor number made []) }
        ensures position { IfOk result (λ made. made.bank.position ≡ 0) }
        ensures abreast { IfOk result (λ made. IsAbreast 0 made) }
    {
        Ok(Stream {
            bank: Bank::new(alloc)?,
            skipped: number,
            part: Vec::new(alloc),
            found: None,
        })
    }

    /// Takes the stream's part of a block. What the bank hears in it is left in the stream.
    pub(crate) fn hear(&mut self, block: &[i16])
        requires room { self.old.bank.position + length block.now < 2 ^ 48 }
        ensures heard { HearsBlock block.now self.old self.new }
        ensures fits { KeepsFit self.new }
        ensures part { (position : ℕ) → IsAbreast position self.old → TakesPart position (length block.now) self.new }
        ensures position { self.new.bank.position ≤ self.old.bank.position + length block.now }
    {
        let heard = self.hear_part(block);
        self.found = heard.ok();
    }

    /// What the bank hears in the stream's part of a block.
    fn hear_part(&mut self, block: &[i16]) -> Result<Vec<Candidate>, OutOfMemory>
        requires room { self.old.bank.position + length block.now < 2 ^ 48 }
        ensures heard { IfOk result (λ found. (number : ℕ) (x : List ℤ) → StreamStandsFor number self.old x
            → StreamStandsFor number self.new (x ++ block.now)
            × AreCandidatesAfter (length (stream number x)) (stream number (x ++ block.now)) found.items) }
        ensures fits { IfOk result (λ found. All CanBePut found.items) }
        ensures past { IfOk result (λ found. AllPast self.old.bank.position found.items) }
        ensures abreast { OnOk result ((position : ℕ) → IsAbreast position self.old
            → IsAbreast (position + length block.now) self.new) }
        ensures position { self.new.bank.position ≤ self.old.bank.position + length block.now }
    {
        self.part.clear();
        self.skipped = take_part(self.skipped, block, &mut self.part)?;
        self.bank.feed(&self.part)
    }

    /// What the bank heard in its last job, which the stream keeps no more.
    pub(crate) fn take_found(&mut self) -> Result<Vec<Candidate>, OutOfMemory>
        ensures found { IfOk result (λ found. self.old.found ≡ Some found.items) }
        ensures alike { AreAlike self.new self.old }
    {
        self.found.take().ok_or(OutOfMemory)
    }
}

/// Appends every fifth sample of a block, after so many that are skipped, and tells how many are to be skipped before
/// the next one.
fn take_part(skipped: u8, block: &[i16], part: &mut Vec<i16>) -> Result<u8, OutOfMemory>
    ensures part { OnOk result (part.new.items ≡ part.old.items ++ stream skipped block.now) }
    ensures skipped { IfOk result (λ left. left ≡ next_skipped skipped block.now) }
{
    let mut left = skipped;
    for sample in block {
        if left > 0 {
            left -= 1;
        } else {
            append(part, *sample)?;
            left = BETWEEN;
        }
    }
    Ok(left)
}

/// Appends a sample.
fn append(part: &mut Vec<i16>, sample: i16) -> Result<(), OutOfMemory>
    ensures { OnOk result (part.new.items ≡ part.old.items ++ sample ∷ []) }
{
    part.push(sample)?;
    Ok(())
}
