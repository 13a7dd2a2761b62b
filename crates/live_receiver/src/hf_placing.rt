//! What the lanes of short wave hear in a stretch, counted from the begin of the input.

ghost use Rattle.std.specs.Prelude.{◌≡◌, ◌+◌, ◌<◌, ◌≤◌, ◌^◌, ◌++◌, ℕ, ℤ, Bool, List, length, map, OnOk, option_map};
ghost use Rattle.std.specs.List.{All};
ghost use Rattle.std.specs.Option.{option_to_list};
ghost use Rattle.frame_merge.specs.declared.candidate.Candidate.{Candidate};
ghost use Rattle.hf_modem.specs.Candidates.{AreCandidatesAfter};
ghost use Rattle.hf_modem.specs.Held.{BankStandsFor};
ghost use Rattle.hf_sensitive.specs.Found.{CanBePut};
ghost use Rattle.live_receiver.specs.HeardOnShortWave.{moved, moved_added, placed};
ghost use Rattle.live_receiver.specs.HeldHf.{CanCome};

use frame_merge::Candidate;
use hf_modem::{HfBank, OFFSETS, SAMPLES_AN_END};
use tnc_base::OutOfMemory;

/// The 32 lanes, of which a place names one.
const LANES: u64 = OFFSETS as u64;

/// Has the 32 lanes hear samples of a stretch that begins at a place, and adds what they hear.
pub(crate) fn hear_each(
    bank: &mut HfBank,
    begin: u64,
    samples: &[i16],
    items: &mut Vec<Candidate>,
) -> Result<(), OutOfMemory>
    requires { (begin + bank.old.position) + length samples.now < 2 ^ 48 }
    ensures heard { OnOk result ((found : List Candidate)
        × (items.new.items ≡ items.old.items ++ map (moved begin) found)
        × ((x : List ℤ) → BankStandsFor bank.old x → BankStandsFor bank.new (x ++ samples.now)
        × AreCandidatesAfter (length x) (x ++ samples.now) found)) }
    ensures comes { (sensitive : Bool) (from : ℕ) → from ≤ begin + bank.old.position
        → OnOk result (All (CanCome sensitive from) items.old.items → All (CanCome sensitive from) items.new.items) }
    ensures position { OnOk result (bank.new.position ≡ bank.old.position + length samples.now) }
    ensures flags { bank.new.flags ≡ bank.old.flags }
{
    for sample in samples {
        let heard = bank.push(*sample)?;
        keep(items, heard, begin + bank.position())?;
    }
    Ok(())
}

/// Adds what one of the 32 lanes heard, as ending at a place of the whole input.
fn keep(items: &mut Vec<Candidate>, heard: Option<Candidate>, place: u64) -> Result<(), OutOfMemory>
    ensures { OnOk result (items.new.items ≡ items.old.items ++ option_to_list (option_map (placed place) heard)) }
{
    let Some(heard) = heard else {
        return Ok(());
    };
    items.push(Candidate {
        end: place / SAMPLES_AN_END,
        offset: (place % LANES) as u8,
        octets: heard.octets,
    })?;
    Ok(())
}

/// Adds what the added lanes heard in a stretch that begins at a place.
pub(crate) fn add_moved(
    items: &mut Vec<Candidate>,
    heard: Vec<Candidate>,
    begin: u64,
) -> Result<(), OutOfMemory>
    requires begin { begin < 2 ^ 48 }
    requires heard { All CanBePut heard.items }
    ensures { OnOk result (items.new.items ≡ items.old.items ++ map (moved_added begin) heard.items) }
{
    for item in heard {
        items.push(Candidate {
            end: (begin + SAMPLES_AN_END * item.end) / SAMPLES_AN_END,
            offset: item.offset,
            octets: item.octets,
        })?;
    }
    Ok(())
}
