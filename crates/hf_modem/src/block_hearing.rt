//! What the 32 lanes hear in a block.

ghost use Rattle.std.specs.Prelude.{◌≡◌, ◌+◌, ◌/◌, ◌<◌, ◌^◌, ℤ, List, ◌++◌, length, IfOk, OnOk};
ghost use Rattle.std.specs.List.{All};
ghost use Rattle.std.specs.Option.{option_to_list};
ghost use Rattle.block_receiver.specs.Hearing.{CanBePutFrom};
ghost use Rattle.hf_modem.specs.Candidates.{AreCandidatesAfter};
ghost use Rattle.hf_modem.specs.Held.{BankStandsFor};

use crate::bank::HfBank;
use frame_merge::Candidate;
use std::alloc::Global;
use tnc_base::OutOfMemory;

/// Gives the bank the samples of a block one by one, and tells the candidates that they end.
pub fn hear_block(
    alloc: Global,
    bank: &mut HfBank,
    block: &[i16],
) -> Result<Vec<Candidate>, OutOfMemory>
    requires { bank.old.position + length block.now < 2 ^ 48 }
    ensures heard { IfOk result (λ found. (x : List ℤ) → BankStandsFor bank.old x
        → BankStandsFor bank.new (x ++ block.now) × AreCandidatesAfter (length x) (x ++ block.now) found.items) }
    ensures bounds { IfOk result (λ found. All (CanBePutFrom 32 (bank.old.position / 4)) found.items) }
    ensures position { OnOk result (bank.new.position ≡ bank.old.position + length block.now) }
{
    let mut found = Vec::new(alloc);
    for sample in block {
        let heard = bank.push(*sample)?;
        keep(&mut found, heard)?;
    }
    Ok(found)
}

/// Adds what was heard with a sample.
fn keep(found: &mut Vec<Candidate>, heard: Option<Candidate>) -> Result<(), OutOfMemory>
    ensures { OnOk result (found.new.items ≡ found.old.items ++ option_to_list heard) }
{
    let Some(item) = heard else {
        return Ok(());
    };
    found.push(item)?;
    Ok(())
}
