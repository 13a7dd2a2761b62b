//! A block of samples, piece by piece: the line of tones of a piece, and what all lanes read of it.

ghost use Rattle.std.specs.Prelude.{◌≡◌, ◌+◌, ◌<◌, ◌≤◌, ◌^◌, length, IfOk, OnOk};
ghost use Rattle.std.specs.List.{All};
ghost use Rattle.tone_tracking.specs.HeldLine.{decided_in};
ghost use Rattle.slicer_bank.specs.Feeding.{FeedsBlock};
ghost use Rattle.slicer_bank.specs.Merging.{AllPast, CanBePut};
ghost use Rattle.sensitive_receiver.specs.FiveBanks.{AreAt};
ghost use Rattle.sensitive_receiver.specs.HeardBlock.{HearsBlock};
ghost use Rattle.sensitive_receiver.specs.HeldLanes.{bank_of};

use crate::added_banks::AddedBanks;
use frame_merge::Candidate;
use slicer_bank::Bank;
use std::alloc::Global;
use std::thread::Threads;
use tnc_base::OutOfMemory;
use tone_tracking::ToneLine;

/// Takes a block of samples in pieces of a size, and gives what the lanes hear.
pub(crate) fn feed_block(
    alloc: Global,
    size: usize,
    line: &mut ToneLine,
    banks: &mut AddedBanks,
    block: &[i16],
) -> Result<Vec<Candidate>, OutOfMemory>
    requires size { 1 ≤ size }
    requires room { line.old.count + length block.now < 2 ^ 48 }
    requires at { AreAt (decided_in line.old.count) banks.old }
    ensures heard { IfOk result (λ found. HearsBlock (bank_of line.old banks.old) (bank_of line.new banks.new)
        block.now found.items) }
    ensures at { OnOk result (AreAt (decided_in line.new.count) banks.new) }
{
    let mut found = Vec::new(alloc);
    for piece in block.chunks(size) {
        let mut more = feed_piece(line, banks, piece)?;
        found.append(&mut more)?;
    }
    Ok(found)
}

/// Takes a piece of a block, and gives what the lanes hear.
fn feed_piece(
    line: &mut ToneLine,
    banks: &mut AddedBanks,
    piece: &[i16],
) -> Result<Vec<Candidate>, OutOfMemory>
    requires room { line.old.count + length piece.now < 2 ^ 48 }
    requires at { AreAt (decided_in line.old.count) banks.old }
    ensures heard { IfOk result (λ found. HearsBlock (bank_of line.old banks.old) (bank_of line.new banks.new)
        piece.now found.items) }
    ensures at { OnOk result (AreAt (decided_in line.new.count) banks.new) }
{
    line.feed(piece)?;
    let found = banks.read(line.line())?;
    Ok(found)
}

/// Takes a block of samples as one piece, with the tones decided on threads, and gives what the lanes hear, after what the
/// eight plain lanes of a bank hear beside them.
pub(crate) fn feed_block_beside<R: Threads + Sync>(
    rt: &R,
    line: &mut ToneLine,
    banks: &mut AddedBanks,
    bank: &mut Bank,
    block: &[i16],
) -> Result<(Vec<Candidate>, Vec<Candidate>), OutOfMemory>
    requires room { line.old.count + length block.now < 2 ^ 48 }
    requires at { AreAt (decided_in line.old.count) banks.old }
    requires bank { bank.old.position + length block.now < 2 ^ 48 }
    ensures eight { IfOk result (λ heard. FeedsBlock bank.old bank.new block.now heard.0.items) }
    ensures eight_bounds { IfOk result (λ heard. All CanBePut heard.0.items) }
    ensures eight_past { IfOk result (λ heard. AllPast bank.old.position heard.0.items) }
    ensures eight_position { OnOk result (bank.new.position ≡ bank.old.position + length block.now) }
    ensures added { IfOk result (λ heard. HearsBlock (bank_of line.old banks.old) (bank_of line.new banks.new)
        block.now heard.1.items) }
    ensures at { OnOk result (AreAt (decided_in line.new.count) banks.new) }
{
    line.feed_threads(rt, block)?;
    banks.read_beside(rt, line.line(), bank, block)
}
