//! The block of a frame, as it is sent.

ghost use Rattle.std.specs.Prelude.{◌≡◌, ◌+◌, ◌*◌, ◌≤◌, ◌++◌, length, take, IfOk, IfSome, OnOk};
ghost use Rattle.std.specs.Option.{IfNone};
ghost use Rattle.arrayvec.specs.ArrayVec.{array_vec_len};
ghost use Rattle.hdlc_framer.specs.BitOrder.{sent_bits};
ghost use Rattle.fx25_blocks.specs.Blocks.{bits_needed, padded};
ghost use Rattle.fx25_blocks.specs.Tags.{IsTag, data_count, tag_bits};
ghost use Rattle.fx25_blocks.specs.Units.{FitsNoTag, IsBlockUnit, IsUnit};
ghost use Rattle.fx25_blocks.specs.Written.{Carries, IsWritten};

use crate::block_code::block_code;
use crate::packing::{Word, are_octets, bits_of_64, pack, unpack};
use crate::tag_choice::tag_for;
use crate::tags::{data_count, tag_value};
use hdlc_framer::stuff;
use reed_solomon::check_octets;
use std::alloc::Global;
use std::slice::from_ref;
use tnc_base::{Octets, OutOfMemory};

// The most data octets that follow a tag.
const MOST_DATA: u16 = 239;

// How many bits of flags after a frame are more than the one flag that it needs.
const MORE_FLAG_BITS: usize = 1904;

/// The tag and the block of a frame, bit by bit, with so many check octets: 16, 32 or 64, and the fewest data octets
/// into which the frame fits. `None` if no tag has as many check octets, or if the frame fits into the data octets of
/// none of them.
pub fn write_block(
    alloc: Global,
    checks: usize,
    frame: &Octets,
) -> Result<Option<Vec<bool>>, OutOfMemory>
    ensures block { IfOk result (λ block. IfSome block (λ bits. IsBlockUnit checks frame.now bits.items)) }
    ensures none { IfOk result (λ block. IfNone block (FitsNoTag checks (bits_needed frame.now))) }
{
    let line = data_line(alloc, frame, MOST_DATA)?;
    let sent = line.as_slice();
    match tag_for(checks, sent.len() - MORE_FLAG_BITS) {
        None => Ok(None),
        Some(tag) => {
            let bits = tagged(alloc, tag, &sent[..8 * data_count(tag)])?;
            Ok(Some(bits))
        }
    }
}

/// A frame as it stands between the flags of a transmission: the tag and its block, or if it fits into none, a flag,
/// the frame and a flag.
pub fn write_unit(alloc: Global, checks: usize, frame: &Octets) -> Result<Vec<bool>, OutOfMemory>
    ensures { IfOk result (λ bits. IsUnit checks frame.now bits.items) }
{
    match write_block(alloc, checks, frame)? {
        Some(bits) => Ok(bits),
        None => {
            let line = data_line(alloc, frame, 1)?;
            Ok(line)
        }
    }
}

// A flag, the frame with its check sequence and its inserted zeros, and so many flags.
fn data_line(alloc: Global, frame: &Octets, count: u16) -> Result<Vec<bool>, OutOfMemory>
    ensures { IfOk result (λ line. line.items ≡ padded frame.now count) }
{
    let line = stuff(alloc, from_ref(frame), 1, count)?;
    Ok(line)
}

// A tag and the block that carries some bits.
fn tagged(alloc: Global, tag: u8, line: &[bool]) -> Result<Vec<bool>, OutOfMemory>
    requires tag { IsTag tag }
    requires size { length line.now ≡ 8 * data_count tag }
    ensures { IfOk result (λ bits. IsWritten tag line.now bits.items) }
{
    let block = block_of(tag, line);
    let mut bits = Vec::new(alloc);
    bits.extend_from_slice(bits_of_64(tag_value(tag)).as_slice())?;
    bits.extend_from_slice(unpack(block.as_slice()).as_slice())?;
    Ok(bits)
}

/// The data and check octets of a tag that carry some bits, as many as the tag's data octets have. It takes no memory.
pub fn block_of(tag: u8, line: &[bool]) -> Word
    requires tag { IsTag tag }
    requires size { length line.now ≡ 8 * data_count tag }
    ensures { Carries tag line.now result.items }
{
    let mut block = pack(line, data_count(tag));
    let checks = check_octets(&block_code(tag), block.as_slice());
    push_all(&mut block, checks.as_slice());
    are_octets(block.as_slice());
    block
}

fn push_all(word: &mut Word, octets: &[u8])
    requires { array_vec_len word.old + length octets.now ≤ 255 }
    ensures { word.new.items ≡ word.old.items ++ octets.now }
{
    for octet in octets {
        word.push(*octet);
    }
}
