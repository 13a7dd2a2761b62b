//! The frame that the data of a block open with.
//!
//! The data begin with a flag or more, octet by octet. What follows them is a frame only if no flag and no abort ends
//! before the frame does, so the first event after them decides.

ghost use Rattle.std.specs.Prelude.{◌≡◌, ℕ, ◌<◌, ◌≤◌, List, All, length, IfSome};
ghost use Rattle.std.specs.Option.{IfNone};
ghost use Rattle.hdlc_framer.specs.BitOrder.{sent_bits};
ghost use Rattle.hdlc_framer.specs.Held.{StandsFor};
ghost use Rattle.hdlc_framer.specs.Stuffing.{flag};
ghost use Rattle.fx25_blocks.specs.BlockEnds.{OpensWithFrame};
ghost use Rattle.fx25_blocks.specs.Opening.{BeginsWithFrame, Leading};

use crate::packing::unpack;
use arrayvec::ArrayVec;
use hdlc_framer::{Deframer, Event, MOST_FRAME_LENGTH};

// The flag as an octet.
const FLAG: u8 = 0x7E;

/// A frame out of a block.
#[derive(Drop)]
pub struct BlockFrame {
    /// The octets of the frame, without its check sequence.
    pub octets: ArrayVec<u8, MOST_FRAME_LENGTH>,
    /// After how many bits of the block the flag after the frame is over.
    pub over: usize,
}

// The frame with which the bits of octets open, after one flag or more.
pub fn opening_frame(octets: &[u8]) -> Option<BlockFrame>
    requires { length octets.now ≤ 255 }
    ensures frame { IfSome result (λ found. OpensWithFrame (sent_bits octets.now) found.octets.items found.over) }
    ensures none { IfNone result ((frame : List ℕ) → (over : ℕ) → ¬ OpensWithFrame (sent_bits octets.now) frame over) }
{
    let count = leading_flags(octets);
    if count == 0 {
        return None;
    }
    let bits = unpack(&octets[count..]);
    match first_frame(bits.as_slice()) {
        None => None,
        Some(found) => Some(BlockFrame {
            octets: found.octets,
            over: 8 * count + found.over,
        }),
    }
}

// How many flags octets begin with.
fn leading_flags(octets: &[u8]) -> usize
    ensures leading { Leading result octets.now }
    ensures range { All (λ octet. octet < 256) octets.now }
{
    for (i, octet) in octets.iter().enumerate() {
        if *octet != FLAG {
            return i;
        }
    }
    octets.len()
}

// The frame with which bits begin that follow a flag.
fn first_frame(bits: &[bool]) -> Option<BlockFrame>
    requires { length bits.now ≤ 2040 }
    ensures frame { IfSome result (λ found. BeginsWithFrame bits.now found.octets.items found.over) }
    ensures none { IfNone result ((frame : List ℕ) → (over : ℕ) → ¬ BeginsWithFrame bits.now frame over) }
    ensures within { IfSome result (λ found. found.over ≤ 2040) }
{
    let mut deframer = after_flag();
    for i in 0..bits.len() {
        match deframer.push(bits[i]) {
            Event::None => {}
            Event::Frame => {
                return Some(BlockFrame {
                    octets: copy(deframer.octets()),
                    over: i + 1,
                });
            }
            Event::Flag => return None,
            Event::Abort => return None,
        }
    }
    None
}

// A deframer that has taken a flag.
fn after_flag() -> Deframer
    ensures { StandsFor result flag }
{
    let flag = [false, true, true, true, true, true, true, false];
    let mut deframer = Deframer::new();
    for i in 0..8 {
        deframer.push(flag[i]);
    }
    deframer
}

fn copy(octets: &[u8]) -> ArrayVec<u8, MOST_FRAME_LENGTH>
    requires { length octets.now ≤ 1024 }
    ensures { result.items ≡ octets.now }
{
    let mut copy = ArrayVec::new();
    for octet in octets {
        copy.push(*octet);
    }
    copy
}
