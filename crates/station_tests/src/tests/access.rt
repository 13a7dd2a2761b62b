//! Access to the channel: when transmissions begin, and what they are.
ghost use Rattle.std.specs.Prelude.{IfOk};
ghost use Rattle.hdlc_framer.specs.FrameLength.{HasFrameLength};

use crate::assert_equal;
use afsk_modulator::transmission;
use channel_access::{
    Access, CheckOctets, Modem, Param, a_tick_is_a_part_of_the_whole, decisions_add_bits,
    the_end_is_a_transmission,
};
use fx25_sender::fx25_transmission;
use hf_sender::hf_transmission;
use std::alloc::Global;
use std::test::Fail;
use tnc_base::Octets;

/// SABM with P from N7LEM to NJ7P, the shortest frame. It is sent as 138 bits.
const SHORTEST: &[u8; 15] = b"\x9c\x94\x6e\xa0\x40\x40\xe0\x9c\x6e\x98\x8a\x9a\x40\x61\x3f";

fn shortest(alloc: Global) -> Result<Octets, Fail>
    ensures { IfOk result HasFrameLength }
{
    Ok(Octets::from_slice(alloc, SHORTEST.as_slice())?)
}

/// An access in which so many frames wait, each of the link of its number.
fn access(alloc: Global, seed: u64, frames: u32) -> Result<Box<Access>, Fail> {
    access_by(alloc, Modem::Bell202, seed, frames)
}

/// The same by a modem. A test that owns a box is proved faster.
fn access_by(alloc: Global, modem: Modem, seed: u64, frames: u32) -> Result<Box<Access>, Fail> {
    let mut access = Box::new(alloc, Access::new(alloc, modem, seed)?)?;
    for link in 0..frames {
        let _ = access.queue(Some(link), shortest(alloc)?);
    }
    Ok(access)
}

/// With two flags before and one after, at once.
fn quick_access(alloc: Global, frames: u32) -> Result<Box<Access>, Fail> {
    let mut access = access(alloc, 1, frames)?;
    for param in [Param::TxDelay(0), Param::TxTail(0), Param::FullDuplex(true)] {
        access.set(param);
    }
    Ok(access)
}

/// A tick while the channel is busy, whose samples go after the others: whether it begins, how many of them had come
/// when a frame was sent, and whether the frame of link 0 waits.
fn tick_into(
    samples: &mut Vec<i16>,
    access: &mut Access,
) -> Result<(bool, Option<u8>, bool), Fail> {
    let air = access.tick(true, false);
    samples.extend_from_slice(air.samples.as_slice())?;
    let after = air.sent.map(|sent| sent.after);
    Ok((air.began, after, access.waiting(0)))
}

/// The shortest frame alone.
fn one_frame(alloc: Global) -> Result<Vec<Octets>, Fail> {
    let mut frames = Vec::new(alloc);
    frames.push(shortest(alloc)?)?;
    Ok(frames)
}

/// The samples of the shortest frame with its flags.
fn shortest_transmission(alloc: Global) -> Result<Vec<i16>, Fail> {
    Ok(transmission(alloc, &one_frame(alloc)?, 45, 3)?)
}

// 48 flags and 138 bits are 522 bits, in 44 ticks of 12. The flag after the frame ends with bit 506, the second of
// tick 43.
#[test]
fn the_shortest_frame_is_one_transmission(rt: HostRuntime) -> Result<(), Fail> {
    let mut access = access(rt.alloc(), 1, 1)?;
    access.set(Param::FullDuplex(true));
    let mut samples = Vec::new(rt.alloc());
    for tick in 1..46_u32 {
        let got = tick_into(&mut samples, &mut access)?;
        let last = if tick == 43 { Some(16) } else { None };
        let want = (tick == 1, last, tick < 43);
        assert_equal(&rt, &(tick, got), &(tick, want));
    }
    let mut expected = shortest_transmission(rt.alloc())?;
    assert_equal(&rt, &expected.len(), &(8 * 522));
    expected.resize(45 * 96, 0)?;
    assert_equal(&rt, &samples, &expected);
    Ok(())
}

// 12 flags before the frame, 138 bits and a flag after it are 242 bits, in 81 ticks of 3, the last of them with 2.
#[test]
fn on_short_wave_a_tick_has_three_bits(rt: HostRuntime) -> Result<(), Fail> {
    let mut access = access_by(rt.alloc(), Modem::ShortWave, 1, 1)?;
    access.set(Param::FullDuplex(true));
    let mut samples = Vec::new(rt.alloc());
    for tick in 1..84_u32 {
        let got = tick_into(&mut samples, &mut access)?;
        let last = if tick == 81 { Some(64) } else { None };
        let want = (tick == 1, last, tick < 81);
        assert_equal(&rt, &(tick, got), &(tick, want));
    }
    let mut expected = hf_transmission(rt.alloc(), 10000, &one_frame(rt.alloc())?, 12, 1)?;
    assert_equal(&rt, &expected.len(), &(32 * 242));
    expected.resize(83 * 96, 0)?;
    assert_equal(&rt, &samples, &expected);
    Ok(())
}

// 45 flags, 448 bits of a tag and its block, and 3 flags are 832 bits, in 70 ticks of 12. The flag after the block ends
// with bit 816, the last of tick 68.
#[test]
fn a_frame_goes_out_in_a_block(rt: HostRuntime) -> Result<(), Fail> {
    let mut access = access_by(rt.alloc(), Modem::Fx25(CheckOctets::Sixteen), 1, 1)?;
    access.set(Param::FullDuplex(true));
    let mut samples = Vec::new(rt.alloc());
    for tick in 1..72_u32 {
        let got = tick_into(&mut samples, &mut access)?;
        let last = if tick == 68 { Some(96) } else { None };
        let want = (tick == 1, last, tick < 68);
        assert_equal(&rt, &(tick, got), &(tick, want));
    }
    let mut expected = fx25_transmission(rt.alloc(), 16, 10000, &one_frame(rt.alloc())?, 45, 3)?;
    assert_equal(&rt, &expected.len(), &(8 * 832));
    expected.resize(71 * 96, 0)?;
    assert_equal(&rt, &samples, &expected);
    Ok(())
}

#[test]
fn the_513th_frame_is_handed_back(rt: HostRuntime) -> Result<(), Fail> {
    let mut access = access(rt.alloc(), 1, 512)?;
    let back = access.queue(None, shortest(rt.alloc())?).err();
    let len = back.map(|octets| octets.len());
    assert_equal(&rt, &(len, access.len()), &(Some(15), 512));
    Ok(())
}

/// Each row: the seed, the persistence, the slot time, the busy tick, and the tick that begins. The draws of seed 1 are
/// 145, 116, 87, 211, 86, 121 and 38, of seed 2 102 and 40, of seed 8 56. After the busy tick a slot passes first.
const DRAWS: &[(u64, u8, u8, u32, u32)] = &[
    (8, 63, 2, 0, 1),
    (8, 56, 2, 0, 1),
    (2, 63, 2, 0, 4),
    (2, 102, 2, 0, 1),
    (2, 101, 2, 0, 4),
    (2, 63, 0, 0, 2),
    (2, 63, 2, 2, 5),
    (8, 63, 2, 1, 4),
    (1, 63, 1, 0, 13),
];

#[test]
fn a_draw_begins_in_a_free_slot(rt: HostRuntime) -> Result<(), Fail> {
    for (seed, persist, slot_time, busy, begins) in DRAWS {
        let mut access = access(rt.alloc(), *seed, 1)?;
        access.set(Param::Persist(*persist));
        access.set(Param::SlotTime(*slot_time));
        for tick in 1..begins.saturating_add(3) {
            let began = access.tick(tick == *busy, false).began;
            assert_equal(&rt, &(*seed, tick, began), &(*seed, tick, tick == *begins));
        }
    }
    Ok(())
}

/// Each row: what comes to pass, and the tick that begins the last transmission. `.` is a free tick, `b` a busy one,
/// `o` a frame for a link of the station that is heard, `x` one for somebody else, and `q` a frame that joins the
/// queue. The slot time is 2, and of the draws of seed 2 the first, 102, is above P and the second, 40, is not.
const TURNS: &[(&str, u32)] = &[
    ("..bbobbq.", 7),
    ("..bbobb....q.", 11),
    (".bbobbq....", 9),
    ("..bbxbbq......", 12),
    ("..bboxbbq......", 12),
    ("..bbobb.b...q....", 15),
    ("..bbobbq..............q......", 26),
];

/// The last tick in which a transmission begins.
fn last_begin(alloc: Global, access: &mut Access, script: &str) -> Result<u32, Fail> {
    let mut tick = 0_u32;
    let mut last = 0_u32;
    for step in script.as_bytes() {
        match *step {
            b'q' => {
                let _ = access.queue(None, shortest(alloc)?);
            }
            b'o' => access.heard(true),
            b'x' => access.heard(false),
            free_or_busy => {
                tick = tick.saturating_add(1);
                if access.tick(free_or_busy == b'b', false).began {
                    last = tick;
                }
            }
        }
    }
    Ok(last)
}

#[test]
fn who_was_spoken_to_has_the_turn(rt: HostRuntime) -> Result<(), Fail> {
    for (script, begins) in TURNS {
        let mut access = access(rt.alloc(), 2, 0)?;
        for param in [Param::TxDelay(0), Param::TxTail(0), Param::SlotTime(2)] {
            access.set(param);
        }
        let last = last_begin(rt.alloc(), &mut access, script)?;
        assert_equal(&rt, &(*script, last), &(*script, *begins));
    }
    Ok(())
}

#[test]
fn nothing_begins_without_a_frame(rt: HostRuntime) -> Result<(), Fail> {
    let mut access = quick_access(rt.alloc(), 0)?;
    assert!(rt; !access.tick(false, false).began);
    decisions_add_bits();
    the_end_is_a_transmission();
    a_tick_is_a_part_of_the_whole();
    Ok(())
}

// Eight frames, seven flags between them and three round them are 1184 bits, in 99 ticks.
#[test]
fn eight_frames_are_one_transmission(rt: HostRuntime) -> Result<(), Fail> {
    let mut access = quick_access(rt.alloc(), 9)?;
    for tick in 1..101_u32 {
        let began = access.tick(true, false).began;
        assert_equal(&rt, &(tick, began), &(tick, tick == 1 || tick == 100));
    }
    assert_equal(&rt, &(access.len(), access.waiting(8)), &(1, true));
    Ok(())
}

/// A second frame comes after a tick. Tells how many transmissions begin, and what the last tick sends.
fn joined(
    alloc: Global,
    access: &mut Access,
    comes: u32,
    last: u32,
) -> Result<(u32, Option<u8>), Fail> {
    let mut began = 0_u32;
    let mut sent = None;
    for tick in 1..last.saturating_add(1) {
        let air = access.tick(true, false);
        began = began.saturating_add(u32::from(air.began));
        sent = air.sent.map(|sent| sent.after);
        if tick == comes {
            let _ = access.queue(None, shortest(alloc)?);
        }
    }
    Ok((began, sent))
}

/// Each row: the tick after which the second frame comes, how many transmissions begin, the tick in which the second
/// frame is sent, and how many of its samples had come then.
const JOINED: &[(u32, u32, u32, u8)] = &[(12, 1, 26, 64), (13, 2, 28, 48)];

// The last bit of the first frame is bit 154, in tick 13: what comes after that tick waits for the next transmission.
#[test]
fn a_frame_joins_before_the_end_of_the_one_before(rt: HostRuntime) -> Result<(), Fail> {
    for (comes, transmissions, last, after) in JOINED {
        let mut access = quick_access(rt.alloc(), 1)?;
        let (began, sent) = joined(rt.alloc(), &mut access, *comes, *last)?;
        let got = (*comes, began, sent, access.len());
        assert_equal(&rt, &got, &(*comes, *transmissions, Some(*after), 0));
    }
    Ok(())
}

/// A link wants to send in the first tick, and its frame comes before a tick. Tells how many transmissions begin, and the
/// tick in which the frame is sent.
fn late(alloc: Global, access: &mut Access, comes: u32) -> Result<(u32, u32), Fail> {
    let mut began = 0_u32;
    let mut sent = 0_u32;
    for tick in 1..20_u32 {
        if tick == comes {
            let _ = access.queue(Some(0), shortest(alloc)?);
        }
        let air = access.tick(true, tick == 1);
        began = began.saturating_add(u32::from(air.began));
        if air.sent.is_some() {
            sent = tick;
        }
    }
    Ok((began, sent))
}

/// Each row: the tick before which the frame comes, how many transmissions begin, and the tick in which it is sent.
const LATE: &[(u32, u32, u32)] = &[(1, 1, 14), (2, 1, 14), (3, 2, 16)];

// Two opening flags end in tick 2. A frame that waits then follows, and else a closing flag ends the transmission with that
// tick.
#[test]
fn a_transmission_begins_with_its_flags_alone(rt: HostRuntime) -> Result<(), Fail> {
    for (comes, transmissions, last) in LATE {
        let mut access = quick_access(rt.alloc(), 0)?;
        let got = late(rt.alloc(), &mut access, *comes)?;
        assert_equal(&rt, &(*comes, got), &(*comes, (*transmissions, *last)));
    }
    Ok(())
}

/// A link gives a frame whenever the channel takes one. Tells before which ticks it does, and whether the frame is the
/// last.
fn taken(alloc: Global, access: &mut Access) -> Result<Vec<(u32, bool)>, Fail> {
    let mut ticks = Vec::new(alloc);
    for tick in 1..100_u32 {
        if access.takes_frame() {
            ticks.push((tick, access.takes_last()))?;
            let _ = access.queue(Some(0), shortest(alloc)?);
        }
        access.tick(true, true);
    }
    Ok(ticks)
}

/// The ticks in which the opening flags and the frames end: bit 16, and every 146 bits after 154.
const TAKEN: [(u32, bool); 8] = [
    (2, false),
    (13, false),
    (25, false),
    (38, false),
    (50, false),
    (62, false),
    (74, false),
    (86, true),
];

#[test]
fn eight_frames_are_taken_one_by_one(rt: HostRuntime) -> Result<(), Fail> {
    let mut access = quick_access(rt.alloc(), 0)?;
    let ticks = taken(rt.alloc(), &mut access)?;
    assert_equal(&rt, &ticks.as_slice(), &TAKEN.as_slice());
    Ok(())
}
