//! Exchanges between two real links, A and B, as lines of text: what happens, and after a bar what the end is told at
//! the last of that, and how many frames are then in flight to A and to B. The rows of `machine` have those frames.
//!
//! What happens is a list of words: the end, and after a colon `connect`, `send/7` (a packet of the octet 7), `sends/3`
//! (packets of the octets 0, 1 and 2), `disconnect`, `ticks/200`, `turns/4` (the channel takes
//! four frames), `hears/2` (the next two frames), and `loses/0`, the
//! frame at that place of those towards the end.
use crate::tests::assertions::assert_equal;
use crate::tests::packets::packet;
use crate::tests::script::{Subject, assert_exchange, octet, parts, push_told};
use link_machine::{NewFault, Params};
use link_world::{End, Event, World, prefix_law, tags_do_not_matter};
use selective_reject::Mode;
use std::alloc::Global;
use std::process::Abort;
use std::test::Fail;

impl Subject for World {
    fn happen(&mut self, alloc: Global, word: &str, text: &mut String) -> Result<(), Fail> {
        let (end, word) = word.split_once(':').unwrap_or(("A", word));
        let end = if end == "B" { End::B } else { End::A };
        let (name, number, _, _) = parts(word);
        for place in 0..times(name, number) {
            let number = if name == "sends" { place } else { number };
            apply(alloc, self, event_of(alloc, end, name, number)?, text)?;
        }
        let (to_a, to_b) = (self.flight(End::A), self.flight(End::B));
        text.push_str(format!(in alloc; " {to_a} {to_b}")?.as_str())?;
        Ok(())
    }
}

/// How often the event of a word happens.
fn times(name: &str, number: u16) -> u16 {
    match name {
        "sends" | "ticks" | "turns" | "hears" => number,
        _ => 1,
    }
}

fn event_of(alloc: Global, end: End, name: &str, number: u16) -> Result<Event, Fail> {
    Ok(match name {
        "connect" => Event::Connect(end),
        "send" | "sends" => Event::Send(end, packet(alloc, &[octet(number)])?),
        "disconnect" => Event::Disconnect(end),
        "ticks" => Event::Tick(end, false),
        "turns" => Event::Seize(end, false, false),
        "loses" => Event::Lose(end, usize::from(number)),
        _ => Event::Hear(end),
    })
}

/// Appends what the end is told, or why the event is refused.
fn apply(alloc: Global, world: &mut World, event: Event, text: &mut String) -> Result<(), Fail> {
    match world.apply(event) {
        Ok(told) => push_told(alloc, &told, text),
        Err(fault) => {
            text.push_str(format!(in alloc; "{fault:?},")?.as_str())?;
            Ok(())
        }
    }
}

/// Asserts the lines of a new world.
fn assert_world<R: Abort>(
    rt: &R,
    alloc: Global,
    a: Params,
    b: Params,
    lines: &str,
) -> Result<(), Fail> {
    let mut world = World::new(alloc, a, b)?;
    assert_exchange(rt, alloc, &mut world, lines)
}

fn by_rej(window: u8) -> Params {
    Params {
        window,
        ..Params::default()
    }
}

/// Ten packets by REJ with a window of seven. Frame 3 is lost, is asked for once, and all from it on are sent again.
const GO_BACK: &str = "A:connect B:hears/1 A:hears/1 | opened by us, 0 0
A:sends/10 | 0 0
A:turns/8 | 0 7
B:loses/3 | 0 6
B:hears/6 | given 0,given 1,given 2, 0 0
B:turns/2 | 1 0
A:hears/1 | 0 0
A:turns/8 | 0 7
B:hears/7 | given 3,given 4,given 5,given 6,given 7,given 8,given 9, 0 0";

#[test]
fn rej_sends_again_from_the_lost_frame_on(rt: HostRuntime) -> Result<(), Fail> {
    assert_world(&rt, rt.alloc(), by_rej(7), by_rej(7), GO_BACK)
}

/// Four packets by SREJ with a window of four. Frame 0 is lost, is asked for once, and alone is sent again. RR for all
/// lets four more go.
const ONE_AGAIN: &str = "A:connect B:hears/1 A:hears/1 A:sends/4 A:turns/5 B:loses/0 | 0 3
B:hears/3 | 0 0
B:turns/3 | 2 0
A:hears/2 A:turns/2 | 0 1
B:hears/1 | given 0,given 1,given 2,given 3, 0 0
B:turns/2 | 1 0
A:hears/1 A:sends/5 A:turns/5 | 0 4";

#[test]
fn srej_sends_the_lost_frame_again(rt: HostRuntime) -> Result<(), Fail> {
    let params = Params {
        mode: Mode::Srej,
        ..Params::default()
    };
    assert_world(&rt, rt.alloc(), params, params, ONE_AGAIN)
}

/// Both call, and the UA to A is lost: A calls again, and B begins anew.
const BOTH_CALL: &str = "A:connect B:connect B:hears/1 A:hears/1 | 1 1
B:hears/1 | opened by us, 1 0
A:loses/0 | 0 0
A:ticks/200 | 0 1
B:hears/1 | ended Reset,opened, 1 0
A:hears/1 | opened by us, 0 0";

#[test]
fn both_call_and_an_answer_is_lost(rt: HostRuntime) -> Result<(), Fail> {
    assert_world(&rt, rt.alloc(), by_rej(4), by_rej(4), BOTH_CALL)
}

/// What is not there, what the link refuses, and the repeat of a SABM that is still in flight, from which on the world
/// refuses all.
const REFUSED: &str = "A:hears/1 | NothingThere, 0 0
A:send/1 | Link(WrongState { state: Idle, quit: false }), 0 0
A:disconnect | Link(WrongState { state: Idle, quit: false }), 0 0
A:connect | 0 1
B:loses/1 | NothingThere, 0 1
A:connect | Link(WrongState { state: Calling, quit: false }), 0 1
A:ticks/199 | 0 1
A:ticks/1 | NotQuiet { index: 206 }, 0 1
B:hears/1 | NotQuiet { index: 206 }, 0 1
A:hears/1 | NotQuiet { index: 206 }, 0 1";

#[test]
fn events_are_refused(rt: HostRuntime) -> Result<(), Fail> {
    assert_world(&rt, rt.alloc(), by_rej(4), by_rej(4), REFUSED)
}

/// A takes its call back while the SABM is in flight: DM ends what that opens, and A may call again.
const TAKEN_BACK: &str = "A:connect | 0 1
A:disconnect | ended Asked, 0 2
B:hears/1 | opened, 1 1
B:hears/1 | ended Peer, 1 0
A:hears/1 | 0 0
A:connect | 0 1";

#[test]
fn a_call_is_taken_back(rt: HostRuntime) -> Result<(), Fail> {
    assert_world(&rt, rt.alloc(), by_rej(4), by_rej(4), TAKEN_BACK)
}

/// The repeat comes with the 201st call. From there on the laws say nothing.
#[test]
fn a_repeat_is_not_quiet(rt: HostRuntime) -> Result<(), Fail> {
    prefix_law();
    tags_do_not_matter();
    let repeat = "A:connect A:ticks/200 | NotQuiet { index: 201 }, 0 1";
    assert_world(&rt, rt.alloc(), by_rej(4), by_rej(4), repeat)
}

/// A calls modulo 128 and B modulo 8, at once. B declines SABME, A passes over SABM and goes on modulo 8, and B agrees.
/// B calls again, and both are up modulo 8: their windows are those of 4 and not those of 32.
const CROSSING: &str = "A:connect | 0 1
B:connect | 1 1
B:hears/1 | 2 0
A:hears/1 | 1 0
A:hears/1 | 0 1
B:hears/1 | 1 0
A:hears/1 | opened by us, 0 0
B:ticks/200 | 1 0
A:hears/1 | ended Reset,opened, 0 1
B:hears/1 | opened by us, 0 0
A:sends/5 A:turns/5 | 0 4
B:sends/5 B:turns/5 | 4 4";

#[test]
fn a_wide_and_a_narrow_call_cross(rt: HostRuntime) -> Result<(), Fail> {
    let wide = Params {
        wide: true,
        ..Params::default()
    };
    assert_world(&rt, rt.alloc(), wide, Params::default(), CROSSING)
}

/// 130 packets modulo 128 by REJ with a window of 127: N(S) 0 to 126 go out, and 127, 0 and 1 once all are
/// acknowledged.
const WHOLE_WINDOW: &str = "A:connect B:hears/1 A:hears/1 A:sends/130 A:turns/127 | 0 127
B:hears/127 B:turns/2 | 1 0
A:hears/1 A:turns/4 | 0 3
B:hears/3 | given 127,given 128,given 129, 0 0";

#[test]
fn a_wide_window_is_sent_whole(rt: HostRuntime) -> Result<(), Fail> {
    let wide = Params {
        wide: true,
        wide_mode: Mode::Rej,
        wide_window: 127,
        ..Params::default()
    };
    assert_world(&rt, rt.alloc(), wide, wide, WHOLE_WINDOW)
}

#[test]
fn windows_are_refused(rt: HostRuntime) -> Result<(), Fail> {
    let large = Params {
        mode: Mode::Srej,
        window: 5,
        ..Params::default()
    };
    let wide = Params {
        wide_window: 128,
        ..Params::default()
    };
    for (a, b, bad) in [(large, wide, 5), (by_rej(1), large, 5), (wide, large, 128)] {
        let found = World::new(rt.alloc(), a, b).err();
        assert_equal(&rt, &found, &Some(NewFault::BadWindow { window: bad }));
    }
    Ok(())
}
