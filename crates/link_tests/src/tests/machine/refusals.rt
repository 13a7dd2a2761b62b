//! What a link refuses.
use super::link::{idle, path};
use crate::tests::assertions::assert_equal;
use crate::tests::packets::packet;
use link_machine::{Link, LinkFault, LinkState, NewFault, Params};
use selective_reject::Mode;
use std::alloc::Global;
use std::process::Abort;
use std::test::Fail;

/// Why a request is refused in a state; `quit` says that a disconnect was asked for before.
fn wrong(state: LinkState, quit: bool) -> Option<LinkFault> {
    Some(LinkFault::WrongState { state, quit })
}

/// Why a packet is refused, if it is.
fn refused_packet(
    alloc: Global,
    link: &mut Link,
    octets: &[u8],
) -> Result<Option<LinkFault>, Fail> {
    Ok(link.send(packet(alloc, octets)?).err())
}

/// Asserts that an idle link refuses a packet, one that calls a second call, and an idle one a disconnect.
fn assert_refuses_requests<R: Abort>(rt: &R, alloc: Global, link: &mut Link) -> Result<(), Fail> {
    let early = refused_packet(alloc, link, b"x")?;
    link.connect()?;
    let again = link.connect().err();
    link.disconnect()?;
    let late = link.disconnect().err();
    let idle = wrong(LinkState::Idle, false);
    let calling = wrong(LinkState::Calling, false);
    assert_equal(rt, &[early, again, late], &[idle, calling, idle]);
    Ok(())
}

#[test]
fn requests_are_refused_in_a_state(rt: HostRuntime) -> Result<(), Fail> {
    let mut link = idle(rt.alloc(), Params::default())?;
    assert_refuses_requests(&rt, rt.alloc(), &mut link)
}

/// Sends packets of one octet.
fn send_short(alloc: Global, link: &mut Link, count: usize) -> Result<(), Fail> {
    for _ in 0..count {
        if refused_packet(alloc, link, b"x")?.is_some() {
            return Err(Fail::new("a packet is refused"));
        }
    }
    Ok(())
}

/// Asserts that a link refuses a packet of 257 octets, and after one of 256 and 1023 short ones the next.
fn assert_refuses_packets<R: Abort>(rt: &R, alloc: Global, link: &mut Link) -> Result<(), Fail> {
    link.connect()?;
    let long = refused_packet(alloc, link, &[0x41; 257])?;
    assert_equal(rt, &long, &Some(LinkFault::TooLong { len: 257 }));
    let longest = refused_packet(alloc, link, &[0x41; 256])?;
    assert_equal(rt, &(longest, link.state()), &(None, LinkState::Calling));
    send_short(alloc, link, 1023)?;
    assert_equal(rt, &link.pending(), &1024);
    let full = refused_packet(alloc, link, b"x")?;
    assert_equal(rt, &full, &Some(LinkFault::Full));
    Ok(())
}

#[test]
fn packets_are_refused(rt: HostRuntime) -> Result<(), Fail> {
    let mut link = idle(rt.alloc(), Params::default())?;
    assert_refuses_packets(&rt, rt.alloc(), &mut link)
}

/// Each row: the mode and the window of either modulus, and the window that is refused, or 255, which no window is.
const WINDOWS: &[(Mode, u8, Mode, u8, u8)] = &[
    (Mode::Rej, 0, Mode::Rej, 32, 0),
    (Mode::Rej, 7, Mode::Rej, 127, 255),
    (Mode::Rej, 8, Mode::Rej, 0, 8),
    (Mode::Rej, 7, Mode::Rej, 128, 128),
    (Mode::Rej, 7, Mode::Rej, 0, 0),
    (Mode::Srej, 4, Mode::Srej, 64, 255),
    (Mode::Srej, 5, Mode::Srej, 65, 5),
    (Mode::Srej, 4, Mode::Srej, 65, 65),
    (Mode::Rej, 7, Mode::Srej, 64, 255),
    (Mode::Rej, 7, Mode::Srej, 65, 65),
    (Mode::Srej, 4, Mode::Rej, 127, 255),
    (Mode::Srej, 5, Mode::Rej, 127, 5),
];

/// The window that a new link refuses, if it does.
fn refused(alloc: Global, params: Params) -> Result<u8, Fail> {
    Ok(match Link::new(alloc, params, path("B", "A")?) {
        Ok(_) => 255,
        Err(NewFault::BadWindow { window }) => window,
        Err(NewFault::Memory) => 254,
    })
}

#[test]
fn windows_are_refused(rt: HostRuntime) -> Result<(), Fail> {
    for (mode, window, wide_mode, wide_window, want) in WINDOWS {
        let params = Params {
            mode: *mode,
            window: *window,
            wide: false,
            wide_mode: *wide_mode,
            wide_window: *wide_window,
            ..Params::default()
        };
        assert_equal(&rt, &refused(rt.alloc(), params)?, want);
    }
    Ok(())
}
