//! How links are set up and released.
use super::link::{assert_rows, path, wide};
use crate::tests::assertions::assert_equal;
use ax25_frames::{Kind, write_frame};
use link_machine::{Link, Params, SentFrame};
use selective_reject::Mode;
use std::alloc::Global;
use std::test::Fail;
use tnc_base::Octets;

const IDLE: &str = "connect | A>B SABM cmd f=1,
SABM/0 | A>B UA rsp f=0,opened,
SABME/1 | A>B UA rsp f=1/128,opened,
DISC/0 | A>B DM rsp f=0,
I/0/0/1 | A>B DM rsp f=1,
I/0/0/0 |
I/2/0/0 I/3/0/1 | A>B DM rsp f=1,
I/3/0/1 I/2/0/0 |
RRc/0/1 | A>B DM rsp f=1,
RRc/0/0 |
RR/0/1 |
UA/1 |
FRMR |
UI |
XIDc/1/0 | A>B XID cmd f=1 len=27 8280001702022100030386880206020800080120090207d00a010a,
XIDc/0/2 look | Idle Eight
XID/1/2 |
ticks/4000 |
look | Idle Eight";

#[test]
fn rows_where_there_is_no_link(rt: HostRuntime) -> Result<(), Fail> {
    assert_rows(&rt, rt.alloc(), Params::default(), "", IDLE)
}

const CALLING: &str = "send/1 |
disconnect | A>B DM rsp f=0,ended Asked,
send/1 disconnect | A>B DM rsp f=0,ended Asked,
disconnect look | Idle Eight
disconnect UA/1 |
disconnect ticks/200 |
UA/1 | opened by us,
UA/0 |
send/7 UA/1 | opened by us,
send/7 UA/1 turns/1 | A>B I cmd ns=0 nr=0 p=0 pid=f0 len=1 07,
DM/1 | ended Refused,
DM/0 |
SABM/1 | A>B UA rsp f=1,
SABME/1 | A>B DM rsp f=1,
DISC/0 | A>B DM rsp f=0,
FRMR |
I/0/0/1 |
ticks/199 |
ticks/200 | A>B SABM cmd f=1,
ticks/199 waits/400 |
ticks/199 waits/400 ticks/1 | A>B SABM cmd f=1,
ticks/3600 ticks/800 | A>B SABM cmd f=1,
ticks/4400 ticks/999 |
ticks/4400 ticks/1000 | ended Failed,";

#[test]
fn rows_of_a_call(rt: HostRuntime) -> Result<(), Fail> {
    assert_rows(&rt, rt.alloc(), Params::default(), "connect", CALLING)
}

/// A T1 of one second, and two retries.
const HASTY: Params = Params {
    mode: Mode::Rej,
    window: 4,
    wide: false,
    wide_mode: Mode::Srej,
    wide_window: 32,
    t1: 100,
    retries: 2,
};

const CALLING_HASTILY: &str = "ticks/99 |
ticks/100 | A>B SABM cmd f=1,
ticks/200 | A>B SABM cmd f=1,A>B SABM cmd f=1,
ticks/299 ticks/1 | ended Failed,
UA/1 disconnect ticks/100 | A>B DISC cmd f=1,
UA/1 disconnect ticks/299 ticks/1 | ended Failed,";

/// The last retry of a wide call is SABM.
const CALLING_WIDE_HASTILY: &str = "ticks/100 | A>B SABME cmd f=1/128,
ticks/200 | A>B SABME cmd f=1/128,A>B SABM cmd f=1,
ticks/299 ticks/1 | ended Failed,";

#[test]
fn rows_of_a_call_with_two_retries(rt: HostRuntime) -> Result<(), Fail> {
    let wide = Params {
        wide: true,
        ..HASTY
    };
    assert_rows(&rt, rt.alloc(), HASTY, "connect", CALLING_HASTILY)?;
    assert_rows(&rt, rt.alloc(), wide, "connect", CALLING_WIDE_HASTILY)
}

const CALLING_WIDE: &str = "look | Calling OneTwentyEight
UA/1 look | Up OneTwentyEight
send/7 UA/1 turns/1 | A>B I cmd ns=0 nr=0 p=0 pid=f0 len=1 07/128,
DM/0 look | Calling OneTwentyEight
DM/1 | A>B SABM cmd f=1,
DM/1 look | Calling Eight
DM/1 UA/1 look | Up Eight
DM/1 DM/1 | ended Refused,
DM/1 DM/1 look | Idle Eight
SABM/1 |
SABME/1 | A>B UA rsp f=1/128,
SABME/1 look | Calling OneTwentyEight
DISC/0 | A>B DM rsp f=0/128,
disconnect | A>B DM rsp f=0/128,ended Asked,
disconnect look | Idle Eight
DM/1 disconnect | A>B DM rsp f=0,ended Asked,
FRMR | A>B SABM cmd f=1,
FRMR FRMR |
FRMR UA/1 | opened by us,
FRMR UA/1 look | Up Eight
send/7 FRMR UA/1 turns/1 | A>B I cmd ns=0 nr=0 p=0 pid=f0 len=1 07,
XID/1/0 |
I/0/0/1 |
ticks/200 | A>B SABME cmd f=1/128,
ticks/400 ticks/200 | A>B SABME cmd f=1/128,
ticks/600 ticks/200 | A>B SABM cmd f=1,
ticks/800 look | Calling Eight
ticks/800 ticks/399 |
ticks/800 UA/1 look | Up Eight
ticks/4400 ticks/1000 | ended Failed,
ticks/600 FRMR ticks/199 |
ticks/600 FRMR ticks/4400 ticks/1000 | ended Failed,
ticks/600 DM/1 ticks/4400 ticks/999 |
ticks/600 DM/1 ticks/4400 ticks/1000 | ended Failed,";

/// A call modulo 128 that is answered asks by XID, four times at most, and takes one answer.
const ASKING_BY_XID: &str =
    "ticks/1 | A>B XID cmd f=1 len=27 8280001702022100030386880206020800080120090207d00a010a/128,
ticks/1 ticks/199 |
ticks/200 ticks/1 | A>B XID cmd f=1 len=27 8280001702022100030386880206020800080120090207d00a010a/128,
ticks/1 waits/400 |
ticks/600 ticks/1 | A>B XID cmd f=1 len=27 8280001702022100030386880206020800080120090207d00a010a/128,
ticks/601 ticks/400 |
ticks/1 XID/1/2 ticks/400 |
ticks/1 XID/0/2 ticks/200 | A>B XID cmd f=1 len=27 8280001702022100030386880206020800080120090207d00a010a/128,
ticks/1 XID/1/2 sends/4 turns/4 | A>B I cmd ns=0 nr=0 p=0 pid=f0 len=1 00/128,A>B I cmd ns=1 nr=0 p=1 pid=f0 len=1 01/128,
ticks/1 XID/1/2 XID/1/1 sends/4 turns/4 | A>B I cmd ns=0 nr=0 p=0 pid=f0 len=1 00/128,\
A>B I cmd ns=1 nr=0 p=1 pid=f0 len=1 01/128,
XID/1/1 sends/2 turns/2 | A>B I cmd ns=0 nr=0 p=0 pid=f0 len=1 00/128,A>B I cmd ns=1 nr=0 p=0 pid=f0 len=1 01/128,
ticks/1 FRMR UA/1 ticks/400 |";

#[test]
fn rows_of_a_link_that_asks_by_xid(rt: HostRuntime) -> Result<(), Fail> {
    assert_rows(&rt, rt.alloc(), wide(), "connect UA/1", ASKING_BY_XID)
}

#[test]
fn rows_of_a_wide_call(rt: HostRuntime) -> Result<(), Fail> {
    assert_rows(
        &rt,
        rt.alloc(),
        wide(),
        "",
        "connect | A>B SABME cmd f=1/128,",
    )?;
    assert_rows(&rt, rt.alloc(), wide(), "connect", CALLING_WIDE)
}

const RELEASING: &str = "UA/1 | ended Asked,
DM/1 | ended Asked,
UA/0 |
DM/0 |
SABM/1 | A>B DM rsp f=1,
SABME/0 | A>B DM rsp f=0,
DISC/1 | A>B UA rsp f=1,
I/0/0/1 | A>B DM rsp f=1,
I/0/0/0 |
RRc/0/1 | A>B DM rsp f=1,
RR/0/1 |
ticks/200 | A>B DISC cmd f=1,
ticks/4400 ticks/1000 | ended Failed,";

#[test]
fn rows_of_a_release(rt: HostRuntime) -> Result<(), Fail> {
    assert_rows(
        &rt,
        rt.alloc(),
        Params::default(),
        "connect UA/1 disconnect",
        RELEASING,
    )
}

/// The octets of a set-up frame; none of another frame.
fn octets_of(alloc: Global, sent: &SentFrame) -> Result<Octets, Fail> {
    match sent.frame.kind {
        Kind::Setup { .. } => Ok(write_frame(alloc, &sent.frame, sent.modulus)?),
        _ => Ok(Octets::from_slice(alloc, &[])?),
    }
}

/// The octets of all frames.
fn octets_of_all(alloc: Global, frames: &[SentFrame]) -> Result<Vec<u8>, Fail> {
    let mut all = Vec::new(alloc);
    for sent in frames {
        let octets = octets_of(alloc, sent)?;
        all.extend_from_slice(octets.as_slice())?;
    }
    Ok(all)
}

/// The frames of a call modulo 128 from N7LEM to NJ7P.
fn frames_of_call(alloc: Global) -> Result<Vec<SentFrame>, Fail> {
    let mut link = Link::new(alloc, wide(), path("NJ7P", "N7LEM")?)?;
    frames_that_call(&mut link)
}

fn frames_that_call(link: &mut Link) -> Result<Vec<SentFrame>, Fail> {
    let acts = link.connect()?;
    Ok(acts.frames)
}

#[test]
fn a_wide_call_in_octets(rt: HostRuntime) -> Result<(), Fail> {
    let frames = frames_of_call(rt.alloc())?;
    let octets = octets_of_all(rt.alloc(), &frames)?;
    let call = b"\x9c\x94\x6e\xa0\x40\x40\xe0\x9c\x6e\x98\x8a\x9a\x40\x61\x7f";
    assert_equal(
        &rt,
        &(frames.len(), octets.as_slice()),
        &(1, call.as_slice()),
    );
    Ok(())
}
