//! What a link that is up sends, takes and asks for again.
use super::link::{assert_rows, idle, rej, srej, wide};
use crate::tests::script::assert_exchange;
use link_machine::Params;
use std::test::Fail;

const UP: &str = "send/1 |
send/1 wants | true
send/1 turns/2 | A>B I cmd ns=0 nr=0 p=0 pid=f0 len=1 01,
send/1 turns/1 wants | false
disconnect | A>B DISC cmd f=1,
send/1 disconnect |
send/1 turns/1 disconnect RR/1/0 | A>B DISC cmd f=1,
sends/6 turns/2 disconnect disconnect | A>B DISC cmd f=1,
sends/6 turns/2 disconnect disconnect look | Releasing Eight
sends/6 turns/2 disconnect disconnect UA/1 | ended Asked,
SABM/1 | A>B UA rsp f=1,ended Reset,opened,
SABME/1 | A>B UA rsp f=1/128,ended Reset,opened,
SABME/1 look | Up OneTwentyEight
DISC/1 | A>B UA rsp f=1,ended Peer,
DM/0 | ended Peer,
FRMR | A>B SABM cmd f=1,ended Reset,
UA/1 |
UI |
XID/0/2 |
XID/1/2 sends/2 turns/2 | A>B I cmd ns=0 nr=0 p=0 pid=f0 len=1 00,A>B I cmd ns=1 nr=0 p=0 pid=f0 len=1 01,
XIDc/1/0 | A>B XID cmd f=1 len=27 8280001702022100030382840206020800080104090207d00a010a,
XIDc/0/2 | A>B XID cmd f=0 len=27 8280001702022100030382840206020800080102090207d00a010a,
XIDc/1/9 | A>B XID cmd f=1 len=27 8280001702022100030382840206020800080104090207d00a010a,
XIDc/1/2 sends/4 turns/4 | A>B I cmd ns=0 nr=0 p=0 pid=f0 len=1 00,A>B I cmd ns=1 nr=0 p=1 pid=f0 len=1 01,
turns/1 |
RRc/0/1 |
RRc/0/1 turns/2 | A>B RR rsp nr=0 f=1,
send/1 RRc/0/1 turns/2 | A>B RR rsp nr=0 f=1,A>B I cmd ns=0 nr=0 p=0 pid=f0 len=1 01,
send/1 RR/1/0 | A>B SABM cmd f=1,ended Reset,
send/1 turns/1 RR/2/0 | A>B SABM cmd f=1,ended Reset,
RNR/0/0 send/1 turns/1 |
RNR/0/0 send/1 RR/0/0 turns/1 | A>B I cmd ns=0 nr=0 p=0 pid=f0 len=1 01,
RNR/0/0 ticks/200 turns/1 | A>B RR cmd nr=0 f=1,
send/1 turns/1 RNR/0/0 ticks/200 turns/1 | A>B RR cmd nr=0 f=1,
sends/2 turns/2 REJ/1/0 turns/2 | A>B I cmd ns=1 nr=0 p=0 pid=f0 len=1 01,
sends/2 turns/2 SREJ/0/0 turns/2 | A>B I cmd ns=0 nr=0 p=0 pid=f0 len=1 00,
sends/2 turns/2 SREJ/0/0 SREJ/0/0 turns/2 | A>B I cmd ns=0 nr=0 p=0 pid=f0 len=1 00,
sends/4 turns/4 SREJ/2/0 SREJ/0/0 turns/2 | A>B I cmd ns=0 nr=0 p=0 pid=f0 len=1 00,\
A>B I cmd ns=2 nr=0 p=0 pid=f0 len=1 02,
sends/4 turns/4 SREJ/2/0 REJ/3/0 turns/3 | A>B I cmd ns=3 nr=0 p=0 pid=f0 len=1 03,
send/1 turns/1 SREJ/1/0 turns/1 |
I/0/0/0 | given 0,
I/0/0/1 | given 0,
I/0/0/1 turns/2 | A>B RR rsp nr=1 f=1,
I/0/0/0 turns/2 | A>B RR rsp nr=1 f=0,
I/1/0/0 |
I/1/0/0 turns/2 | A>B REJ rsp nr=0 f=0,
I/1/0/0 turns/1 I/2/0/0 turns/2 | A>B REJ rsp nr=0 f=0,
I/1/0/0 I/2/0/1 turns/2 | A>B REJ rsp nr=0 f=1,
I/7/0/0 turns/2 | A>B RR rsp nr=0 f=0,
send/1 ticks/500 |
send/1 turns/1 ticks/199 turns/1 |
send/1 turns/1 ticks/200 |
send/1 turns/1 ticks/200 turns/2 | A>B I cmd ns=0 nr=0 p=1 pid=f0 len=1 01,
send/1 turns/1 ticks/199 waits/400 turns/1 |
send/1 turns/1 ticks/200 turns/1 RR/0/1 turns/2 | A>B I cmd ns=0 nr=0 p=0 pid=f0 len=1 01,
ticks/29999 turns/1 |
ticks/30000 turns/1 | A>B RR cmd nr=0 f=1,
ticks/29000 UI ticks/1000 turns/1 | A>B RR cmd nr=0 f=1,
ticks/29000 RR/0/0 ticks/29999 turns/1 |
ticks/29000 RR/0/0 ticks/30000 turns/1 | A>B RR cmd nr=0 f=1,
ticks/29000 I/0/0/0 turns/1 ticks/29999 turns/1 |
ticks/29000 I/0/0/0 turns/1 ticks/30000 turns/1 | A>B RR cmd nr=1 f=1,
send/1 turns/1 ticks/200 turns/1 ticks/200 turns/1 ticks/200 turns/1 ticks/200 turns/1 ticks/400 turns/1 ticks/400 \
turns/1 ticks/600 turns/1 ticks/600 turns/1 ticks/800 turns/1 ticks/800 turns/1 ticks/999 |
send/1 turns/1 ticks/200 turns/1 ticks/200 turns/1 ticks/200 turns/1 ticks/200 turns/1 ticks/400 turns/1 ticks/400 \
turns/1 ticks/600 turns/1 ticks/600 turns/1 ticks/800 turns/1 ticks/800 turns/1 ticks/1000 | \
A>B DM rsp f=0,ended Failed,";

#[test]
fn rows_of_a_link_that_is_up(rt: HostRuntime) -> Result<(), Fail> {
    assert_rows(&rt, rt.alloc(), Params::default(), "connect UA/1", UP)
}

const UP_WIDE: &str = "SABM/1 | A>B UA rsp f=1,ended Reset,opened,
SABM/1 look | Up Eight
SABME/0 | A>B UA rsp f=0/128,ended Reset,opened,
FRMR | A>B SABME cmd f=1/128,ended Reset,
DISC/1 | A>B UA rsp f=1/128,ended Peer,
DISC/1 look | Idle Eight
DM/0 look | Idle Eight
disconnect UA/1 look | Idle Eight
disconnect SABME/1 | A>B DM rsp f=1/128,
send/1 turns/1 RR/2/0 | A>B SABME cmd f=1/128,ended Reset,
I/0/0/1 turns/1 | A>B RR rsp nr=1 f=1/128,
I/63/0/0 turns/1 | A>B REJ rsp nr=0 f=0/128,
I/64/0/0 turns/1 | A>B RR rsp nr=0 f=0/128,
sends/5 turns/5 | A>B I cmd ns=0 nr=0 p=0 pid=f0 len=1 00/128,A>B I cmd ns=1 nr=0 p=0 pid=f0 len=1 01/128,\
A>B I cmd ns=2 nr=0 p=0 pid=f0 len=1 02/128,A>B I cmd ns=3 nr=0 p=0 pid=f0 len=1 03/128,\
A>B I cmd ns=4 nr=0 p=0 pid=f0 len=1 04/128,
send/1 turns/1 ticks/200 turns/1 ticks/200 turns/1 ticks/200 turns/1 ticks/200 turns/1 ticks/400 turns/1 ticks/400 \
turns/1 ticks/600 turns/1 ticks/600 turns/1 ticks/800 turns/1 ticks/800 turns/1 ticks/1000 look | Idle Eight";

#[test]
fn rows_of_a_wide_link_that_is_up(rt: HostRuntime) -> Result<(), Fail> {
    assert_rows(&rt, rt.alloc(), rej(), "SABME/1", UP_WIDE)
}

/// If nothing else is said, lost frames are asked for by SREJ modulo 128 and by REJ modulo 8, also on one link after
/// the other, and also if a wide call goes on modulo 8.
const BY_MODULUS: &str = "SABM/1 I/1/0/0 turns/2 | A>B REJ rsp nr=0 f=0,
SABME/1 I/1/0/0 turns/3 | A>B SREJ rsp nr=0 f=0/128,A>B RR rsp nr=0 f=0/128,
SABME/1 SABM/1 I/1/0/0 turns/2 | A>B REJ rsp nr=0 f=0,
SABME/1 DISC/1 SABM/1 I/1/0/0 turns/2 | A>B REJ rsp nr=0 f=0,
SABM/1 SABME/1 I/1/0/0 turns/3 | A>B SREJ rsp nr=0 f=0/128,A>B RR rsp nr=0 f=0/128,
connect UA/1 I/1/0/0 turns/3 | A>B SREJ rsp nr=0 f=0/128,A>B RR rsp nr=0 f=0/128,
connect DM/1 UA/1 I/1/0/0 turns/2 | A>B REJ rsp nr=0 f=0,
connect FRMR UA/1 I/1/0/0 turns/2 | A>B REJ rsp nr=0 f=0,
connect ticks/800 UA/1 I/1/0/0 turns/2 | A>B REJ rsp nr=0 f=0,";

#[test]
fn each_modulus_has_its_mode(rt: HostRuntime) -> Result<(), Fail> {
    assert_rows(&rt, rt.alloc(), wide(), "", BY_MODULUS)
}

/// By REJ with a window of seven: frame 3 is lost, is asked for, and all from it on are sent again.
const WINDOW_OF_7: &str = "hears/3 I/4/0/0 turns/2 | A>B REJ rsp nr=3 f=0,
hears/3 I/4/0/0 I/5/0/0 I/6/0/1 turns/2 | A>B REJ rsp nr=3 f=1,
sends/10 turns/7 REJ/3/0 turns/8 | A>B I cmd ns=3 nr=0 p=0 pid=f0 len=1 03,A>B I cmd ns=4 nr=0 p=0 pid=f0 len=1 04,\
A>B I cmd ns=5 nr=0 p=0 pid=f0 len=1 05,A>B I cmd ns=6 nr=0 p=0 pid=f0 len=1 06,\
A>B I cmd ns=7 nr=0 p=0 pid=f0 len=1 07,A>B I cmd ns=0 nr=0 p=0 pid=f0 len=1 08,\
A>B I cmd ns=1 nr=0 p=0 pid=f0 len=1 09,";

/// Modulo 128 with a window of 127: N(S) 127, 0 and 1 go out once all before are acknowledged.
const WINDOW_OF_127: &str = "hears/127 turns/2 | A>B RR rsp nr=127 f=0/128,
sends/130 turns/127 RR/127/0 turns/4 | A>B I cmd ns=127 nr=0 p=0 pid=f0 len=1 7f/128,\
A>B I cmd ns=0 nr=0 p=0 pid=f0 len=1 80/128,A>B I cmd ns=1 nr=0 p=0 pid=f0 len=1 81/128,";

#[test]
fn rows_of_the_largest_windows(rt: HostRuntime) -> Result<(), Fail> {
    let narrow = Params {
        window: 7,
        ..Params::default()
    };
    assert_rows(&rt, rt.alloc(), narrow, "connect UA/1", WINDOW_OF_7)?;
    let wide = Params {
        wide: true,
        wide_window: 127,
        ..rej()
    };
    assert_rows(&rt, rt.alloc(), wide, "connect UA/1", WINDOW_OF_127)
}

/// By SREJ: frame 0 of four is lost and is asked for once. It brings all four.
const ONE_LOST: &str = "SABM/1 | A>B UA rsp f=1,opened,
I/1/0/0 |
turns/3 | A>B SREJ rsp nr=0 f=0,A>B RR rsp nr=0 f=0,
I/2/0/0 |
I/3/0/0 |
turns/2 | A>B RR rsp nr=0 f=0,
I/0/0/0 | given 0,given 1,given 2,given 3,
turns/2 | A>B RR rsp nr=4 f=0,
I/4/0/1 | given 4,
turns/2 | A>B RR rsp nr=5 f=1,";

/// The same modulo 128, with frames that no window of modulo 8 has, and one outside the window of 32. A poll has all
/// asked for anew.
const THREE_LOST: &str = "SABME/1 | A>B UA rsp f=1/128,opened,
I/0/0/0 | given 0,
I/33/0/0 |
I/3/0/0 |
turns/4 | A>B SREJ rsp nr=1 f=0/128,A>B SREJ rsp nr=2 f=0/128,A>B RR rsp nr=1 f=0/128,
I/5/0/1 |
turns/5 | A>B SREJ rsp nr=1 f=0/128,A>B SREJ rsp nr=2 f=0/128,A>B SREJ rsp nr=4 f=0/128,A>B RR rsp nr=1 f=1/128,
I/1/0/0 | given 1,
I/2/0/0 | given 2,given 3,
I/4/0/1 | given 4,given 5,
turns/2 | A>B RR rsp nr=6 f=1/128,";

#[test]
fn srej_asks_for_lost_frames(rt: HostRuntime) -> Result<(), Fail> {
    for lines in [ONE_LOST, THREE_LOST] {
        let mut link = idle(rt.alloc(), srej())?;
        assert_exchange(&rt, rt.alloc(), &mut link, lines)?;
    }
    Ok(())
}

#[test]
fn srej_sends_the_lost_frame_again(rt: HostRuntime) -> Result<(), Fail> {
    let again = "sends/4 turns/4 SREJ/0/0 turns/2 | A>B I cmd ns=0 nr=0 p=0 pid=f0 len=1 00,";
    assert_rows(&rt, rt.alloc(), srej(), "connect UA/1", again)
}
