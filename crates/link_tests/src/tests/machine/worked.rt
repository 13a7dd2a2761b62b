//! Worked transmissions: what a link gives when the channel takes its frames, one after another.
use super::link::{assert_rows, srej, wide};
use link_machine::Params;
use std::test::Fail;

/// A window of four: the last frame that can go polls if more wait, and the answer brings the rest. A frame that answers
/// no poll shows that the poll was not heard.
const BY_REJ: &str = "sends/6 turns/5 | A>B I cmd ns=0 nr=0 p=0 pid=f0 len=1 00,\
A>B I cmd ns=1 nr=0 p=0 pid=f0 len=1 01,\
A>B I cmd ns=2 nr=0 p=0 pid=f0 len=1 02,\
A>B I cmd ns=3 nr=0 p=1 pid=f0 len=1 03,
sends/6 turns/4 wants | false
sends/6 turns/4 RR/4/1 turns/3 | A>B I cmd ns=4 nr=0 p=0 pid=f0 len=1 04,\
A>B I cmd ns=5 nr=0 p=0 pid=f0 len=1 05,
hears/3 I/3/0/1 turns/2 | A>B RR rsp nr=4 f=1,
send/0 hears/3 I/3/0/1 turns/3 | A>B RR rsp nr=4 f=1,\
A>B I cmd ns=0 nr=4 p=0 pid=f0 len=1 00,
hears/2 turns/2 | A>B RR rsp nr=2 f=0,
sends/6 turns/4 RR/2/0 wants | true
sends/6 turns/4 RR/2/0 turns/5 | A>B I cmd ns=2 nr=0 p=0 pid=f0 len=1 02,\
A>B I cmd ns=3 nr=0 p=0 pid=f0 len=1 03,\
A>B I cmd ns=4 nr=0 p=0 pid=f0 len=1 04,\
A>B I cmd ns=5 nr=0 p=0 pid=f0 len=1 05,
hears/1 I/2/0/0 I/3/0/1 turns/2 | A>B REJ rsp nr=1 f=1,
sends/6 turns/4 REJ/1/1 turns/5 | A>B I cmd ns=1 nr=0 p=0 pid=f0 len=1 01,\
A>B I cmd ns=2 nr=0 p=0 pid=f0 len=1 02,\
A>B I cmd ns=3 nr=0 p=0 pid=f0 len=1 03,\
A>B I cmd ns=4 nr=0 p=1 pid=f0 len=1 04,
sends/6 hears/3 I/3/0/1 turns/6 | A>B RR rsp nr=4 f=1,\
A>B I cmd ns=0 nr=4 p=0 pid=f0 len=1 00,\
A>B I cmd ns=1 nr=4 p=0 pid=f0 len=1 01,\
A>B I cmd ns=2 nr=4 p=0 pid=f0 len=1 02,\
A>B I cmd ns=3 nr=4 p=1 pid=f0 len=1 03,
sends/6 turns/4 RR/4/1 I/0/4/0 I/1/4/0 I/2/4/0 I/3/4/1 turns/4 | A>B RR rsp nr=4 f=1,\
A>B I cmd ns=4 nr=4 p=0 pid=f0 len=1 04,\
A>B I cmd ns=5 nr=4 p=0 pid=f0 len=1 05,
sends/6 turns/4 hears/3 I/3/0/1 turns/6 | A>B RR rsp nr=4 f=1,\
A>B I cmd ns=0 nr=4 p=0 pid=f0 len=1 00,\
A>B I cmd ns=1 nr=4 p=0 pid=f0 len=1 01,\
A>B I cmd ns=2 nr=4 p=0 pid=f0 len=1 02,\
A>B I cmd ns=3 nr=4 p=1 pid=f0 len=1 03,
I/0/0/1 turns/1 I/0/0/1 turns/2 | A>B RR rsp nr=1 f=1,
sends/6 fulls/5 | A>B I cmd ns=0 nr=0 p=0 pid=f0 len=1 00,\
A>B I cmd ns=1 nr=0 p=0 pid=f0 len=1 01,\
A>B I cmd ns=2 nr=0 p=0 pid=f0 len=1 02,\
A>B I cmd ns=3 nr=0 p=0 pid=f0 len=1 03,";

#[test]
fn transmissions_by_rej(rt: HostRuntime) -> Result<(), Fail> {
    assert_rows(&rt, rt.alloc(), Params::default(), "connect UA/1", BY_REJ)
}

/// Frame 1 is lost: it alone is asked for, and sent again.
const BY_SREJ: &str = "hears/1 I/2/0/0 I/3/0/1 turns/3 | A>B SREJ rsp nr=1 f=0,\
A>B RR rsp nr=1 f=1,
sends/6 turns/4 SREJ/1/0 RR/1/1 turns/3 | A>B I cmd ns=1 nr=0 p=0 pid=f0 len=1 01,\
A>B I cmd ns=4 nr=0 p=1 pid=f0 len=1 04,
hears/1 I/2/0/0 I/3/0/1 turns/2 I/1/0/0 I/4/0/1 turns/2 | A>B RR rsp nr=5 f=1,
hears/1 I/2/0/0 turns/2 RRc/0/1 turns/3 | A>B SREJ rsp nr=1 f=0,\
A>B RR rsp nr=1 f=1,";

#[test]
fn transmissions_by_srej(rt: HostRuntime) -> Result<(), Fail> {
    assert_rows(&rt, rt.alloc(), srej(), "connect UA/1", BY_SREJ)
}

/// A transmission ends after eight frames, within a window of 32.
const WIDE: &str = "sends/20 turns/7 ends | A>B I cmd ns=7 nr=0 p=1 pid=f0 len=1 07/128,
sends/20 turns/7 ends wants | false";

#[test]
fn transmissions_modulo_128(rt: HostRuntime) -> Result<(), Fail> {
    assert_rows(&rt, rt.alloc(), wide(), "connect UA/1", WIDE)
}
