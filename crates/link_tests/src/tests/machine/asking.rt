//! Which events would make a link send SABM, SABME or DISC.
use super::link::{assert_rows, wide};
use link_machine::Params;
use std::test::Fail;

/// An I frame with N(R) 1 acknowledges the packet that was sent, and is invalid if there was none.
const ASKS: &str = "asks | connect,
connect asks |
connect ticks/198 asks |
connect ticks/199 asks | tick,
connect DM/1 asks | connect,
connect UA/1 asks | disconnect,FRMR,I,
connect UA/1 send/1 turns/1 asks | FRMR,
connect UA/1 send/1 turns/1 disconnect asks | disconnect,FRMR,I,
connect UA/1 disconnect asks |
connect UA/1 disconnect ticks/199 asks | tick,";

#[test]
fn what_asks_is_seen_before(rt: HostRuntime) -> Result<(), Fail> {
    assert_rows(&rt, rt.alloc(), Params::default(), "", ASKS)
}

/// SABM follows on a SABME that is refused.
const WIDE_ASKS: &str = "asks | connect,
connect asks | FRMR,
connect UA/1 asks | disconnect,FRMR,I,";

#[test]
fn a_refused_wide_call_asks(rt: HostRuntime) -> Result<(), Fail> {
    assert_rows(&rt, rt.alloc(), wide(), "", WIDE_ASKS)
}
