//! The words of the calls under test.

use arrayvec::ArrayVec;
use ax25_address::Call;
use tnc_call::CallWords;

/// N7LEM calls NJ7P, by way of RELAY and WIDE-15 or by way of nobody.
pub(super) fn words(via: bool, expect: u32, polls: u32) -> CallWords {
    let mut repeaters = ArrayVec::new();
    if via {
        repeaters.push(call("RELAY"));
        repeaters.push(call("WIDE-15"));
    }
    CallWords {
        agw: 8000,
        own: call("N7LEM"),
        remote: call("NJ7P"),
        via: repeaters,
        expect,
        polls,
    }
}

fn call(text: &str) -> Call {
    Call::parse(text).unwrap_or_default()
}
