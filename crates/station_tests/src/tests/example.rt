//! An example to read first: a host joins by KISS, and is shown a frame that the station hears.

use crate::assert_equal;
use link_machine::Params;
use station::{Config, HostEvent, PortKind, Station};
use std::test::Fail;

/// A SABM from N7LEM to NJ7P, without its check sequence.
const FRAME: [u8; 15] = *b"\x9c\x94\x6e\xa0\x40\x40\xe0\x9c\x6e\x98\x8a\x9a\x40\x61\x3f";

/// The same as a KISS frame on port 0.
const KISS: &[u8] = b"\xc0\x00\x9c\x94\x6e\xa0\x40\x40\xe0\x9c\x6e\x98\x8a\x9a\x40\x61\x3f\xc0";

/// The station is called by nobody that it knows, so it sends nothing.
#[test]
fn a_host_is_shown_what_is_heard(rt: HostRuntime) -> Result<(), Fail> {
    let alloc = rt.alloc();
    let mut station = Station::new(alloc, Config::new(Params::default(), None), 7)?;
    station.host(HostEvent::Joined {
        id: 1,
        kind: PortKind::Kiss,
    })?;
    let shown = station.heard(&FRAME)?;
    assert_equal(&rt, &shown.pieces.len(), &1);
    for piece in &shown.pieces {
        assert_equal(&rt, &(piece.id, piece.octets.as_slice()), &(1, KISS));
    }

    // A tick is 10 ms; no other station is heard in it.
    let tick = station.tick(false)?;
    let silence = tick.air.samples == [0; 96];
    assert_equal(&rt, &(station.waiting(), silence), &(0, true));
    Ok(())
}
