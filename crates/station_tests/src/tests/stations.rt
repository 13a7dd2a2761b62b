//! The station: what a new one is, and the modulus of its links.

use crate::assert_equal;
use ax25_frames::Modulus;
use link_machine::{NewFault, Params};
use script::Sight::{Frames, ReadsBy};
use script::Step::{Calls, Registers};
use script::{Made, Row, plays};
use selective_reject::Mode;
use station::{Config, Station};
use std::test::Fail;

mod absurd_frames;
mod calls_and_data;
mod desk;
mod exchanging;
mod monitoring;
mod passing;
mod random_octets;
mod requests;
mod script;
mod sent_frames;

#[test]
fn takes_a_window_that_fits(rt: HostRuntime) -> Result<(), Fail> {
    let params = Params {
        mode: Mode::Srej,
        ..Params::default()
    };
    let station = Station::new(rt.alloc(), Config::new(params, None), 7)?;
    assert_equal(&rt, &(station.accepts(1), station.dropped()), &(true, 0));
    Ok(())
}

#[test]
fn refuses_a_window_of_5_with_srej(rt: HostRuntime) -> Result<(), Fail> {
    let params = Params {
        mode: Mode::Srej,
        window: 5,
        ..Params::default()
    };
    let refused = Station::new(rt.alloc(), Config::new(params, None), 7).err();
    assert!(rt; refused == Some(NewFault::BadWindow { window: 5 }));
    Ok(())
}

/// N7LEM calls NJ7P modulo 128.
const WIDE_CALL: &[Row] = &[
    (Registers(1, "N7LEM"), &[]),
    (
        Calls(1, ("N7LEM", "NJ7P")),
        &[
            Frames(1),
            ReadsBy("N7LEM", "NJ7P", Modulus::OneTwentyEight),
            ReadsBy("NJ7P", "N7LEM", Modulus::OneTwentyEight),
            ReadsBy("N7LEM", "AAAA", Modulus::Eight),
        ],
    ),
];

#[test]
fn a_frame_is_read_in_the_modulus_of_its_link(rt: HostRuntime) -> Result<(), Fail> {
    plays(&rt, rt.alloc(), Made::Wide, &[WIDE_CALL])
}
