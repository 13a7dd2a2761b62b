//! XID as other stations send it, and what this one makes of it.
use crate::{Duplex, LinkParameters, ToldParameters, agreed, read_xid, write_xid};
use ax25_frames::Modulus;
use selective_reject::Mode;

/// What Dire Wolf 1.6 sends when it calls modulo 128.
const FROM_CALLER: [u8; 27] = [
    0x82, 0x80, 0x00, 0x17, 0x02, 0x02, 0x21, 0x00, 0x03, 0x03, 0x86, 0xa8, 0x22, 0x06, 0x02, 0x08,
    0x00, 0x08, 0x01, 0x20, 0x09, 0x02, 0x0b, 0xb8, 0x0a, 0x01, 0x0a,
];

/// What Dire Wolf 1.6 answers. It tells neither REJ nor SREJ.
const FROM_CALLED: [u8; 27] = [
    0x82, 0x80, 0x00, 0x17, 0x02, 0x02, 0x21, 0x00, 0x03, 0x03, 0x80, 0xa8, 0x22, 0x06, 0x02, 0x08,
    0x00, 0x08, 0x01, 0x20, 0x09, 0x02, 0x0b, 0xb8, 0x0a, 0x01, 0x0a,
];

const NOTHING: ToldParameters = ToldParameters {
    duplex: None,
    mode: None,
    modulus: None,
    info_octets: None,
    window: None,
    t1: None,
    retries: None,
};

const OWN: LinkParameters = LinkParameters {
    duplex: Duplex::Half,
    mode: Mode::Srej,
    modulus: Modulus::OneTwentyEight,
    info_octets: 256,
    window: 32,
    t1: 2000,
    retries: 10,
};

/// What the caller tells.
const CALLER: ToldParameters = ToldParameters {
    duplex: Some(Duplex::Half),
    mode: Some(Mode::Srej),
    modulus: Some(Modulus::OneTwentyEight),
    info_octets: Some(256),
    window: Some(32),
    t1: Some(3000),
    retries: Some(10),
};

/// Octets, and what they tell.
const READ: [(&[u8], ToldParameters); 7] = [
    (&FROM_CALLER, CALLER),
    (
        &FROM_CALLED,
        ToldParameters {
            mode: None,
            ..CALLER
        },
    ),
    (&[0x82, 0x80, 0, 0], NOTHING),
    (
        &[0x82, 0x80, 0, 3, 8, 1, 7],
        ToldParameters {
            window: Some(7),
            ..NOTHING
        },
    ),
    // The last of two counts; what is not known, and what has another length, is passed over.
    (
        &[0x82, 0x80, 0, 12, 10, 1, 3, 10, 1, 5, 99, 0, 8, 2, 0, 7],
        ToldParameters {
            retries: Some(5),
            ..NOTHING
        },
    ),
    (&[0x82, 0x80, 0, 3, 8, 1, 0], NOTHING),
    (
        &[0x82, 0x80, 0, 6, 6, 4, 0, 0, 8, 1],
        ToldParameters {
            info_octets: Some(256),
            ..NOTHING
        },
    ),
];

/// Octets that spell no parameters.
const UNREAD: [&[u8]; 8] = [
    &[],
    &[0x82, 0x80, 0],
    &[0x81, 0x80, 0, 0],
    &[0x82, 0x81, 0, 0],
    &[0x82, 0x80, 0, 1],
    &[0x82, 0x80, 0, 0, 8],
    &[0x82, 0x80, 0, 1, 8],
    &[0x82, 0x80, 0, 3, 8, 2, 7],
];

#[test]
fn what_others_send_is_read(rt: HostRuntime) {
    for (octets, told) in READ {
        assert!(rt; read_xid(octets) == Some(told));
    }
}

#[test]
fn what_spells_no_parameters_is_not_read(rt: HostRuntime) {
    for octets in UNREAD {
        assert!(rt; read_xid(octets) == None);
    }
}

#[test]
fn a_station_tells_all_of_itself(rt: HostRuntime) {
    let octets = write_xid(&OWN);
    let wanted = [
        0x82, 0x80, 0x00, 0x17, 0x02, 0x02, 0x21, 0x00, 0x03, 0x03, 0x86, 0x88, 0x02, 0x06, 0x02,
        0x08, 0x00, 0x08, 0x01, 0x20, 0x09, 0x02, 0x07, 0xd0, 0x0a, 0x01, 0x0a,
    ];
    assert!(rt; octets == wanted);
}

#[test]
fn two_stations_agree_on_what_both_can_do(rt: HostRuntime) {
    let small = ToldParameters {
        info_octets: Some(128),
        window: Some(2),
        ..CALLER
    };
    let wanted = LinkParameters {
        info_octets: 128,
        window: 2,
        t1: 3000,
        ..OWN
    };
    assert!(rt; agreed(&OWN, &small) == wanted);
    let narrow = ToldParameters {
        mode: Some(Mode::Rej),
        modulus: Some(Modulus::Eight),
        t1: Some(70_000),
        ..NOTHING
    };
    let wanted = LinkParameters {
        mode: Mode::Rej,
        modulus: Modulus::Eight,
        t1: 65_535,
        ..OWN
    };
    assert!(rt; agreed(&OWN, &narrow) == wanted);
    assert!(rt; agreed(&OWN, &NOTHING) == OWN);
}
