//! AGWPE: streams and messages from outside.

use crate::assert_equal;
use agwpe_port::{AgwFault, AgwIn, AgwMessage, call_text, read_messages, write_agw};
use ax25_address::Call;
use std::alloc::{AllocError, Global};
use std::process::Abort;
use std::test::Fail;
use tnc_base::Octets;

/// A header of kind R, with the four octets of its length.
fn header(alloc: Global, length: &[u8]) -> Result<Vec<u8>, AllocError> {
    let mut octets = Vec::new(alloc);
    octets.extend_from_slice(b"\0\0\0\0R\0\0\0")?;
    octets.extend_from_slice([0; 20].as_slice())?;
    octets.extend_from_slice(length)?;
    octets.extend_from_slice([0; 4].as_slice())?;
    Ok(octets)
}

/// The messages of a stream, each with the place of its last octet, up to the first fault, with its place.
#[derive(Drop)]
struct Found {
    messages: Vec<(usize, AgwMessage)>,
    fault: Option<(usize, AgwFault)>,
}

fn found_in(alloc: Global, stream: &[u8]) -> Result<Found, AllocError> {
    let mut reader = AgwIn::new(alloc);
    let mut messages = Vec::new(alloc);
    for (place, octet) in stream.iter().enumerate() {
        match reader.push(*octet) {
            Ok(Some(message)) => messages.push((place, message))?,
            Ok(None) => {}
            Err(fault) => {
                let fault = Some((place, fault));
                return Ok(Found { messages, fault });
            }
        }
    }
    Ok(Found {
        messages,
        fault: None,
    })
}

/// A message of kind D from N7LEM to NJ7P-2, with its header as it is written.
const DATA: &[u8] = b"\x01\0\0\0D\0\xf0\0N7LEM\0\0\0\0\0NJ7P-2\0\0\0\0\x03\0\0\0\0\0\0\0hi\r";

/// A message as plain values: its port, kind and PID, its call fields, and its body.
type Plain<'a> = ((u8, u8, u8), [&'a [u8]; 2], &'a [u8]);

fn plain(message: &AgwMessage) -> Plain<'_> {
    let head = (message.port, message.kind, message.pid);
    let fields = [message.from.as_slice(), message.to.as_slice()];
    (head, fields, message.body.as_slice())
}

/// The message of DATA.
const SAYS_HI: Plain<'static> = (
    (1, b'D', 0xf0),
    [b"N7LEM\0\0\0\0\0", b"NJ7P-2\0\0\0\0"],
    b"hi\r",
);

/// The message of a header without a body.
const REQUEST: Plain<'static> = ((0, b'R', 0), [&[0; 10], &[0; 10]], b"");

/// Each row: the place of the last octet of a message, and the message.
const MESSAGES: &[(usize, Plain<'static>)] = &[(38, SAYS_HI), (74, REQUEST), (113, SAYS_HI)];

/// The three messages, and the front of a fourth.
fn messages(alloc: Global) -> Result<Vec<u8>, Fail> {
    let mut stream = DATA.to_vec(alloc)?;
    stream.extend_from_slice(&header(alloc, b"\0\0\0\0")?)?;
    stream.extend_from_slice(DATA)?;
    stream.extend_from_slice(b"\0\0\0\0R")?;
    Ok(stream)
}

/// Ends the test unless these are the place and the values of a message.
fn assert_message<R: Abort>(rt: &R, (place, message): &(usize, AgwMessage), want: &(usize, Plain)) {
    assert_equal(rt, &(*place, plain(message)), want);
}

#[test]
fn a_stream_is_cut_into_messages(rt: HostRuntime) -> Result<(), Fail> {
    let stream = messages(rt.alloc())?;
    let found = found_in(rt.alloc(), &stream)?;
    assert_equal(&rt, &(found.messages.len(), found.fault), &(3, None));
    for (message, want) in found.messages.iter().zip(MESSAGES) {
        assert_message(&rt, message, want);
    }
    Ok(())
}

/// The body of each of these messages is hi.
fn say_hi(messages: &[AgwMessage]) -> bool {
    for message in messages {
        if message.body.as_slice() != b"hi\r".as_slice() {
            return false;
        }
    }
    true
}

/// How many messages end in each of the two pieces into which a stream is cut, if all of them say hi.
fn counts(alloc: Global, (front, rest): (&[u8], &[u8])) -> Result<Option<(usize, usize)>, Fail> {
    let mut reader = Box::new(alloc, AgwIn::new(alloc))?;
    let front = read_messages(alloc, &mut reader, front)?;
    let rest = read_messages(alloc, &mut reader, rest)?;
    let all_say_hi = say_hi(&front) && say_hi(&rest);
    Ok(all_say_hi.then_some((front.len(), rest.len())))
}

/// Each row: where a stream of two messages is cut, and how many messages end in each piece.
const CUTS: &[(usize, (usize, usize))] = &[
    (0, (0, 2)),
    (38, (0, 2)),
    (39, (1, 1)),
    (77, (1, 1)),
    (78, (2, 0)),
];

#[test]
fn messages_end_in_either_piece(rt: HostRuntime) -> Result<(), Fail> {
    let mut stream = DATA.to_vec(rt.alloc())?;
    stream.extend_from_slice(DATA)?;
    assert!(rt; stream.len() == 78);
    for (cut, want) in CUTS {
        assert!(rt; *cut <= stream.len());
        let got = counts(rt.alloc(), stream.split_at(*cut))?;
        assert_equal(&rt, &(*cut, got), &(*cut, Some(*want)));
    }
    Ok(())
}

/// Each row: the octets of a length, and the length if it is over 4096.
const LENGTHS: &[(&[u8], Option<u32>)] = &[
    (b"\x01\x10\0\0", Some(4097)),
    (b"\0\x10\0\0", None),
    (b"\xff\x0f\0\0", None),
    (b"\0\0\x01\0", Some(65536)),
    (b"\0\0\0\x01", Some(16_777_216)),
    (b"\xff\xff\xff\xff", Some(u32::MAX)),
];

/// The fault of a header with such a length, with its place.
fn fault_of(alloc: Global, length: &[u8]) -> Result<Option<(usize, AgwFault)>, AllocError> {
    let stream = header(alloc, length)?;
    Ok(found_in(alloc, &stream)?.fault)
}

#[test]
fn a_length_over_4096_ends_the_messages(rt: HostRuntime) -> Result<(), Fail> {
    for (length, want) in LENGTHS {
        let fault = fault_of(rt.alloc(), length)?;
        let wanted = want.map(|len| (35, AgwFault::BadLength { len }));
        assert_equal(&rt, &(*length, fault), &(*length, wanted));
    }
    Ok(())
}

/// Each row: the octets of a length over 4096, and the length.
const FAILED: &[(&[u8], u32)] = &[
    (b"\x01\x10\0\0", 4097),
    (b"\0\0\x01\0", 65_536),
    (b"\xff\xff\xff\xff", u32::MAX),
];

/// A reader to which a header with such a length has come.
fn after_header(alloc: Global, length: &[u8]) -> Result<Box<AgwIn>, Fail> {
    let stream = header(alloc, length)?;
    let mut reader = Box::new(alloc, AgwIn::new(alloc))?;
    for octet in &stream {
        let _ = reader.push(*octet);
    }
    Ok(reader)
}

#[test]
fn a_stream_that_failed_stays_so(rt: HostRuntime) -> Result<(), Fail> {
    for (length, len) in FAILED {
        let mut reader = after_header(rt.alloc(), length)?;
        for octet in DATA {
            let answer = reader.push(*octet).err();
            assert_equal(&rt, &answer, &Some(AgwFault::Failed { len: *len }));
        }
    }
    Ok(())
}

/// The longest body.
const LONGEST: &[u8] = &[0x55; 4096];

/// A message with the longest body, and another one.
fn longest(alloc: Global) -> Result<Vec<u8>, Fail> {
    let mut stream = header(alloc, b"\0\x10\0\0")?;
    stream.extend_from_slice(LONGEST)?;
    stream.extend_from_slice(DATA)?;
    Ok(stream)
}

/// The place of the last octet of each message, and how long its body is.
fn lens(alloc: Global, found: &Found) -> Result<Vec<(usize, usize)>, Fail> {
    let mut lens = Vec::new(alloc);
    for (place, message) in &found.messages {
        lens.push((*place, message.body.len()))?;
    }
    Ok(lens)
}

#[test]
fn the_longest_body_is_read(rt: HostRuntime) -> Result<(), Fail> {
    let stream = longest(rt.alloc())?;
    let found = found_in(rt.alloc(), &stream)?;
    let lens = lens(rt.alloc(), &found)?;
    assert_equal(&rt, &lens.as_slice(), &[(4131, 4096), (4170, 3)].as_slice());
    let first = found.messages.first();
    let body = first.map(|(_, message)| message.body.as_slice());
    assert_equal(&rt, &body, &Some(LONGEST));
    Ok(())
}

#[test]
fn a_message_is_written_with_zeros_where_it_is_reserved(rt: HostRuntime) -> Result<(), Fail> {
    let alloc = rt.alloc();
    let message = AgwMessage {
        port: 1,
        kind: b'D',
        pid: 0xf0,
        from: *b"N7LEM\0\0\0\0\0",
        to: *b"NJ7P-2\0\0\0\0",
        body: Octets::from_slice(alloc, b"hi\r")?,
    };
    assert!(rt; message.body.len() <= 4096);
    assert_equal(&rt, &write_agw(alloc, &message)?.as_slice(), &DATA);
    Ok(())
}

#[test]
fn a_call_is_filled_up_with_nuls(rt: HostRuntime) -> Result<(), Fail> {
    let table = [
        ("N7LEM", 0, *b"N7LEM\0\0\0\0\0"),
        ("NJ7P", 2, *b"NJ7P-2\0\0\0\0"),
        ("ABC123", 15, *b"ABC123-15\0"),
        ("A", 0, *b"A\0\0\0\0\0\0\0\0\0"),
    ];
    for (name, ssid, want) in table {
        assert_equal(
            &rt,
            &(name, call_text(&Call::new(name, ssid)?)),
            &(name, want),
        );
    }
    Ok(())
}
