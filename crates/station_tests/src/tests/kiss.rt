//! KISS: streams and items from outside.

use crate::assert_equal;
use kiss_port::{KissFault, KissHostIn, KissIn, KissItem, write_kiss};
use std::alloc::Global;
use std::slice;
use std::test::Fail;
use tnc_base::OutOfMemory;

/// An item as plain values: its name, the port, the command, and the value or the octets.
type Plain<'a> = (&'static str, u8, u8, &'a [u8]);

fn plain(item: &KissItem) -> Plain<'_> {
    match item {
        KissItem::Frame { port, octets } => ("frame", *port, 0, octets.as_slice()),
        KissItem::AckFrame { port, octets, .. } => ("ack", *port, 12, octets.as_slice()),
        KissItem::Set {
            port,
            command,
            value,
        } => ("set", *port, *command, slice::from_ref(value)),
        KissItem::Hardware { port, octets } => ("hardware", *port, 6, octets.as_slice()),
        KissItem::Return => ("return", 0, 0, b""),
        KissItem::TooLong { port } => ("long", *port, 0, b""),
        KissItem::Other { port, command } => ("other", *port, *command, b""),
    }
}

/// These items, each with the place of its last octet, and no others.
fn are_items(items: &[(usize, KissItem)], wants: &[(usize, Plain)]) -> bool {
    if items.len() != wants.len() {
        return false;
    }
    for ((place, item), (end, want)) in items.iter().zip(wants) {
        if *place != *end || plain(item) != *want {
            return false;
        }
    }
    true
}

/// The items of a stream, each with the place of its last octet.
fn items_of(alloc: Global, stream: &[u8]) -> Result<Vec<(usize, KissItem)>, OutOfMemory> {
    let mut reader = KissIn::new(alloc);
    let mut items = Vec::new(alloc);
    for (place, octet) in stream.iter().enumerate() {
        if let Some(item) = reader.push(*octet)? {
            items.push((place, item))?;
        }
    }
    Ok(items)
}

/// Each row: a stream, and the item that its last octet ends.
const PIECES: &[(&[u8], Plain<'static>)] = &[
    (
        b"\xc0\x00\xdb\xdc\xdb\xdd\xc0",
        ("frame", 0, 0, b"\xc0\xdb"),
    ),
    (
        b"\xc0\x00\x01\xdb\x41\x02\xc0",
        ("frame", 0, 0, b"\x01\x02"),
    ),
    (b"\xc0\x00\x05\xdb\xc0", ("frame", 0, 0, b"\x05")),
    (b"\x00\x05\xc0", ("frame", 0, 0, b"\x05")),
    (b"\xc0\x00\xc0", ("frame", 0, 0, b"")),
    (b"\xc0\xc0\xc0\x20\x07\xc0", ("frame", 2, 0, b"\x07")),
    (b"\xc0\xdb\xdc\xdb\xdb\xdc\xc0", ("frame", 12, 0, b"\xdc")),
    (b"\xdb\xc0\x10\xdc\xdd\xc0", ("frame", 1, 0, b"\xdc\xdd")),
    (b"\xc0\x01\x32\xc0", ("set", 0, 1, b"\x32")),
    (b"\xc0\x35\x01\x02\x03\xc0", ("set", 3, 5, b"\x01")),
    (b"\xc0\x03\xdb\xdd\xc0", ("set", 0, 3, b"\xdb")),
    (b"\xc0\x03\xc0", ("other", 0, 3, b"")),
    (b"\xc0\x16\x01\x02\xc0", ("hardware", 1, 6, b"\x01\x02")),
    (b"\xc0\x06\xc0", ("hardware", 0, 6, b"")),
    (b"\xc0\x07\x01\xc0", ("other", 0, 7, b"")),
    (b"\xc0\x0c\x12\x34\x05\x06\xc0", ("ack", 0, 12, b"\x05\x06")),
    (b"\xc0\x3c\xdb\xdc\xdb\xdd\xc0", ("ack", 3, 12, b"")),
    (b"\xc0\x0c\x12\xc0", ("other", 0, 12, b"")),
    (b"\xc0\x0c\xc0", ("other", 0, 12, b"")),
    (b"\xc0\xfe\x01\xc0", ("other", 15, 14, b"")),
    (b"\xc0\x0f\x01\xc0", ("other", 0, 15, b"")),
    (b"\xc0\xff\xc0", ("return", 0, 0, b"")),
    (b"\xc0\xff\x01\x02\xc0", ("return", 0, 0, b"")),
    (b"\xc0\xf0\x01\xc0", ("frame", 15, 0, b"\x01")),
];

#[test]
fn a_piece_says_one_item(rt: HostRuntime) -> Result<(), Fail> {
    for (number, (stream, want)) in PIECES.iter().enumerate() {
        let items = items_of(rt.alloc(), stream)?;
        let end = stream.len().saturating_sub(1);
        let said = are_items(&items, &[(end, *want)]);
        assert_equal(&rt, &(number, said), &(number, true));
    }
    Ok(())
}

#[test]
fn nothing_between_two_ends_says_nothing(rt: HostRuntime) -> Result<(), Fail> {
    for stream in [
        b"\xc0\xc0".as_slice(),
        b"",
        b"\xc0\xdb\xc0",
        b"\xdb\x41\xc0",
        b"\xc0\x00\x05",
    ] {
        let items = items_of(rt.alloc(), stream)?;
        assert_equal(&rt, &(stream, items.len()), &(stream, 0));
    }
    Ok(())
}

#[test]
fn a_stream_goes_on_after_an_item(rt: HostRuntime) -> Result<(), Fail> {
    let items = items_of(
        rt.alloc(),
        b"\xc0\x00\x01\xc0\x01\x02\xc0\xff\xc0\x00\x03\xc0",
    )?;
    let wants: [(usize, Plain); 4] = [
        (3, ("frame", 0, 0, b"\x01")),
        (6, ("set", 0, 1, b"\x02")),
        (8, ("return", 0, 0, b"")),
        (11, ("frame", 0, 0, b"\x03")),
    ];
    assert!(rt; are_items(&items, &wants));
    Ok(())
}

/// The two octets of each frame that asks to be told of.
#[test]
fn a_frame_that_asks_has_two_octets(rt: HostRuntime) -> Result<(), Fail> {
    let items = items_of(
        rt.alloc(),
        b"\xc0\x0c\x12\x34\x05\xc0\x0c\xdb\xdc\xdb\xdd\xc0",
    )?;
    let mut marks = Vec::new(rt.alloc());
    for (_, item) in &items {
        if let KissItem::AckFrame { mark, .. } = item {
            marks.push(*mark)?;
        }
    }
    assert_equal(
        &rt,
        &marks.as_slice(),
        &[[0x12, 0x34], [0xc0, 0xdb]].as_slice(),
    );
    Ok(())
}

/// The most octets of a piece.
const MOST: &[u8] = &[0x41; 1024];

/// Each row: the first octet of a piece, whether one more octet than the most stands after it, and the item.
const LONGEST: &[(u8, bool, Plain<'static>)] = &[
    (0x00, false, ("frame", 0, 0, MOST)),
    (0x00, true, ("long", 0, 0, b"")),
    (0x26, false, ("hardware", 2, 6, MOST)),
    (0x26, true, ("long", 2, 0, b"")),
    (0xff, false, ("return", 0, 0, b"")),
    (0xff, true, ("long", 15, 0, b"")),
];

/// The most octets after this one, or one more, and then a frame.
fn longest(alloc: Global, kind: u8, longer: bool) -> Result<Vec<u8>, Fail> {
    let mut stream = [kind].to_vec(alloc)?;
    stream.extend_from_slice(MOST)?;
    if longer {
        stream.push(0x41)?;
    }
    stream.extend_from_slice(b"\xc0\x00\x05\xc0")?;
    Ok(stream)
}

#[test]
fn more_than_1024_octets_are_too_long(rt: HostRuntime) -> Result<(), Fail> {
    for (kind, longer, want) in LONGEST {
        let stream = longest(rt.alloc(), *kind, *longer)?;
        let items = items_of(rt.alloc(), &stream)?;
        let end = if *longer { 1026 } else { 1025 };
        let wants = [(end, *want), (end + 3, ("frame", 0, 0, b"\x05".as_slice()))];
        let said = are_items(&items, &wants);
        assert_equal(&rt, &(*kind, said), &(*kind, true));
    }
    Ok(())
}

/// Each row: a port, a command, octets, and the stream that they are written as.
const WRITTEN: &[(u8, u8, &[u8], &[u8])] = &[
    (0, 0, b"\xc0\xdb", b"\xc0\x00\xdb\xdc\xdb\xdd\xc0"),
    (0, 12, b"\xc0\xdb", b"\xc0\x0c\xdb\xdc\xdb\xdd\xc0"),
    (0, 0, b"", b"\xc0\x00\xc0"),
    (12, 0, b"\xdc", b"\xc0\xdb\xdc\xdc\xc0"),
    (13, 11, b"\x01\xdd", b"\xc0\xdb\xdd\x01\xdd\xc0"),
];

#[test]
fn what_is_written_has_its_escapes(rt: HostRuntime) -> Result<(), Fail> {
    for (port, command, octets, want) in WRITTEN {
        assert!(rt; *port < 16 && *command < 16);
        let stream = write_kiss(rt.alloc(), *port, *command, octets)?;
        assert_equal(&rt, &(*port, stream.as_slice()), &(*port, *want));
    }
    Ok(())
}

/// Each row: the octets of a host's connection, and the place of the octet at which it is refused, if it is.
const CONNECTIONS: &[(&[u8], Option<usize>)] = &[
    (b"GET / HTTP/1.1\r\n", Some(3)),
    (b"HEAD / HTTP/1.1\r\n", Some(4)),
    (b"POST / HTTP/1.1\r\n\r\n\xc0\x00\x05\xc0", Some(4)),
    (b"PUT / HTTP/1.1\r\n", Some(3)),
    (b"DELETE / HTTP/1.1\r\n", Some(6)),
    (b"CONNECT a:1 HTTP/1.1\r\n", Some(7)),
    (b"OPTIONS * HTTP/1.1\r\n", Some(7)),
    (b"TRACE / HTTP/1.1\r\n", Some(5)),
    (b"PATCH / HTTP/1.1\r\n", Some(5)),
    (b"PRI * HTTP/2.0\r\n\r\nSM\r\n\r\n", Some(3)),
    (b"get / HTTP/1.1\r\n", Some(4)),
    (b"DANCE / HTTP/1.1\r\n", Some(6)),
    (b"version-control /a HTTP/1.1\r\n", Some(16)),
    (b"!#$%&'*+-.^_`|~ /\xc0\x00\x05\xc0", Some(16)),
    (b"\x16\x03\x01\x00\xf8\x01", Some(1)),
    (b"\x16\x03\x03\x00\xf8\x01", Some(1)),
    (b"", None),
    (b"PO", None),
    (b"POST", None),
    (b"GETTY 38400\r", None),
    (b"get it / HTTP/1.1\r\n", None),
    (b"DANCE  / HTTP/1.1\r\n", None),
    (b"DANCE\t/ HTTP/1.1\r\n", None),
    (b"DANCE:1 / HTTP/1.1\r\n", None),
    (b"GET\t/ HTTP/1.1\r\n", None),
    (b" GET / HTTP/1.1\r\n", None),
    (b" /", None),
    (b"/ /", None),
    (b"KISS ON\rRESTART\r", None),
    (b"INT KISS\rRESET\r", None),
    (b"\rKISS ON\r /", None),
    (b"PRIMUS ", None),
    (b"\x16\x04\x01", None),
    (b"\x17\x03\x03", None),
    (b"\xc0GET / HTTP/1.1\r\n", None),
    (b"\xc0\x16\x03\x01", None),
    (b"\xc0\x00\x05\xc0POST / HTTP/1.1\r\n", None),
    (b"\xc0DANCE / HTTP/1.1\r\n", None),
    (b"DANCE\xc0 / HTTP/1.1\r\n", None),
    (b"kiss on\r\xc0\x00\x05\xc0", None),
];

/// The place of the first octet that is refused as a program's of the web. Every later one is, and none is for another
/// cause.
fn refused_at(alloc: Global, octets: &[u8]) -> Result<Option<usize>, Fail> {
    let mut reader = KissHostIn::new(alloc);
    let mut refused = None;
    for (place, octet) in octets.iter().enumerate() {
        match reader.push(*octet) {
            Ok(_) => {
                if refused.is_some() {
                    return Err(Fail::new("taken after a refusal"));
                }
            }
            Err(KissFault::WebRequest) => refused = refused.or(Some(place)),
            Err(KissFault::Memory) => return Err(Fail::new("no memory")),
        }
    }
    if reader.is_web_request() != refused.is_some() {
        return Err(Fail::new("refused, and not told so"));
    }
    Ok(refused)
}

#[test]
fn a_program_of_the_web_is_refused_at_its_beginning(rt: HostRuntime) -> Result<(), Fail> {
    for (octets, want) in CONNECTIONS {
        let refused = refused_at(rt.alloc(), octets)?;
        assert_equal(&rt, &(*octets, refused), &(*octets, *want));
    }
    Ok(())
}
