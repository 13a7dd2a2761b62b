//! Scripts: what happens to a station, and what is seen of it after each step. A script is a constant, so a test of it is
//! one call, and is proved as fast as that.

use super::desk::{Desk, filled};
use crate::{assert_equal, message};
use ax25_address::Call;
use ax25_frames::Modulus;
use channel_access::Parameters;
use link_machine::Params;
use station::{Config, HostOut, Piece, PortKind};
use std::alloc::Global;
use std::process::Abort;
use std::test::Fail;
use tnc_base::Octets;

/// Two calls, or what stands in their place.
pub(super) type Ends = (&'static str, &'static str);

/// Two fields and a text.
pub(super) type Fields = (&'static str, &'static str, &'static str);

/// What happens. A connection that is not there gives nothing.
#[derive(Clone, Copy)]
pub(super) enum Step {
    Joins(u32, PortKind),
    Leaves(u32),
    /// Octets of a connection.
    Gives(u32, &'static [u8]),
    /// A message of a kind and a PID between two calls, with a body.
    Asks(u32, (u8, u8), Ends, &'static [u8]),
    /// The same with so many octets 65 as its body.
    Fills(u32, (u8, u8), Ends, usize),
    /// All messages of a whole call, in one piece.
    GivesWholeCall(u32),
    Registers(u32, &'static str),
    /// A call from the first to the second.
    Calls(u32, Ends),
    Hears(&'static [u8]),
    Ticks(usize),
    /// Full duplex, with one flag around each frame.
    SendsAtOnce,
    /// No later step sees what was given before.
    Forgets,
}

/// What is seen after a step, of what was given since the last look.
#[derive(Clone, Copy)]
pub(super) enum Sight {
    /// The one frame of a link, and nothing for a connection.
    OneFrame,
    Frame(&'static [u8]),
    /// The same, and the octet of its PID.
    Pid(u8),
    /// The one frame of a link, whatever is for connections.
    Queued(&'static [u8]),
    /// The one frame of a link, and nothing else but, with fields and a text, a refusal for connections.
    Ended(&'static [u8], Option<Fields>),
    /// No frame of a link, and nothing for a connection. It is no look.
    Nothing,
    /// How many frames of links, and how long each of them is.
    Frames(usize),
    Lens(&'static [usize]),
    /// How many pieces for connections, and which.
    Pieces(usize),
    PiecesAre(&'static [(u32, &'static [u8])]),
    /// The one piece: for a connection that a call is refused or ended, with two fields and a text.
    Refusal(u32, Fields),
    /// All octets for connections, or one message that they are.
    Told(&'static [u8]),
    Message(u8, Ends, &'static [u8]),
    /// Whether they end with a message.
    Tells(bool, u8, Ends, &'static [u8]),
    /// The kinds of the messages to connection 1.
    Kinds(&'static [u8]),
    /// The connections that were closed. It is no look, and neither is the count of those that are there.
    Closed(&'static [u32]),
    Connections(usize),
    /// What is sent in so many ticks, or how many octets.
    Sends(usize, &'static [u8]),
    SendsLen(usize, usize),
    /// How many links NJ7P has to N7LEM and to itself.
    Links(usize),
    /// The modulus in which a frame between two calls is read.
    ReadsBy(&'static str, &'static str, Modulus),
}

/// A step, and what is seen after it.
pub(super) type Row = (Step, &'static [Sight]);

/// How a station is made.
#[derive(Clone, Copy)]
pub(super) enum Made {
    Usual,
    /// It calls modulo 128.
    Wide,
    /// So many octets of a host's data go into a packet.
    Paclen(u16),
    /// It has these words of the channel.
    Channel(Parameters),
    /// It repeats by the call DIGI.
    Digi,
}

/// A station that is made so.
pub(super) fn desk(alloc: Global, made: Made) -> Result<Box<Desk>, Fail> {
    match made {
        Made::Usual => Desk::new(alloc, Params::default()),
        Made::Wide => wide_desk(alloc),
        Made::Paclen(paclen) => {
            let mut config = Config::new(Params::default(), None);
            config.paclen = paclen;
            Desk::made_with(alloc, config)
        }
        Made::Channel(channel) => {
            let mut config = Config::new(Params::default(), None);
            config.channel = channel;
            Desk::made_with(alloc, config)
        }
        Made::Digi => digi_desk(alloc),
    }
}

fn wide_desk(alloc: Global) -> Result<Box<Desk>, Fail> {
    let params = Params {
        wide: true,
        ..Params::default()
    };
    Desk::new(alloc, params)
}

fn digi_desk(alloc: Global) -> Result<Box<Desk>, Fail> {
    let digi = Some(Call::parse("DIGI")?);
    Desk::with_digipeater(alloc, Params::default(), digi)
}

/// Ends the test unless each part of a script goes as its rows say, one after the other, at a station that is made so.
pub(super) fn plays<R: Abort>(
    rt: &R,
    alloc: Global,
    made: Made,
    parts: &[&[Row]],
) -> Result<(), Fail> {
    let mut desk = desk(alloc, made)?;
    play(rt, &mut desk, parts)
}

/// The same of each row after some parts, each at a new station.
pub(super) fn each_plays<R: Abort>(
    rt: &R,
    alloc: Global,
    made: Made,
    front: &[&[Row]],
    rows: &[&[Row]],
) -> Result<(), Fail> {
    for row in rows {
        plays_after(rt, alloc, made, front, row)?;
    }
    Ok(())
}

fn plays_after<R: Abort>(
    rt: &R,
    alloc: Global,
    made: Made,
    front: &[&[Row]],
    row: &[Row],
) -> Result<(), Fail> {
    let mut desk = desk(alloc, made)?;
    play_both(rt, &mut desk, front, row)
}

fn play_both<R: Abort>(rt: &R, desk: &mut Desk, front: &[&[Row]], row: &[Row]) -> Result<(), Fail> {
    play(rt, desk, front)?;
    play_part(rt, desk, front.len(), row)
}

fn play<R: Abort>(rt: &R, desk: &mut Desk, parts: &[&[Row]]) -> Result<(), Fail> {
    for (part, rows) in parts.iter().enumerate() {
        play_part(rt, desk, part, rows)?;
    }
    Ok(())
}

fn play_part<R: Abort>(rt: &R, desk: &mut Desk, part: usize, rows: &[Row]) -> Result<(), Fail> {
    for (number, (step, sights)) in rows.iter().enumerate() {
        happen(desk, *step)?;
        see_all(rt, desk, (part, number), sights)?;
    }
    Ok(())
}

fn happen(desk: &mut Desk, step: Step) -> Result<(), Fail> {
    match step {
        Step::Joins(id, kind) => desk.join(id, kind),
        Step::Leaves(id) => desk.leave(id),
        Step::Gives(id, octets) => desk.take(id, octets),
        Step::Asks(id, kind, (from, to), body) => desk.ask_with_pid(id, kind, [from, to], body),
        Step::Fills(id, kind, ends, len) => fill(desk, id, kind, ends, len),
        Step::GivesWholeCall(id) => give_whole_call(desk, id),
        Step::Registers(id, call) => desk.register(id, call),
        Step::Calls(id, (from, to)) => desk.call(id, from, to),
        Step::Hears(frame) => desk.hear(frame),
        Step::Ticks(count) => pass(desk, count),
        Step::SendsAtOnce => desk.send_at_once(),
        Step::Forgets => {
            desk.look();
            Ok(())
        }
    }
}

fn fill(
    desk: &mut Desk,
    id: u32,
    kind: (u8, u8),
    (from, to): Ends,
    len: usize,
) -> Result<(), Fail> {
    let body = filled(desk.alloc(), 65, len)?;
    desk.ask_with_pid(id, kind, [from, to], &body)
}

fn pass(desk: &mut Desk, count: usize) -> Result<(), Fail> {
    desk.tick(count)?;
    Ok(())
}

fn give_whole_call(desk: &mut Desk, id: u32) -> Result<(), Fail> {
    let octets = whole_call(desk.alloc())?;
    desk.take(id, &octets)
}

/// AAAA registers and calls BBBB, and gives 600 octets.
pub(super) fn whole_call(alloc: Global) -> Result<Vec<u8>, Fail> {
    let data = filled(alloc, 65, 600)?;
    let mut octets = message(alloc, b'X', ["AAAA", ""], b"")?;
    add_message(alloc, &mut octets, b'C', b"")?;
    add_message(alloc, &mut octets, b'D', &data)?;
    Ok(octets)
}

/// Adds a message from AAAA to BBBB.
fn add_message(alloc: Global, octets: &mut Vec<u8>, kind: u8, body: &[u8]) -> Result<(), Fail> {
    let more = message(alloc, kind, ["AAAA", "BBBB"], body)?;
    octets.extend_from_slice(&more)?;
    Ok(())
}

fn see_all<R: Abort>(
    rt: &R,
    desk: &mut Desk,
    place: (usize, usize),
    sights: &[Sight],
) -> Result<(), Fail> {
    for sight in sights {
        see(rt, desk, place, *sight)?;
    }
    Ok(())
}

fn see<R: Abort>(rt: &R, desk: &mut Desk, place: (usize, usize), sight: Sight) -> Result<(), Fail> {
    match number_of(desk, sight)? {
        Some((got, want)) => {
            assert_equal(rt, &(place, got), &(place, want));
            Ok(())
        }
        None => see_octets(rt, desk, place, sight),
    }
}

/// What a sight comes to and is to come to, if these are numbers.
fn number_of(desk: &mut Desk, sight: Sight) -> Result<Option<(usize, usize)>, Fail> {
    Ok(match sight {
        Sight::OneFrame => Some((only_frame(desk)?.len().min(1), 1)),
        Sight::Pid(want) => Some((pid(desk)?, usize::from(want))),
        Sight::Nothing => Some((usize::from(is_nothing(desk.out())), 1)),
        Sight::Frames(want) => Some((desk.frames(), want)),
        Sight::Pieces(want) => Some((desk.look().pieces.len(), want)),
        Sight::Tells(want, kind, (from, to), body) => {
            let tells = desk.tells(kind, [from, to], body)?;
            Some((usize::from(tells), usize::from(want)))
        }
        Sight::Connections(want) => Some((desk.count(), want)),
        Sight::SendsLen(ticks, want) => Some((desk.tick(ticks)?.len(), want)),
        Sight::Links(want) => Some((desk.links()?, want)),
        Sight::ReadsBy(first, second, want) => {
            let modulus = modulus(desk, first, second)?;
            Some((usize::from(modulus == want), 1))
        }
        _ => None,
    })
}

fn see_octets<R: Abort>(
    rt: &R,
    desk: &mut Desk,
    place: (usize, usize),
    sight: Sight,
) -> Result<(), Fail> {
    match sight {
        Sight::Frame(want) => assert_frame(rt, desk, place, want),
        Sight::Queued(want) => assert_queued(rt, desk, place, want),
        Sight::Ended(frame, refusal) => assert_ended(rt, desk, place, frame, refusal),
        Sight::Lens(want) => assert_lens(rt, desk, place, want),
        Sight::PiecesAre(want) => assert_pieces(rt, desk, place, want),
        Sight::Refusal(id, fields) => assert_refusal(rt, desk, place, id, fields),
        Sight::Told(want) => assert_told(rt, desk, place, want),
        Sight::Message(kind, ends, body) => assert_message(rt, desk, place, (kind, ends, body)),
        Sight::Kinds(want) => assert_kinds(rt, desk, place, want),
        Sight::Closed(want) => {
            assert_equal(rt, &(place, desk.out().closed.as_slice()), &(place, want));
            Ok(())
        }
        Sight::Sends(ticks, want) => assert_sends(rt, desk, place, ticks, want),
        _ => Err(Fail::new("a sight that is a number")),
    }
}

/// No piece for a host and no frame of a link.
fn is_nothing(out: &HostOut) -> bool {
    out.pieces.is_empty() && out.queued.is_empty()
}

/// The one frame of a link since the last look, in which nothing was told to a host.
fn only_frame(desk: &mut Desk) -> Result<Octets, Fail> {
    let mut out = desk.look();
    let last = out.queued.pop();
    match last {
        Some(frame) if is_nothing(&out) => Ok(frame),
        _ => Err(Fail::new("not one frame alone")),
    }
}

/// The one piece for a host since the last look, in which no frame of a link was queued.
fn only_piece(desk: &mut Desk) -> Result<Piece, Fail> {
    let mut out = desk.look();
    let last = out.pieces.pop();
    match last {
        Some(piece) if is_nothing(&out) => Ok(piece),
        _ => Err(Fail::new("not one piece alone")),
    }
}

fn pid(desk: &mut Desk) -> Result<usize, Fail> {
    let frame = only_frame(desk)?;
    match frame.as_slice().get(15) {
        Some(pid) => Ok(usize::from(*pid)),
        None => Err(Fail::new("no PID")),
    }
}

/// The modulus in which a frame between two calls is read.
fn modulus(desk: &Desk, first: &str, second: &str) -> Result<Modulus, Fail> {
    let first = Call::parse(first)?;
    let second = Call::parse(second)?;
    Ok(desk.modulus(&first, &second))
}

/// Ends the test unless these octets are seen at this place of a script.
fn assert_seen<R: Abort>(rt: &R, place: (usize, usize), got: &[u8], want: &[u8]) {
    assert_equal(rt, &(place, got), &(place, want));
}

fn assert_frame<R: Abort>(
    rt: &R,
    desk: &mut Desk,
    place: (usize, usize),
    want: &[u8],
) -> Result<(), Fail> {
    let frame = only_frame(desk)?;
    assert_seen(rt, place, frame.as_slice(), want);
    Ok(())
}

/// All frames of links as octets, if there is one.
fn queued(alloc: Global, out: &HostOut) -> Result<Vec<u8>, Fail> {
    let mut octets = Vec::new(alloc);
    if out.queued.len() != 1 {
        return Err(Fail::new("not one frame"));
    }
    for frame in &out.queued {
        octets.extend_from_slice(frame.as_slice())?;
    }
    Ok(octets)
}

fn assert_queued<R: Abort>(
    rt: &R,
    desk: &mut Desk,
    place: (usize, usize),
    want: &[u8],
) -> Result<(), Fail> {
    let frame = queued(desk.alloc(), &desk.look())?;
    assert_seen(rt, place, &frame, want);
    Ok(())
}

fn assert_ended<R: Abort>(
    rt: &R,
    desk: &mut Desk,
    place: (usize, usize),
    frame: &[u8],
    fields: Option<Fields>,
) -> Result<(), Fail> {
    let got = queued(desk.alloc(), desk.out())?;
    assert_seen(rt, place, &got, frame);
    match fields {
        Some(fields) => assert_told_refusal(rt, desk, place, fields),
        None => assert_told(rt, desk, place, b""),
    }
}

fn assert_told_refusal<R: Abort>(
    rt: &R,
    desk: &mut Desk,
    place: (usize, usize),
    fields: Fields,
) -> Result<(), Fail> {
    let want = refusal(desk.alloc(), fields)?;
    assert_told(rt, desk, place, &want)
}

fn assert_lens<R: Abort>(
    rt: &R,
    desk: &mut Desk,
    place: (usize, usize),
    want: &[usize],
) -> Result<(), Fail> {
    let lens = desk.lens()?;
    assert_equal(rt, &(place, lens.as_slice()), &(place, want));
    Ok(())
}

fn assert_pieces<R: Abort>(
    rt: &R,
    desk: &mut Desk,
    place: (usize, usize),
    want: &[(u32, &[u8])],
) -> Result<(), Fail> {
    let pieces = desk.look().pieces;
    assert_equal(rt, &(place, are_pieces(&pieces, want)), &(place, true));
    Ok(())
}

fn are_pieces(pieces: &[Piece], wants: &[(u32, &[u8])]) -> bool {
    if pieces.len() != wants.len() {
        return false;
    }
    for (piece, (id, octets)) in pieces.iter().zip(wants) {
        if piece.id != *id || piece.octets.as_slice() != *octets {
            return false;
        }
    }
    true
}

/// The octets of d from one call to another, with the text of the first.
fn refusal(alloc: Global, (from, to, text): Fields) -> Result<Vec<u8>, Fail> {
    let mut body = Vec::new(alloc);
    body.extend_from_slice(b"*** DISCONNECTED From Station ")?;
    body.extend_from_slice(text.as_bytes())?;
    body.push(b'\r')?;
    message(alloc, b'd', [from, to], &body)
}

fn assert_refusal<R: Abort>(
    rt: &R,
    desk: &mut Desk,
    place: (usize, usize),
    id: u32,
    fields: Fields,
) -> Result<(), Fail> {
    let piece = only_piece(desk)?;
    assert_equal(rt, &(place, piece.id), &(place, id));
    assert_is_refusal(rt, desk.alloc(), place, piece.octets.as_slice(), fields)
}

fn assert_is_refusal<R: Abort>(
    rt: &R,
    alloc: Global,
    place: (usize, usize),
    octets: &[u8],
    fields: Fields,
) -> Result<(), Fail> {
    let want = refusal(alloc, fields)?;
    assert_seen(rt, place, octets, &want);
    Ok(())
}

fn assert_told<R: Abort>(
    rt: &R,
    desk: &mut Desk,
    place: (usize, usize),
    want: &[u8],
) -> Result<(), Fail> {
    let told = desk.told()?;
    assert_seen(rt, place, &told, want);
    Ok(())
}

fn assert_message<R: Abort>(
    rt: &R,
    desk: &mut Desk,
    place: (usize, usize),
    (kind, (from, to), body): (u8, Ends, &[u8]),
) -> Result<(), Fail> {
    let want = message(desk.alloc(), kind, [from, to], body)?;
    assert_told(rt, desk, place, &want)
}

fn assert_kinds<R: Abort>(
    rt: &R,
    desk: &mut Desk,
    place: (usize, usize),
    want: &[u8],
) -> Result<(), Fail> {
    let kinds = desk.kinds()?;
    assert_seen(rt, place, &kinds, want);
    Ok(())
}

fn assert_sends<R: Abort>(
    rt: &R,
    desk: &mut Desk,
    place: (usize, usize),
    ticks: usize,
    want: &[u8],
) -> Result<(), Fail> {
    let sent = desk.tick(ticks)?;
    assert_seen(rt, place, &sent, want);
    Ok(())
}
