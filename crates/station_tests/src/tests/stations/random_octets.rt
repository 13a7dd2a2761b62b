//! Random octets of hosts, in random pieces, between frames that are heard and ticks. Every call returns, and two
//! stations that are given the same octets in other pieces give the same.
ghost use Rattle.std.specs.Prelude.{◌<◌};

use super::desk::Desk;
use crate::{assert_equal, message};
use link_machine::Params;
use rand_core::utils::NextWord;
use rand_pcg::Lcg64Xsh32;
use selective_reject::Mode;
use station::HostOut;
use std::alloc::Global;
use std::test::Fail;

/// The kinds of messages, and one that no station knows.
const KINDS: &[u8; 22] = b"RGgXXxkKMVCCvcDDDdYyPz";

const ENDS: &[[&str; 2]; 6] = &[
    ["AAAA", "BBBB"],
    ["AAAA", "BBBB"],
    ["AAAA", "BBBB"],
    ["BBBB", "AAAA"],
    ["AAAA", "CCCC-7"],
    ["a b", ""],
];

/// Octets with a meaning in KISS.
const MARKS: &[u8; 8] = b"\xc0\xc0\xdb\xdc\xdd\0\0\x01";

/// From BBBB to AAAA, as a command and as a response, and from AAAA to BBBB.
const PATHS: &[&[u8; 14]; 3] = &[
    b"\x82\x82\x82\x82\x40\x40\xe0\x84\x84\x84\x84\x40\x40\x61",
    b"\x82\x82\x82\x82\x40\x40\x60\x84\x84\x84\x84\x40\x40\xe1",
    b"\x84\x84\x84\x84\x40\x40\x60\x82\x82\x82\x82\x40\x40\xe1",
];

/// SABM, SABME, UA, DISC, DM, FRMR and RR.
const CONTROLS: &[u8; 8] = b"\x3f\x7f\x73\x73\x53\x1f\x87\x01";

/// A number below `bound`.
fn below(draws: &mut Lcg64Xsh32, bound: usize) -> usize
    requires { 0 < bound }
    ensures { result < bound }
{
    draws.next_word() as usize % bound
}

/// An octet.
fn draw(draws: &mut Lcg64Xsh32) -> u8 {
    draws.next_word().to_le_bytes()[0]
}

/// So many octets, one in four of which has a meaning in KISS.
fn noise(alloc: Global, draws: &mut Lcg64Xsh32, len: usize) -> Result<Vec<u8>, Fail> {
    let mut octets = Vec::new(alloc);
    for _ in 0..len {
        let octet = draw(draws);
        if below(draws, 4) == 0 {
            octets.push(MARKS[octet as usize % 8])?;
        } else {
            octets.push(octet)?;
        }
    }
    Ok(octets)
}

/// Changes one octet, or none.
fn spoil(draws: &mut Lcg64Xsh32, octets: &mut Vec<u8>) {
    let place = below(draws, 256);
    if place < octets.len() {
        octets[place] = draw(draws);
    }
}

/// A message, of which an octet may be wrong.
fn request(alloc: Global, draws: &mut Lcg64Xsh32) -> Result<Vec<u8>, Fail> {
    let kind = KINDS[below(draws, 22)];
    let ends = ENDS[below(draws, 6)];
    let len = below(draws, 8) * below(draws, 60);
    let body = noise(alloc, draws, len)?;
    let mut octets = message(alloc, kind, ends, &body)?;
    spoil(draws, &mut octets);
    Ok(octets)
}

/// A frame, of which an octet may be wrong.
fn frame(alloc: Global, draws: &mut Lcg64Xsh32) -> Result<Vec<u8>, Fail> {
    let mut octets = PATHS[below(draws, 3)].to_vec(alloc)?;
    let control = draw(draws);
    if control < 128 {
        octets.push(CONTROLS[control as usize % 8])?;
    } else {
        octets.push(draw(draws))?;
    }
    let len = below(draws, 40);
    let rest = noise(alloc, draws, len)?;
    octets.extend_from_slice(&rest)?;
    spoil(draws, &mut octets);
    Ok(octets)
}

impl Desk {
    /// Octets of a connection in pieces of this size.
    fn take_in_pieces(&mut self, id: u32, octets: &[u8], size: usize) -> Result<(), Fail>
        requires { 0 < size }
    {
        for piece in octets.chunks(size) {
            self.take(id, piece)?;
        }
        Ok(())
    }

    /// Some ticks: what is sent in them, and what it gave since the last look.
    fn outcome(&mut self, ticks: usize) -> Result<[Vec<u8>; 2], Fail> {
        let sent = self.tick(ticks)?;
        let given = given(self.alloc(), &self.look())?;
        Ok([sent, given])
    }
}

/// Each connection's octets, each link's frames, and the connections that were closed.
fn given(alloc: Global, out: &HostOut) -> Result<Vec<u8>, Fail> {
    let mut given = Vec::new(alloc);
    for piece in &out.pieces {
        given.extend_from_slice(&piece.id.to_le_bytes())?;
        given.extend_from_slice(piece.octets.as_slice())?;
    }
    for frame in &out.queued {
        given.extend_from_slice(frame.as_slice())?;
    }
    for id in &out.closed {
        given.extend_from_slice(&id.to_le_bytes())?;
    }
    Ok(given)
}

/// Two stations, and what is drawn for both.
#[derive(Drop)]
struct Twins {
    draws: Lcg64Xsh32,
    one: Box<Desk>,
    other: Box<Desk>,
}

impl Twins {
    fn new(alloc: Global, seed: u64) -> Result<Twins, Fail> {
        let params = Params {
            mode: if seed % 2 == 0 { Mode::Rej } else { Mode::Srej },
            wide: seed % 3 == 0,
            ..Params::default()
        };
        Ok(Twins {
            draws: Lcg64Xsh32::new(seed, 1),
            one: Desk::new(alloc, params)?,
            other: Desk::new(alloc, params)?,
        })
    }

    /// Octets of a connection, in pieces of two sizes.
    fn take(&mut self, id: u32, octets: &[u8]) -> Result<(), Fail> {
        let size = 1 + below(&mut self.draws, 60);
        self.one.take_in_pieces(id, octets, size)?;
        let size = 1 + below(&mut self.draws, 60);
        self.other.take_in_pieces(id, octets, size)
    }

    /// A message to connection 1 or 2, octets to one of all three, or a frame that is heard.
    fn step(&mut self, alloc: Global) -> Result<(), Fail> {
        let id = 1 + u32::from(draw(&mut self.draws) % 3);
        match below(&mut self.draws, 32) {
            0..16 => {
                let octets = request(alloc, &mut self.draws)?;
                self.take(id.min(2), &octets)
            }
            16..20 => {
                let octets = noise(alloc, &mut self.draws, 60)?;
                self.take(3, &octets)
            }
            20 => {
                let octets = noise(alloc, &mut self.draws, 60)?;
                self.take(id, &octets)
            }
            _ => {
                let octets = frame(alloc, &mut self.draws)?;
                self.one.hear(&octets)?;
                self.other.hear(&octets)
            }
        }
    }

    /// Each connection that was closed joins again.
    fn join_all(&mut self) -> Result<(), Fail> {
        self.one.join_all()?;
        self.other.join_all()
    }

    /// Some ticks. Tells whether both stations have given and sent the same.
    fn agree(&mut self) -> Result<bool, Fail> {
        let ticks = below(&mut self.draws, 8);
        let one = self.one.outcome(ticks)?;
        let other = self.other.outcome(ticks)?;
        Ok(one == other)
    }
}

/// The first of 60 steps after which the two stations have not given and sent the same.
fn first_difference(alloc: Global, seed: u64) -> Result<Option<u32>, Fail> {
    let mut twins = Twins::new(alloc, seed)?;
    for step in 0..60_u32 {
        twins.step(alloc)?;
        if !twins.agree()? {
            return Ok(Some(step));
        }
        twins.join_all()?;
    }
    Ok(None)
}

#[test]
fn pieces_do_not_matter(rt: HostRuntime) -> Result<(), Fail> {
    for seed in 0..2_u64 {
        let difference = first_difference(rt.alloc(), seed)?;
        assert_equal(&rt, &(seed, difference), &(seed, None));
    }
    Ok(())
}
