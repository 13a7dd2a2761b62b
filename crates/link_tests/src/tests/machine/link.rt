//! A link to which words happen.
use super::kinds::kind_of;
use crate::tests::packets::packet;
use crate::tests::script::{Subject, assert_line, last_of, octet, parts, push_told};
use arrayvec::ArrayVec;
use ax25_address::{Call, Path, Role, reversed};
use ax25_frames::{Frame, Modulus, text_of};
use link_machine::{Acts, Link, Params};
use selective_reject::Mode;
use std::alloc::Global;
use std::process::Abort;
use std::test::Fail;

pub(super) fn path(dest: &str, source: &str) -> Result<Path, Fail> {
    Ok(Path {
        dest: Call::parse(dest)?,
        source: Call::parse(source)?,
        repeaters: ArrayVec::new(),
        role: Role::Command,
    })
}

/// Parameters of a link that calls modulo 128.
pub(super) fn wide() -> Params {
    Params {
        wide: true,
        ..Params::default()
    }
}

/// Parameters of a link that asks by SREJ in both moduli.
pub(super) fn srej() -> Params {
    Params {
        mode: Mode::Srej,
        ..Params::default()
    }
}

/// Parameters of a link that asks by REJ in both moduli.
pub(super) fn rej() -> Params {
    Params {
        wide_mode: Mode::Rej,
        ..Params::default()
    }
}

/// An idle link of A with B.
pub(super) fn idle(alloc: Global, params: Params) -> Result<Link, Fail> {
    Ok(Link::new(alloc, params, path("B", "A")?)?)
}

/// Asserts each line of a new link to which `before` happened.
pub(super) fn assert_rows<R: Abort>(
    rt: &R,
    alloc: Global,
    params: Params,
    before: &str,
    lines: &str,
) -> Result<(), Fail> {
    for line in lines.lines() {
        let mut link = idle(alloc, params)?;
        assert_row(rt, alloc, &mut link, before, line)?;
    }
    Ok(())
}

fn assert_row<R: Abort>(
    rt: &R,
    alloc: Global,
    link: &mut Link,
    before: &str,
    line: &str,
) -> Result<(), Fail> {
    last_of(alloc, link, before)?;
    assert_line(rt, alloc, link, line)
}

impl Subject for Link {
    fn happen(&mut self, alloc: Global, word: &str, text: &mut String) -> Result<(), Fail> {
        let (name, first, _, _) = parts(word);
        match name {
            "connect" => connect(alloc, self, text),
            "send" => send(alloc, self, octet(first), text),
            "sends" => send_all(alloc, self, first, text),
            "disconnect" => disconnect(alloc, self, text),
            "ticks" => tick(alloc, self, first, false, text),
            "waits" => tick(alloc, self, first, true, text),
            "turns" => seize(alloc, self, first, (false, false), text),
            "ends" => seize(alloc, self, 1, (true, false), text),
            "fulls" => seize(alloc, self, first, (false, true), text),
            "wants" => want(alloc, self, text),
            "asks" => ask(alloc, self, text),
            "hears" => hear_all(alloc, self, first, text),
            "look" => look(alloc, self, text),
            _ => hear(alloc, self, word, text),
        }
    }
}

fn connect(alloc: Global, link: &mut Link, text: &mut String) -> Result<(), Fail> {
    note(alloc, link.connect()?, text)
}

fn disconnect(alloc: Global, link: &mut Link, text: &mut String) -> Result<(), Fail> {
    note(alloc, link.disconnect()?, text)
}

fn send(alloc: Global, link: &mut Link, name: u8, text: &mut String) -> Result<(), Fail> {
    note(alloc, link.send(packet(alloc, &[name])?)?, text)
}

fn send_all(alloc: Global, link: &mut Link, count: u16, text: &mut String) -> Result<(), Fail> {
    for number in 0..count {
        send(alloc, link, octet(number), text)?;
    }
    Ok(())
}

fn tick(
    alloc: Global,
    link: &mut Link,
    count: u16,
    still: bool,
    text: &mut String,
) -> Result<(), Fail> {
    for _ in 0..count {
        note(alloc, link.tick(still)?, text)?;
    }
    Ok(())
}

/// The channel takes so many frames; `last` and `full` as in [`Link::seize`].
fn seize(
    alloc: Global,
    link: &mut Link,
    count: u16,
    (last, full): (bool, bool),
    text: &mut String,
) -> Result<(), Fail> {
    for _ in 0..count {
        note(alloc, link.seize(last, full)?, text)?;
    }
    Ok(())
}

fn want(alloc: Global, link: &Link, text: &mut String) -> Result<(), Fail> {
    let wants = link.wants();
    text.push_str(format!(in alloc; "{wants}")?.as_str())?;
    Ok(())
}

/// Appends the events that would make the link send SABM, SABME or DISC.
fn ask(alloc: Global, link: &Link, text: &mut String) -> Result<(), Fail> {
    let frmr = Frame {
        path: reversed(&path("B", "A")?, Role::Response),
        kind: kind_of(alloc, "FRMR", link.modulus())?,
    };
    let by_frame = link.frame_asks(&frmr);
    push_asked(link, by_frame, text)
}

fn push_asked(link: &Link, by_frame: bool, text: &mut String) -> Result<(), Fail> {
    let asked = [
        ("connect,", link.connect_asks()),
        ("disconnect,", link.disconnect_asks()),
        ("tick,", link.tick_asks(false)),
        ("turn,", link.seize_asks()),
        ("FRMR,", by_frame),
        ("I,", link.info_asks(1)),
    ];
    for (name, asks) in asked {
        if asks {
            text.push_str(name)?;
        }
    }
    Ok(())
}

fn look(alloc: Global, link: &Link, text: &mut String) -> Result<(), Fail> {
    let state = link.state();
    let modulus = link.modulus();
    text.push_str(format!(in alloc; "{state:?} {modulus:?}")?.as_str())?;
    Ok(())
}

fn hear_all(alloc: Global, link: &mut Link, count: u16, text: &mut String) -> Result<(), Fail> {
    for number in 0..count {
        let word = format!(in alloc; "I/{number}/0/0")?;
        hear(alloc, link, word.as_str(), text)?;
    }
    Ok(())
}

fn hear(alloc: Global, link: &mut Link, word: &str, text: &mut String) -> Result<(), Fail> {
    let (name, _, _, _) = parts(word);
    let role = if name.ends_with('c') {
        Role::Command
    } else {
        Role::Response
    };
    let kind = kind_of(alloc, word, link.modulus())?;
    let frame = Frame {
        path: reversed(&path("B", "A")?, role),
        kind,
    };
    note(alloc, link.frame(&frame)?, text)
}

/// Appends what the link does: the lines of frames, and what is told, each with a comma.
fn note(alloc: Global, acts: Acts, text: &mut String) -> Result<(), Fail> {
    for sent in &acts.frames {
        text.push_str(text_of(alloc, &sent.frame)?.as_str())?;
        text.push_str(match sent.modulus {
            Modulus::Eight => ",",
            Modulus::OneTwentyEight => "/128,",
        })?;
    }
    push_told(alloc, &acts.told, text)
}
