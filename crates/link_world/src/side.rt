//! An end's link with the frames in flight towards it.
ghost use Rattle.std.specs.Prelude.{◌≡◌, ℕ, ◌+◌, ◌≤◌, ◌↔◌, ◌++◌, [], ◌⊎◌, true, false, map, drop, length, IfOk, IfErr};
ghost use Rattle.std.specs.Prelude.{OnOk, OnErr};
ghost use Rattle.std.specs.Result.{IsErrOf};
ghost use Rattle.std.specs.VecDeque.{deque_len, deque_capacity};
ghost use Rattle.link_machine.specs.Params.{IsRefusedWindow};
ghost use Rattle.link_world.specs.World.{new_side};
ghost use Rattle.link_world.specs.Held.{IsSide, StandsForSide, flying, asking, answering};

use crate::flight::{InFlight, asks, is_answer};
use ax25_address::Path;
use link_machine::{Link, NewFault, Params, SentFrame};
use std::alloc::Global;
use std::collections::VecDeque;
use tnc_base::OutOfMemory;

/// An end's link, and the frames in flight towards it, the earliest first.
#[derive(Drop)]
pub(crate) struct Side {
    pub(crate) link: Link,
    pub(crate) towards: VecDeque<InFlight>,
}

impl Side {
    /// An idle link on a path, and nothing in flight.
    pub(crate) fn new(alloc: Global, params: Params, path: Path) -> Result<Side, NewFault>
        ensures stands_for { IfOk result (λ side. StandsForSide side (new_side path params)) }
        ensures formed { IfOk result IsSide }
        ensures bad_window { (window : ℕ) → IsErrOf result (NewFault.BadWindow window)
            ↔ IsRefusedWindow params window }
    {
        match Link::new(alloc, params, path) {
            Ok(link) => Ok(Side {
                link,
                towards: VecDeque::new(alloc),
            }),
            Err(fault) => Err(fault),
        }
    }

    /// Takes room for so many more frames towards it.
    pub(crate) fn make_room(&mut self, count: usize) -> Result<(), OutOfMemory>
        ensures link { self.new.link ≡ self.old.link }
        ensures towards { self.new.towards.items ≡ self.old.towards.items }
        ensures room { OnOk result (deque_len self.new.towards + count ≤ deque_capacity self.new.towards) }
    {
        self.towards.reserve(count)?;
        Ok(())
    }

    /// How many SABM, SABME and DISC are in flight towards it.
    pub(crate) fn asking(&self) -> usize
        ensures { result ≡ asking self.now.towards.items }
    {
        self.towards
            .iter()
            .filter(|f| asks(&f.sent.frame.kind))
            .count()
    }

    /// How many answers to one are in flight towards it, after the first `heard` frames.
    pub(crate) fn answering(&self, heard: usize) -> usize
        ensures { result ≡ answering (drop heard self.now.towards.items) }
    {
        self.towards
            .iter()
            .skip(heard)
            .filter(|f| f.answers)
            .count()
    }

    /// Puts the frames after those in flight towards it.
    pub(crate) fn append(&mut self, frames: Vec<SentFrame>, on_ask: bool)
        requires { deque_len self.old.towards + length frames.items ≤ deque_capacity self.old.towards }
        ensures link { self.new.link ≡ self.old.link }
        ensures towards { self.new.towards.items ≡ self.old.towards.items ++ map (flying on_ask) frames.items }
    {
        for sent in frames {
            let answers = on_ask && is_answer(&sent.frame.kind);
            self.towards.push_back_reserved(InFlight { sent, answers });
        }
    }
}
