//! The piece under way: the first octets of what it stands for so far, and whether an escape has begun.

ghost use Rattle.std.specs.Prelude.{◌≡◌, OnOk, OnErr, IfOk};

use crate::item::KissItem;
use crate::octet::{FEND, FESC, TFEND, TFESC};
use std::alloc::Global;
use std::marker::Model;
use tnc_base::OutOfMemory;

// The most octets that are kept: the first of a piece, and the 1026 after it.
const MOST_KEPT: usize = 1027;

#[derive(Drop)]
pub(crate) struct OpenPiece {
    alloc: Global,
    kept: Vec<u8>,
    long: bool,
    escaped: bool,
}

impl Model for OpenPiece {
    ghost use Rattle.std.specs.Prelude.{length, ◌≤◌};
    ghost use Rattle.kiss_port.specs.Held.{Held};

    ghost Value = { Held };

    ghost view = { λ k. record { kept = k.kept.items; long = k.long; escaped = k.escaped } };

    ghost invariant = { λ k. length k.kept.items ≤ 1027 };
}

impl OpenPiece {
    ghost use Rattle.kiss_port.specs.Held.{new_held, held_item, with_octet, keeping};

    // Nothing has come.
    pub(crate) fn new(alloc: Global) -> Self
        ensures { result ≡ new_held }
    {
        OpenPiece {
            alloc,
            kept: Vec::new(alloc),
            long: false,
            escaped: false,
        }
    }

    // Ends the piece, after which the next one begins.
    pub(crate) fn end(&mut self) -> Result<Option<KissItem>, OutOfMemory>
        ensures item { IfOk result (λ item. item ≡ held_item self.old) }
        ensures opened { OnOk result (self.new ≡ new_held) }
        ensures refused { OnErr result (self.new ≡ self.old) }
    {
        let item = KissItem::of_kept(self.alloc, self.long, &self.kept)?;
        self.kept.clear();
        self.long = false;
        self.escaped = false;
        Ok(item)
    }

    // Takes an octet of the piece.
    pub(crate) fn take(&mut self, octet: u8) -> Result<(), OutOfMemory>
        ensures taken { OnOk result (self.new ≡ with_octet self.old octet) }
        ensures refused { OnErr result (self.new ≡ self.old) }
    {
        if !self.escaped {
            if octet == FESC {
                self.escaped = true;
                return Ok(());
            }
            return self.keep(octet);
        }
        match octet {
            TFEND => self.keep(FEND)?,
            TFESC => self.keep(FESC)?,
            _ => {}
        }
        self.escaped = false;
        Ok(())
    }

    // Keeps an octet of what the piece stands for, if there is room.
    fn keep(&mut self, octet: u8) -> Result<(), OutOfMemory>
        ensures kept { OnOk result (self.new ≡ keeping self.old octet) }
        ensures refused { OnErr result (self.new ≡ self.old) }
    {
        if self.kept.len() == MOST_KEPT {
            self.long = true;
        } else {
            self.kept.push(octet)?;
        }
        Ok(())
    }
}
