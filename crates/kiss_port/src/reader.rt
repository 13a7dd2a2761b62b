//! A stream of KISS as its octets come.

ghost use Rattle.std.specs.Prelude.{◌≡◌, ℕ, List, [], ◌∷◌, ◌++◌, OnOk, OnErr, IfOk};
ghost use Rattle.std.specs.Option.{option_to_list};

use crate::item::KissItem;
use crate::octet::FEND;
use crate::open_piece::OpenPiece;
use std::alloc::Global;
use std::marker::Model;
use tnc_base::OutOfMemory;

/// Reads a stream of KISS octet by octet.
#[derive(Drop)]
pub struct KissIn {
    piece: OpenPiece,
}

impl Model for KissIn {
    ghost use Rattle.kiss_port.specs.Held.{Held, StandsForSome};

    ghost Value = { Held };

    ghost view = { λ k. k.piece };

    ghost invariant = { λ k. StandsForSome k.piece };
}

impl KissIn {
    ghost use Rattle.kiss_port.specs.Held.{StandsFor, StandsForSome};
    ghost use Rattle.kiss_port.specs.Items.{items_in};

    /// A reader to which no octet has come, which is as one right after a FEND. It takes memory from `alloc`.
    pub fn new(alloc: Global) -> Self
        ensures stands_for { StandsFor result [] }
    {
        KissIn {
            piece: OpenPiece::new(alloc),
        }
    }

    /// Takes the next octet, and gives the item that ends with it. Fails only for want of memory, and has then not
    /// taken the octet.
    pub fn push(&mut self, octet: u8) -> Result<Option<KissItem>, OutOfMemory>
        ensures stood { StandsForSome self.old }
        ensures stands_for { (stream : List ℕ) → StandsFor self.old stream
            → OnOk result (StandsFor self.new (stream ++ octet ∷ [])) }
        ensures item { (stream : List ℕ) → StandsFor self.old stream
            → IfOk result (λ item. items_in (stream ++ octet ∷ []) ≡ items_in stream ++ option_to_list item) }
        ensures refused { OnErr result (self.new ≡ self.old) }
    {
        if octet == FEND {
            return self.piece.end();
        }
        self.piece.take(octet)?;
        Ok(None)
    }
}
