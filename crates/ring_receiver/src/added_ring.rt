//! The added lanes with their reader of the ring.

ghost use Rattle.std.specs.Prelude.{◌≡◌, ◌≤◌, [], vec_capacity};

use crate::added_lanes::AddedLanes;
use sample_ring::{Reader, Ring};
use std::alloc::Global;
use stretch_reader::{Turn, read_on};
use tnc_base::OutOfMemory;

/// The first of the added lanes. A gap that their reader is told of is reported as one of this lane.
const FIRST_ADDED: u8 = 8;

/// The added lanes, and the reader whose samples they hear.
#[derive(Drop)]
pub struct AddedRing {
    pub(crate) reader: Reader,
    pub(crate) lanes: AddedLanes,
    // The Vec that the nine readers came in. It has room for them and is empty until they go back to it.
    room: Vec<Reader>,
    ghost empty: { room.items ≡ [] },
    ghost has_room: { 9 ≤ vec_capacity room },
}

impl AddedRing {
    ghost use Rattle.std.specs.Prelude.{ℕ, ◌-◌, ◌<◌, ◌^◌, List, ◌∷◌, ◌++◌, length, IfOk, OnOk};
    ghost use Rattle.std.specs.List.{All};
    ghost use Rattle.sample_ring.specs.declared.view.Entry.{Entry};
    ghost use Rattle.sample_ring.specs.Ends.{IsNew, ring_id, ring_len, reader_ring, position_of, reads_of};
    ghost use Rattle.sensitive_receiver.specs.Found.{CanBePutFrom};
    ghost use Rattle.ring_receiver.specs.AddedTurns.{MadeAddedTurn};
    ghost use Rattle.ring_receiver.specs.HeldReceiver.{AddedListens, place_of};

    /// Added lanes that have heard nothing, with a reader that has read nothing and the Vec that it came in.
    pub(crate) fn new(
        alloc: Global,
        reader: Reader,
        room: Vec<Reader>,
    ) -> Result<AddedRing, OutOfMemory>
        requires fresh { IsNew reader }
        requires empty { room.items ≡ [] }
        requires has_room { 9 ≤ vec_capacity room }
        ensures reader { IfOk result (λ lanes. lanes.reader ≡ reader) }
        ensures nothing { IfOk result (λ lanes. reads_of lanes.reader ≡ []) }
        ensures listens { IfOk result (λ lanes. (len : ℕ) → AddedListens len lanes) }
        ensures at { IfOk result (λ lanes. place_of lanes.lanes ≡ position_of lanes.reader) }
        ensures start { IfOk result (λ lanes. position_of lanes.reader ≡ 0) }
    {
        Ok(AddedRing {
            reader,
            lanes: AddedLanes::new(alloc)?,
            room,
        })
    }

    /// Makes a turn of reading: until the ring is empty or has ended, or as often as a lane reads in a turn.
    pub(crate) fn advance(&mut self, ring: &Ring) -> Result<Turn, OutOfMemory>
        requires ring { reader_ring self.old.reader ≡ ring_id ring.now }
        requires at { place_of self.old.lanes ≡ position_of self.old.reader }
        requires room { position_of self.old.reader < 2 ^ 48 }
        ensures ring { reader_ring self.new.reader ≡ reader_ring self.old.reader }
        ensures grown { (entries : List Entry) × (reads_of self.new.reader ≡ reads_of self.old.reader ++ entries) }
        ensures made { IfOk result (λ turn. MadeAddedTurn (ring_len ring.now) self.old self.new turn) }
        ensures at { OnOk result (place_of self.new.lanes ≡ position_of self.new.reader) }
        ensures room { OnOk result (position_of self.new.reader < 2 ^ 48) }
        ensures comes { IfOk result (λ turn.
            All (CanBePutFrom (position_of self.old.reader - 32)) turn.items.items) }
    {
        read_on(
            self.lanes.alloc,
            ring,
            &mut self.reader,
            FIRST_ADDED,
            &mut self.lanes,
        )
    }

    /// Its reader after those of the eight lanes, in the Vec that all of them came in. It takes no memory.
    pub(crate) fn finish(self, eight: Vec<Reader>) -> Vec<Reader>
        requires { length eight.items ≡ 8 }
        ensures { result.items ≡ eight.items ++ self.reader ∷ [] }
    {
        let AddedRing {
            reader,
            mut room,
            ..
        } = self;
        for other in eight {
            room.push_reserved(other);
        }
        room.push_reserved(reader);
        room
    }
}
