//! One turn of a receiver.

ghost use Rattle.std.specs.Prelude.{◌≡◌, ◌+◌, ◌<◌, ◌^◌, ◌++◌, List, true, false, IfOk, OnOk};
ghost use Rattle.sample_ring.specs.declared.view.Entry.{Entry};
ghost use Rattle.sample_ring.specs.Ends.{ring_id, ring_len, reader_ring, reads_of};
ghost use Rattle.frame_merge.specs.declared.candidate.Candidate.{Candidate};
ghost use Rattle.slicer_bank.specs.Stretches.{Stretch};
ghost use Rattle.stretch_reader.specs.Turns.{Finishes};
ghost use Rattle.fx25_ring.specs.HeardInBlocks.{AreHeardInOne};
ghost use Rattle.fx25_ring.specs.Held.{AreInStep, AreTogether, ListenTo, StandForStretch, are_sensitive, place_of};
ghost use Rattle.fx25_ring.specs.Held.{receiver_of};
ghost use Rattle.fx25_ring.specs.Turns.{MakesTurn};

use crate::lanes::Lanes;
use ring_receiver::Heard;
use sample_ring::{Reader, Ring};
use std::alloc::Global;
use stretch_reader::{StretchLanes, Turn, read_on};
use tnc_base::OutOfMemory;

/// The lane of which a gap is reported: all lanes share one reader.
const LANE: u8 = 0;

/// The reader reads on, and the items that are due are taken.
pub(crate) fn hear(
    alloc: Global,
    ring: &Ring,
    reader: &mut Reader,
    lanes: &mut Lanes,
) -> Result<Heard, OutOfMemory>
    requires ring { reader_ring reader.old ≡ ring_id ring.now }
    requires step { AreInStep reader.old lanes.old }
    ensures ring { reader_ring reader.new ≡ ring_id ring.now }
    ensures grown { (entries : List Entry) × (reads_of reader.new ≡ reads_of reader.old ++ entries) }
    ensures made { IfOk result (MakesTurn (ring_len ring.now) (receiver_of reader.old lanes.old false)
        (receiver_of reader.new lanes.new false)) }
    ensures sensitive { are_sensitive lanes.new ≡ are_sensitive lanes.old }
    ensures flags { lanes.new.flags ≡ lanes.old.flags }
{
    let mut turn = read_on(alloc, ring, reader, LANE, lanes)?;
    end_stretch(lanes, &mut turn)?;
    Ok(Heard {
        items: turn.items,
        gaps: turn.gaps,
        least: reader.at(),
        ended: turn.ended,
    })
}

/// Adds what is left of the last stretch, if the ring has ended.
fn end_stretch(lanes: &mut Lanes, turn: &mut Turn) -> Result<(), OutOfMemory>
    requires room { place_of lanes.old < 2 ^ 48 }
    requires step { AreTogether lanes.old }
    ensures stays { OnOk result (turn.old.ended ≡ false
        → (lanes.new ≡ lanes.old) × (turn.new.items.items ≡ turn.old.items.items)) }
    ensures ends { OnOk result (turn.old.ended ≡ true → (s : Stretch) (own : List Candidate)
        → StandForStretch lanes.old s own
        → Finishes (AreHeardInOne (are_sensitive lanes.old)) s own turn.old.items.items turn.new.items.items) }
    ensures listens { OnOk result ((s : Stretch) → ListenTo lanes.old s → ListenTo lanes.new s) }
    ensures gaps { turn.new.gaps.items ≡ turn.old.gaps.items }
    ensures ended { turn.new.ended ≡ turn.old.ended }
    ensures sensitive { are_sensitive lanes.new ≡ are_sensitive lanes.old }
    ensures flags { lanes.new.flags ≡ lanes.old.flags }
{
    if turn.ended {
        return lanes.finish(&mut turn.items);
    }
    Ok(())
}
