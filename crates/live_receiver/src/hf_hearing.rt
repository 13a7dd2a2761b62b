//! One turn of a receiver of short wave.

ghost use Rattle.std.specs.Prelude.{◌≡◌, ◌++◌, List, false, IfOk};
ghost use Rattle.sample_ring.specs.declared.view.Entry.{Entry};
ghost use Rattle.sample_ring.specs.Ends.{ring_id, ring_len, reader_ring, reads_of};
ghost use Rattle.live_receiver.specs.HeldHf.{AreInStep, hf_of};
ghost use Rattle.live_receiver.specs.HfTurns.{MakesHfTurn};

use crate::hf_lanes::HfLanes;
use crate::hf_merging::{put_all, settle};
use frame_merge::Merger;
use ring_receiver::Heard;
use sample_ring::{Reader, Ring};
use std::alloc::Global;
use stretch_reader::read_on;
use tnc_base::OutOfMemory;

/// The lane of which a gap is reported: all lanes share one reader.
const LANE: u8 = 0;

/// The reader reads on, and the items that are due are taken.
pub(crate) fn hear(
    alloc: Global,
    ring: &Ring,
    reader: &mut Reader,
    lanes: &mut HfLanes,
    merger: &mut Merger,
) -> Result<Heard, OutOfMemory>
    requires ring { reader_ring reader.old ≡ ring_id ring.now }
    requires step { AreInStep reader.old lanes.old merger.old }
    ensures ring { reader_ring reader.new ≡ ring_id ring.now }
    ensures grown { (entries : List Entry) × (reads_of reader.new ≡ reads_of reader.old ++ entries) }
    ensures made { IfOk result (MakesHfTurn (ring_len ring.now) (hf_of reader.old lanes.old merger.old false)
        (hf_of reader.new lanes.new merger.new false)) }
    ensures sensitive { lanes.new.sensitive ≡ lanes.old.sensitive }
    ensures flags { lanes.new.bank.flags ≡ lanes.old.bank.flags }
{
    let turn = read_on(alloc, ring, reader, LANE, lanes)?;
    put_all(merger, turn.items)?;
    let position = reader.at();
    let items = settle(merger, lanes.sensitive, position, turn.ended)?;
    Ok(Heard {
        items,
        gaps: turn.gaps,
        least: position,
        ended: turn.ended,
    })
}
