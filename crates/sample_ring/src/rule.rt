//! The rule of the table, and what each kind of step tells.
use crate::view::View;
use atomic_table::{Join, Play, Split, TableRule};

/// All words and all views describe one published list. The key is the number of cells.
pub struct RingRule;

impl TableRule<(), View, usize> for RingRule {
    ghost use Rattle.sample_ring.specs.Rule.{Holds};
    ghost use Rattle.sample_ring.specs.Views.{first_view};

    ghost holds = { Holds };

    ghost first = { first_view };
}

/// The writer stores a cell.
pub(crate) struct Publish;

impl Play<(), View> for Publish {
    ghost use Rattle.sample_ring.specs.Steps.{published};

    ghost then = { published };
}

/// The writer stores the end word.
pub(crate) struct Finish;

impl Play<(), View> for Finish {
    ghost use Rattle.sample_ring.specs.Steps.{ended};

    ghost then = { ended };
}

/// A reader loads its cell.
pub(crate) struct Look;

impl Play<(), View> for Look {
    ghost use Rattle.sample_ring.specs.Steps.{looked};

    ghost then = { looked };
}

/// A reader loads the end word, if its cell is not yet written.
pub(crate) struct LookLast;

impl Play<(), View> for LookLast {
    ghost use Rattle.sample_ring.specs.Steps.{looked_last};

    ghost then = { looked_last };
}

/// A seat loads the first cell after a join.
pub(crate) struct Settle;

impl Play<(), View> for Settle {
    ghost use Rattle.sample_ring.specs.Steps.{settled};

    ghost then = { settled };
}

/// A note, or at the start a reader, is cut from the writer.
pub(crate) struct NoteCut;

impl Split<View> for NoteCut {
    ghost use Rattle.sample_ring.specs.Views.{note_of};

    ghost left = { λ v. v };

    ghost right = { note_of };
}

/// A reader takes in a note.
pub(crate) struct Learn;

impl Join<View> for Learn {
    ghost use Rattle.sample_ring.specs.Views.{noted, spent_view};

    ghost both = { noted };

    ghost spent = { spent_view };
}

/// An ended writer takes in a reader, and keeps its record.
pub(crate) struct Keep;

impl Join<View> for Keep {
    ghost use Rattle.sample_ring.specs.Views.{keeping, spent_view};

    ghost both = { keeping };

    ghost spent = { spent_view };
}
