//! The law of a receiver whose added lanes do not listen. A law is the contract of a function that does nothing.

ghost use Rattle.std.specs.Prelude.{◌≡◌, ◌↔◌, true, false, List};
ghost use Rattle.sample_ring.specs.declared.got.Got.{Got};
ghost use Rattle.frame_merge.specs.declared.candidate.Candidate.{Candidate};
ghost use Rattle.slicer_bank.specs.HeardOnRing.{AreMergedOnRing, AreRestOnRing, least_position};
ghost use Rattle.ring_receiver.specs.HeardByAll.{AreDueBy};

/// Where only the eight lanes listen, what is due is what is merged of what these hear: below the least position, and
/// all the rest once the ring has ended.
pub fn eight_lanes_alone()
    ensures merged { (before now : List (List Got)) (items : List Candidate)
        → AreDueBy false false before now items
        ↔ AreMergedOnRing (least_position before) (least_position now) now items }
    ensures rest { (before now : List (List Got)) (items : List Candidate)
        → AreDueBy false true before now items ↔ AreRestOnRing (least_position before) now items }
{}
