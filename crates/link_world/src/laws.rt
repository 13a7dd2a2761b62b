//! Laws on worlds. A law is the contract of a function that does nothing.
ghost use Rattle.std.specs.Prelude.{◌≡◌, ◌↔◌, List, map};
ghost use Rattle.link_world.specs.declared.event.Event.{Event};
ghost use Rattle.link_world.specs.World.{World, step, run};
ghost use Rattle.link_world.specs.Untagged.{untagged, untagged_step};
ghost use Rattle.link_world.specs.Law.{PrefixLaw};
ghost use Rattle.link_world.specs.Quiet.{IsQuietRun};
ghost use Rattle.link_world.specs.Changes.{ChangesLaw, AreQuiet, run_changes};
ghost use Rattle.link_world.specs.Changes.Change.{Happens};

/// What the two links do, and which frames are in flight, never depends on tags and records: without them the step of a
/// world is one step of one machine, whose frames go after those in flight to the other, or the loss of a frame.
pub fn tags_do_not_matter()
    ensures { (w : World) (event : Event) → untagged (step w event) ≡ untagged_step (untagged w) event }
{}

/// The law of two links. In every run of events from a new world whose windows fit each other, in which each SABM and
/// DISC enters a quiet channel and an idle end hears a SABM only when no SABM or DISC of its own is in flight: what
/// each set-up of an end got is, packet for packet and in order, a prefix of what the other end was given in one set-up
/// of its own, its origin; origins rise strictly; a set-up acts on frames of one set-up alone; and no link that is up
/// hears an invalid N(R). So nothing is made up, doubled or put in another order, whatever is lost. That anything
/// arrives is not said.
pub fn prefix_law()
    ensures { PrefixLaw }
{}

/// The same law of two links that come and go, as two stations have them: while an end is idle its link may be made
/// anew on any path, and any of the frames that an event sends may be lost as they are sent. Each SABM and DISC still
/// has to enter a quiet channel, also one that is then lost. If nothing but events happens, the run is the run of the
/// world, and it is quiet if that is.
pub fn changes_law()
    ensures law { ChangesLaw }
    ensures run_of_events { (w : World) (events : List Event) → run_changes w (map Happens events) ≡ run w events }
    ensures quiet_events { (w : World) (events : List Event) → AreQuiet w (map Happens events) ↔ IsQuietRun w events }
{}
