//! Laws on the key, over any list of calls (the newest first). A law is the contract of a function that does nothing.
ghost use Rattle.std.specs.Prelude.{◌≡◌, ◌≤◌, ◌<◌, ◌+◌, ◌-◌, ◌++◌, ◌∷◌, ◌⊎◌, ℕ, true, false, Bool, List, Option, Some};
ghost use Rattle.std.specs.Prelude.{None, length, take};
ghost use Rattle.std.specs.List.{list_any};
ghost use Rattle.keying.specs.declared.command.Command.TheVariants.{Release};
ghost use Rattle.keying.specs.declared.ending.Ending.TheVariants.{Over};
ghost use Rattle.keying.specs.Calls.{Call, called, history, heard, read, ticked, ended};
ghost use Rattle.keying.specs.Calls.Call.{Tick};
ghost use Rattle.keying.specs.Key.{is_free};
ghost use Rattle.keying.specs.Keyed.{on, lit, owed, ticks, wanted, ending, retried};
ghost use Rattle.keying.specs.Laws.{commands, accepted, newest_keys, Alternate, EndsTail, TellsEnd, NoneTellsEnd};
ghost use Rattle.keying.specs.Line.{waiting, time};
ghost use Rattle.keying.specs.Marks.{Mark};
ghost use Rattle.keying.specs.Told.{keying_command, tick_told, ending_told, is_in_time};

use crate::line::End;
use crate::machine::Words;

/// On a connection the first command releases, and each other one does the opposite of the one before.
pub fn commands_alternate()
    ensures { (words : Words) (calls : List Call) → Alternate (commands (history words calls)) }
{}

/// At most two commands have no answer.
pub fn at_most_two_are_due()
    ensures { (words : Words) (calls : List Call) → length (waiting (history words calls)) ≤ 2 }
{}

/// While the radio is free, each command of the connection was accepted, and the newest one releases.
pub fn a_free_radio_accepted_each_command()
    ensures { (words : Words) (calls : List Call) → let past = history words calls in is_free words past ≡ true
        → (accepted past ≡ length (commands past)) × (1 ≤ length (commands past))
        × (newest_keys (commands past) ≡ false) }
{}

/// A keying command is written only before a tick with sound, and only while the radio is free.
pub fn only_a_free_radio_is_keyed()
    ensures { (words : Words) (calls : List Call) (sounds : Bool) → let past = history words calls in
        (tick_told words sounds past).command ≡ Some (keying_command words)
        → (is_free words past ≡ true) × (sounds ≡ true) }
{}

/// Below its limit, a tick leaves the key on exactly if it, or one of the `tail` ticks before it, has sound.
pub fn the_key_stays_on()
    ensures { (words : Words) (calls : List Call) (sounds : Bool) → let past = history words calls in on past ≡ true
        → lit past < 9000 → on (ticked words sounds past) ≡ wanted words.tail (sounds ∷ ticks past) }
{}

/// A release before a tick, if it is not for the limit, stands right before the samples of a tick without sound, before
/// which exactly `tail` ticks had none.
pub fn the_tail_is_exact()
    ensures { (words : Words) (calls : List Call) (sounds : Bool) → let past = history words calls in
        tick_told words sounds past ≡ record { command = Some Release; report = None }
        → (sounds ≡ false) × EndsTail words.tail (ticks past) }
{}

/// The key is never on for more than 9000 ticks in a row.
pub fn the_key_has_a_limit()
    ensures { (words : Words) (calls : List Call) → lit (history words calls) ≤ 9000 }
{}

/// If the ticks since the keying command had sound among the first ones at most, the key is on for at most `tail` ticks
/// more than those.
pub fn the_key_follows_the_sound()
    ensures { (words : Words) (calls : List Call) (first : ℕ) → let past = history words calls in on past ≡ true
        → list_any (λ sounds. sounds) (take (lit past - first) (ticks past)) ≡ false
        → lit past ≤ first + words.tail }
{}

/// Sound among the first ticks alone is never cut off by the limit, if these and the tail are fewer than 9000.
pub fn short_sound_meets_no_limit()
    ensures { (words : Words) (calls : List Call) (first : ℕ) (sounds : Bool) → let past = history words calls in
        list_any (λ sounds. sounds) (take (lit past - first) (ticks past)) ≡ false → first + words.tail < 9000
        → (tick_told words sounds past).report ≡ None }
{}

/// A call ends the key only if its answer tells it: by a loss that is reported, or by a release that is written.
pub fn an_end_of_the_key_is_told()
    ensures { (words : Words) (calls : List Call) (call : Call) → let past = history words calls in on past ≡ true
        → on (called words call past) ≡ false → TellsEnd words call past }
{}

/// No sound without a key: from the first tick of a transmission that begins while the radio is free, the key is on
/// until the answer of a call tells its end.
pub fn a_transmission_stays_keyed()
    ensures { (words : Words) (calls later : List Call) → is_free words (history words calls) ≡ true
        → NoneTellsEnd words later (Tick true ∷ calls) → on (history words (later ++ Tick true ∷ calls)) ≡ true }
{}

/// After a call at the end of the run, the newest command on the connection releases, or there is no connection.
pub fn the_end_releases()
    ensures { (words : Words) (calls : List Call) (now : ℕ) (octets : List ℕ) (end : Option End)
        → newest_keys (commands (ended words now octets end (history words calls))) ≡ false }
{}

/// The end of the run is over only if no keying command waits for an accepted release, or one more connection was
/// begun, or 1000 ms have passed.
pub fn the_end_owes_nothing()
    ensures { (words : Words) (calls : List Call) (now : ℕ) (octets : List ℕ) (end : Option End)
        → let past = history words calls in let come = read words now octets end past in
        ending_told words now octets end past ≡ Over
        → (owed come ≡ false) ⊎ ((retried come ≡ true) ⊎ (is_in_time (ending come) (time come) ≡ false)) }
{}

/// Octets come to the same in whatever pieces they are read.
pub fn pieces_do_not_matter()
    ensures { (words : Words) (first second : List ℕ) (past : List Mark)
        → heard words (first ++ second) past ≡ heard words second (heard words first past) }
{}
