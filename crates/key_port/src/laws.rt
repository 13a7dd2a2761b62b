//! Laws on a key and its line, over any list of events (the newest first). A law is the contract of a function that
//! does nothing.
ghost use Rattle.std.specs.Prelude.{◌≡◌, ℕ, false, List, []};
ghost use Rattle.keying.specs.Laws.{commands, newest_keys};
ghost use Rattle.key_port.specs.KeyCalls.{IsReleased};
ghost use Rattle.key_port.specs.KeyEvents.{KeyEvent, Obeys, marks_of, lines_of, to_do};
ghost use Rattle.key_port.specs.KeyLines.{KeyLine, is_open, open_commands};

use keying::Words;

/// From a line without a connection on, whenever nothing is to be done, the commands that the machine knows are those
/// that stand on the connection, and if the last connection was given up it knows none. So each law on the machine's
/// commands is one on the line.
pub fn the_line_has_the_commands()
    ensures { (words : Words) (port start : ℕ) (was : List KeyLine) (events : List KeyEvent) → Obeys words events
        → is_open was ≡ false → to_do words events ≡ []
        → commands (marks_of words events) ≡ open_commands (lines_of port start was events) }
{}

/// At the end of a run the newest command on the connection releases, or there is no connection.
pub fn the_line_is_released_at_the_end()
    ensures { (words : Words) (port start octets : ℕ) (was : List KeyLine) (before after : List KeyEvent)
        → is_open was ≡ false → IsReleased words octets before after
        → newest_keys (open_commands (lines_of port start was after)) ≡ false }
{}
