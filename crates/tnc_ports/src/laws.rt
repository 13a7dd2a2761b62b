//! What the definitions say of all steps, in fewer words than they have themselves.
ghost use Rattle.std.specs.Prelude.{◌≡◌, ◌↔◌, ℕ, Bool, true, false, List, Option, Some, None};
ghost use Rattle.key_port.specs.KeyLines.{KeyLine, is_open};
ghost use Rattle.sample_ring.specs.declared.got.Got.{Got};
ghost use Rattle.tnc_base.specs.Streams.{SourceTold};
ghost use Rattle.tnc_ports.specs.declared.looping.LoopEnd.{LoopEnd};
ghost use Rattle.tnc_ports.specs.declared.serve_words.KeyWords.{KeyWords};
ghost use Rattle.tnc_ports.specs.declared.serve_words.ServeWords.{ServeWords};
ghost use Rattle.tnc_ports.specs.declared.serving.ServeEnd.{ServeEnd};
ghost use Rattle.tnc_ports.specs.KeyLaws.{BeginsKeyed, EndsReleased, IsKeptWithin};
ghost use Rattle.tnc_ports.specs.KeyRuns.{IsKeyedRun};
ghost use Rattle.tnc_ports.specs.RunTicks.{ticks_served};
ghost use Rattle.tnc_ports.specs.Sampled.{Live, IsTicked, IsKeyTurn};
ghost use Rattle.tnc_ports.specs.SampledRun.{Outside, IsLooped};
ghost use Rattle.tnc_ports.specs.ServeRun.{IsServed};
ghost use Rattle.tnc_ports.specs.StepShuts.{StepsAreHeard};
ghost use Rattle.tnc_ports.specs.Unkeyed.{IsPlainTick};

/// A step of the station shuts a connection exactly when it closes it, or if all that it says to it is more than
/// may wait for it, with what waits already. For every other connection all that it says waits, in order.
pub fn steps_are_heard()
    ensures heard { StepsAreHeard }
{}

/// Without key words a tick is a plain one, and a turn of the key changes nothing.
pub fn a_tick_without_a_key_is_plain()
    ensures ticks { (words : ServeWords) (busy : Bool) (before after : Live) → words.key ≡ None
        → IsTicked words busy before after ↔ IsPlainTick words busy before after }
    ensures turns { (words : ServeWords) (before after : Live) → words.key ≡ None
        → IsKeyTurn words before after ↔ (after ≡ before) }
{}

/// In half duplex a transmission begins only in a tick in which nobody is heard, each command on the connection was
/// accepted and the newest one releases; its first tick has sound. It is keyed before the samples of that tick, and stays
/// keyed until a call tells the end of the key.
pub fn a_transmission_begins_keyed()
    ensures { (words : ServeWords) (key : KeyWords) (busy : Bool) (before after : Live) → words.key ≡ Some key
        → (tick : IsTicked words busy before after) → tick.air.began ≡ true
        → before.hosts.station.channel.parameters.full_duplex ≡ false
        → BeginsKeyed key.words busy tick.air.samples before.keyed }
{}

/// At no moment of a station's turns, however they end, has the key been on for more than 9000 ticks; and on each
/// connection the first command releases, and each other one does the opposite of the one before.
pub fn the_key_is_kept_within_its_limit()
    ensures { (words : ServeWords) (key : KeyWords) (end : LoopEnd) (answers : List (List Got))
        (before after : Outside) (was : List KeyLine) (out : List ℕ) → words.key ≡ Some key
        → IsLooped words end answers before after → before.line.lines ≡ Some was → before.output.written ≡ Some out
        → is_open was ≡ false → IsKeptWithin key was out after }
{}

/// However the turns of a station with a key end, the newest command on the connection releases, or there is no
/// connection. There was none before.
pub fn the_key_is_released_at_every_end()
    ensures { (words : ServeWords) (key : KeyWords) (end : LoopEnd) (answers : List (List Got))
        (before after : Outside) (was : List KeyLine) (out : List ℕ) → words.key ≡ Some key
        → IsLooped words end answers before after → before.line.lines ≡ Some was → before.output.written ≡ Some out
        → is_open was ≡ false → EndsReleased after }
{}

/// However a served station with a key ends, its run is a keyed one, by the ticks that the run made: no sound without a
/// key, nothing begins while it is refused, it is never on for more than 9000 ticks, and it is released at the end.
pub fn a_served_run_is_keyed()
    ensures { (words : ServeWords) (key : KeyWords) (end : ServeEnd) (input left : SourceTold)
        (before after : Outside) (was : List KeyLine) (out : List ℕ) → words.key ≡ Some key
        → (served : IsServed words end input left before after) → before.line.lines ≡ Some was
        → before.output.written ≡ Some out → is_open was ≡ false
        → IsKeyedRun words key was out after (ticks_served words end input left before after served) }
{}

/// A served station without a key leaves the key's line as it was.
pub fn no_key_leaves_the_line()
    ensures { (words : ServeWords) (end : ServeEnd) (input left : SourceTold) (before after : Outside)
        → words.key ≡ None → IsServed words end input left before after → after.line ≡ before.line }
{}
