//! Laws of the definitions, which hold of all values and need no work.
ghost use Rattle.std.specs.Prelude.{◌≡◌, ℕ, ◌*◌, ◌≤◌, true, false, List, Bool, ◌∷◌, ◌++◌, length, take, drop, None};
ghost use Rattle.channel_access.specs.Modem.{transmission_by};
ghost use Rattle.channel_access.specs.Waiting.{WaitingFrame};
ghost use Rattle.channel_access.specs.Channel.{Channel, air_tick, after_tick};
ghost use Rattle.channel_access.specs.WholeTransmission.{Call, joining, AreFrames, GoesToItsEnd, SendOneTransmission};
ghost use Rattle.channel_access.specs.WholeTransmission.Call.{Ticks};
ghost use Rattle.channel_access.specs.Sound.{has_sound};
ghost use Rattle.channel_access.specs.OnAir.{OnAir, bits_then, bits_of, samples_on_air, decided, tick_samples};

/// What is decided of a transmission while it runs only adds bits after those that were decided before.
pub fn decisions_add_bits()
    ensures { (bits : ℕ) (waiting : List WaitingFrame) (t : OnAir)
        → (rest : List Bool) × (bits_of (decided bits waiting t) ≡ bits_of t ++ rest) }
{}

/// If no further frame follows, its samples are those of one transmission of all its frames.
pub fn the_end_is_a_transmission()
    ensures { (t : OnAir) → t.ends ≡ true → samples_on_air t
        ≡ transmission_by t.modem t.frames t.opening t.closing }
{}

/// A tick whose bits are decided has the samples that stand at its place in the whole transmission, whatever bits are
/// added later.
pub fn a_tick_is_a_part_of_the_whole()
    ensures { (t whole : OnAir) (rest : List Bool) → whole.modem ≡ t.modem
        → bits_of whole ≡ bits_of t ++ rest
        → bits_then t ≤ length (bits_of t)
        → tick_samples t ≡ take 96 (drop (96 * t.ticks) (samples_on_air whole)) }
{}

/// What is sent from the tick in which a transmission begins to the one after which none is under way, whatever is
/// called meanwhile, is one transmission of at most eight frames, which are the front of the queue in order, and zeros
/// up to a whole tick. Each frame is named once as sent, in order.
pub fn a_transmission_is_whole()
    ensures { (channel : Channel) (busy wants : Bool) (calls : List Call) → AreFrames channel.waiting
        → AreFrames (joining calls) → channel.air ≡ None → (air_tick busy wants channel).began ≡ true
        → GoesToItsEnd calls (after_tick busy wants channel) → SendOneTransmission (Ticks busy wants ∷ calls) channel }
{}

/// The first tick of a transmission has sound: one of its samples is not 0.
pub fn a_transmission_begins_with_sound()
    ensures { (busy wants : Bool) (channel : Channel) → (air_tick busy wants channel).began ≡ true
        → has_sound (air_tick busy wants channel).samples ≡ true }
{}

/// In half duplex a transmission begins only in a tick in which the channel is not busy.
pub fn half_duplex_begins_while_free()
    ensures { (busy wants : Bool) (channel : Channel) → channel.parameters.full_duplex ≡ false
        → (air_tick busy wants channel).began ≡ true → busy ≡ false }
{}
