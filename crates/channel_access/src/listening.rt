//! What a station has heard of its channel, and whose turn it is.
ghost use Rattle.std.specs.Prelude.{◌≡◌, ◌+◌, ◌&&◌, ◌||◌, not, if◌then◌else◌, List, [], ◌∷◌};
ghost use Rattle.channel_access.specs.HeldTurns.{kept, listening_of};
ghost use Rattle.channel_access.specs.Happenings.{Happening};
ghost use Rattle.channel_access.specs.Happenings.Happening.{Heard, Ticked};
ghost use Rattle.channel_access.specs.Turns.{was_quiet, is_spoken_to, is_its_turn};

/// What has happened so far, as far as the rules look at it.
#[derive(Clone, Copy, Debug)]
pub(crate) struct Listening {
    /// The station is spoken to.
    pub spoken_to: bool,
    /// Another station was heard in the last tick.
    pub busy: bool,
    /// A transmission of the station's own was on the air in the last tick.
    pub own: bool,
    /// How many ticks are quiet up to the last one, at most 255: no slot is longer.
    pub quiet: u8,
    /// How many of them there were when the channel became busy last, at most 255.
    pub before: u8,
}

impl Listening {
    /// Nothing has come to pass.
    pub(crate) fn new() -> Listening
        ensures { result ≡ listening_of [] }
    {
        Listening {
            spoken_to: false,
            busy: false,
            own: false,
            quiet: 0,
            before: 0,
        }
    }

    /// A frame was heard, which was an event of a link or not.
    pub(crate) fn hear(&mut self, ours: bool)
        ensures { (past : List Happening) → self.old ≡ listening_of past
            → self.new ≡ listening_of (Heard ours ∷ past) }
    {
        self.spoken_to = ours;
    }

    /// A tick passed: whether another station was heard, whether an own transmission began, and whether one was on the
    /// air.
    pub(crate) fn tick(&mut self, busy: bool, began: bool, own: bool)
        ensures { (past : List Happening) → self.old ≡ listening_of past
            → self.new ≡ listening_of (Ticked busy began own ∷ past) }
    {
        let becomes_busy = self.becomes_busy(busy);
        *self = Listening {
            spoken_to: self.stays_spoken_to(began, becomes_busy),
            busy,
            own,
            quiet: self.quiet_with(busy, own),
            before: self.before_with(becomes_busy),
        };
    }

    /// Whether the channel becomes busy with a tick.
    fn becomes_busy(&self, busy: bool) -> bool
        ensures { result ≡ (busy && not self.now.busy) }
    {
        busy && !self.busy
    }

    fn stays_spoken_to(&self, began: bool, becomes_busy: bool) -> bool
        ensures { result ≡ (self.now.spoken_to && not (began || becomes_busy)) }
    {
        self.spoken_to && !(began || becomes_busy)
    }

    /// The quiet ticks up to this one.
    fn quiet_with(&self, busy: bool, own: bool) -> u8
        ensures { result ≡ (if busy || own then 0 else kept (self.now.quiet + 1)) }
    {
        if busy || own {
            return 0;
        }
        self.quiet.saturating_add(1)
    }

    /// The quiet ticks before the channel became busy last.
    fn before_with(&self, becomes_busy: bool) -> u8
        ensures { result ≡ (if becomes_busy then self.now.quiet else self.now.before) }
    {
        if becomes_busy {
            self.quiet
        } else {
            self.before
        }
    }

    /// Whether the last tick was quiet.
    pub(crate) fn was_quiet(&self) -> bool
        ensures { (past : List Happening) → self.now ≡ listening_of past → result ≡ was_quiet past }
    {
        !(self.busy || self.own)
    }

    pub(crate) fn is_spoken_to(&self) -> bool
        ensures { (past : List Happening) → self.now ≡ listening_of past → result ≡ is_spoken_to past }
    {
        self.spoken_to
    }

    /// Whether it is the station's turn.
    pub(crate) fn is_its_turn(&self, slot_time: u8) -> bool
        ensures { (past : List Happening) → self.now ≡ listening_of past → result ≡ is_its_turn slot_time past }
    {
        self.spoken_to && slot_time <= self.before
    }
}
