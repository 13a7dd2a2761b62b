//! The exit statuses of the program.
ghost use Rattle.std.specs.Prelude.{◌≡◌};

/// How a run ended.
#[derive(Clone, Copy, Debug, PartialEq, Eq)]
pub(crate) enum Status {
    /// The input was read to its end and all was written.
    Done,
    /// The words are no command.
    BadWords,
    /// The input breaks the rules of its form.
    BadInput,
    /// Memory was wanted and not given.
    Memory,
    /// The input failed.
    ReadFault,
    /// The output or the report failed.
    WriteFault,
    /// A loop or a bench heard a frame that was not sent.
    Stray,
    /// A frame of a bench that sets a link up or ends it found no quiet channel.
    NotQuiet,
    /// A bench was not over in time.
    Spent,
    /// The ports of a live station could not be opened.
    NoPort,
    /// No connection to the live station of a call could be opened.
    NoHost,
    /// The live station or the called one refused a call.
    Refused,
    /// The connection to the live station of a call was lost.
    HostLost,
    /// The live station of a call sent what is no message.
    HostBroke,
    /// A call was not over in time.
    GaveUp,
}

impl Status {
    ghost use Rattle.tnc_main.specs.Status.{code_of};

    /// The number that the process ends with.
    pub(crate) fn code(self) -> u8
        ensures { result ≡ code_of self }
    {
        match self {
            Status::Done => 0,
            Status::BadWords => 1,
            Status::BadInput => 2,
            Status::Memory => 3,
            Status::ReadFault => 4,
            Status::WriteFault => 5,
            Status::Stray => 6,
            Status::NotQuiet => 7,
            Status::Spent => 8,
            Status::NoPort => 10,
            Status::NoHost => 11,
            Status::Refused => 12,
            Status::HostLost => 13,
            Status::HostBroke => 14,
            Status::GaveUp => 15,
        }
    }
}
