//! Commands of rigctld's line protocol.
ghost use Rattle.std.specs.Prelude.{◌≡◌};
ghost use Rattle.keying.specs.Texts.{command_text};

/// A command of rigctld's line protocol (the manual page rigctld(1): `T`, `set_ptt`).
#[derive(Clone, Copy, Debug, PartialEq, Eq)]
pub enum Command {
    /// Releases the transmitter.
    Release,
    /// Keys the transmitter.
    Key,
    /// Keys the transmitter, which then takes the sound of its data socket and not of its microphone.
    KeyData,
}

impl Command {
    /// The octets of the command, with the line feed that ends it.
    pub fn text(self) -> &'static [u8]
        ensures { result.now ≡ command_text self }
    {
        match self {
            Command::Release => b"T 0\n",
            Command::Key => b"T 1\n",
            Command::KeyData => b"T 3\n",
        }
    }
}
