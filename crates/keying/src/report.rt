//! What is reported of the key.
ghost use Rattle.std.specs.Prelude.{◌≡◌, ◌+◌, ◌++◌, ◌≤◌, length};
ghost use Rattle.keying.specs.Texts.{report_text, same_why};

use arrayvec::ArrayVec;
use itoa::Buffer;

/// The longest line of a report.
const LONGEST: usize = 32;

/// Why a line was lost.
#[derive(Clone, Copy, Debug, PartialEq, Eq)]
pub enum Why {
    /// No connection could be made.
    Connect,
    /// The daemon ended the connection.
    Ended,
    /// Reading or writing failed.
    Failed,
    /// The daemon refused a command, with this number of hamlib's errors; numbers above the largest are told as that.
    Refused(u32),
    /// What came is no answer to a command.
    Answer,
    /// A command had no answer for 2000 ms.
    Silent,
}

/// Why the transmitter was released in the middle of a transmission.
#[derive(Clone, Copy, Debug, PartialEq, Eq)]
pub enum OffWhy {
    /// The key had been on for 90 seconds.
    Limit,
    /// No sound was made for 2000 ms.
    Sound,
}

/// A line of the report.
#[derive(Clone, Copy, Debug, PartialEq, Eq)]
pub enum Report {
    /// The first release of a connection was accepted.
    Ready,
    /// The line was lost.
    Lost(Why),
    /// The transmitter was released in the middle of a transmission.
    Off(OffWhy),
}

impl Why {
    /// Whether two reasons are the same one.
    pub(crate) fn is_same(self, other: Why) -> bool
        ensures { result ≡ same_why self other }
    {
        match (self, other) {
            (Why::Connect, Why::Connect) => true,
            (Why::Ended, Why::Ended) => true,
            (Why::Failed, Why::Failed) => true,
            (Why::Refused(number), Why::Refused(another)) => number == another,
            (Why::Answer, Why::Answer) => true,
            (Why::Silent, Why::Silent) => true,
            _ => false,
        }
    }
}

impl Report {
    /// The text of the line, without the line feed that ends it.
    pub fn text(self) -> ArrayVec<u8, LONGEST>
        ensures { result.items ≡ report_text self }
    {
        match self {
            Report::Ready => text_of(b"ptt ready"),
            Report::Off(OffWhy::Limit) => text_of(b"ptt off limit"),
            Report::Off(OffWhy::Sound) => text_of(b"ptt off sound"),
            Report::Lost(Why::Connect) => text_of(b"ptt lost connect"),
            Report::Lost(Why::Ended) => text_of(b"ptt lost ended"),
            Report::Lost(Why::Failed) => text_of(b"ptt lost failed"),
            Report::Lost(Why::Answer) => text_of(b"ptt lost answer"),
            Report::Lost(Why::Silent) => text_of(b"ptt lost silent"),
            Report::Lost(Why::Refused(number)) => {
                let mut line = text_of(b"ptt lost refused ");
                append(&mut line, Buffer::new().format(number).as_bytes());
                line
            }
        }
    }
}

fn text_of(text: &[u8]) -> ArrayVec<u8, LONGEST>
    requires { length text.now ≤ 32 }
    ensures { result.items ≡ text.now }
{
    let mut line = ArrayVec::new();
    append(&mut line, text);
    line
}

fn append(line: &mut ArrayVec<u8, LONGEST>, text: &[u8])
    requires { length line.old.items + length text.now ≤ 32 }
    ensures { line.new.items ≡ line.old.items ++ text.now }
{
    for octet in text {
        line.push(*octet);
    }
}
