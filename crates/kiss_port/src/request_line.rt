//! The first line of a request of HTTP, whose method may have any name.

ghost use Rattle.std.specs.Prelude.{◌≡◌};
ghost use Rattle.kiss_port.specs.HeldHost.{line_with, is_slash};
ghost use Rattle.kiss_port.specs.WebRequests.{is_token_character};

// How far the octets of a connection are such a line.
#[derive(Clone, Copy)]
pub(crate) enum RequestLine {
    // Nothing has come.
    Empty,
    // Characters of a method's name.
    Method,
    // A method's name and a blank.
    Blank,
    // A method's name, a blank and a slash, and whatever came then.
    Slash,
    // They are none.
    Other,
}

impl RequestLine {
    // With the next octet.
    pub(crate) fn with(self, octet: u8) -> Self
        ensures { result ≡ line_with self octet }
    {
        match self {
            RequestLine::Empty if is_token_character(octet) => RequestLine::Method,
            RequestLine::Empty => RequestLine::Other,
            RequestLine::Method if is_token_character(octet) => RequestLine::Method,
            RequestLine::Method if octet == b' ' => RequestLine::Blank,
            RequestLine::Method => RequestLine::Other,
            RequestLine::Blank if octet == b'/' => RequestLine::Slash,
            RequestLine::Blank => RequestLine::Other,
            RequestLine::Slash => RequestLine::Slash,
            RequestLine::Other => RequestLine::Other,
        }
    }

    // Whether they are one.
    pub(crate) fn is_request(self) -> bool
        ensures { result ≡ is_slash self }
    {
        matches!(self, RequestLine::Slash)
    }
}

fn is_token_character(octet: u8) -> bool
    ensures { result ≡ is_token_character octet }
{
    matches!(octet,
        b'0'..=b'9' | b'A'..=b'Z' | b'a'..=b'z' | b'!' | b'#' | b'$' | b'%' | b'&' | b'\'' | b'*' | b'+' | b'-' | b'.'
        | b'^' | b'_' | b'`' | b'|' | b'~')
}
