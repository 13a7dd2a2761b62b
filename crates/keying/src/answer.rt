//! The answers of rigctld.
ghost use Rattle.std.specs.Prelude.{◌≡◌};
ghost use Rattle.keying.specs.Answers.{answer_of, refused_number};

/// What a line that came says of the oldest command without an answer.
#[derive(Clone, Copy, Debug, PartialEq, Eq)]
pub(crate) enum Answer {
    /// It is accepted.
    Accepts,
    /// It is refused, with this number.
    Refuses(u32),
    /// The line is no answer.
    Unclear,
}

/// What a line says, without the line feed that ended it.
#[tactic(auto, unfolding(crate::specs::Answers::answer_of))]
pub(crate) fn answer_of(line: &[u8]) -> Answer
    ensures { result ≡ answer_of line.now }
{
    if line == b"RPRT 0".as_slice() {
        return Answer::Accepts;
    }
    let Some(digits) = line.strip_prefix(b"RPRT -".as_slice()) else {
        return Answer::Unclear;
    };
    match refused_number(digits) {
        Some(number) => Answer::Refuses(number),
        None => Answer::Unclear,
    }
}

/// The number that the digits after `RPRT -` name, if they are one or more digits.
fn refused_number(digits: &[u8]) -> Option<u32>
    ensures { result ≡ refused_number digits.now }
{
    if digits.is_empty() {
        return None;
    }
    let mut number: u32 = 0;
    for digit in digits {
        if !digit.is_ascii_digit() {
            return None;
        }
        number = number
            .saturating_mul(10)
            .saturating_add(u32::from(*digit - b'0'));
    }
    Some(number)
}
