//! The time of a run.
ghost use Rattle.std.specs.Prelude.{◌≡◌, ◌<◌};
ghost use Rattle.frame_monitor.specs.Clock.{clock_text, two_digits};

/// `hh:mm:ss` after so many ticks of 10 ms. A day later it starts anew.
pub(crate) fn clock(ticks: u64) -> [u8; 8]
    ensures { result ≡ clock_text ticks }
{
    let [h, hh] = two_digits((ticks / 360_000 % 24) as u8);
    let [m, mm] = two_digits((ticks / 6000 % 60) as u8);
    let [s, ss] = two_digits((ticks / 100 % 60) as u8);
    [h, hh, b':', m, mm, b':', s, ss]
}

/// A number below 100 in two digits.
pub(crate) fn two_digits(number: u8) -> [u8; 2]
    requires { number < 100 }
    ensures { result ≡ two_digits number }
{
    [b'0' + number / 10, b'0' + number % 10]
}
