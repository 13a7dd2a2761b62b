//! How loud a window of eight samples is.

ghost use Rattle.std.specs.Prelude.{◌≡◌, ◌≤◌, ◌^◌, ◌≤ℤ◌, ◌*ℤ◌, pos, unsigned_abs};
ghost use Rattle.tone_carrier.specs.HeardWindows.{power, square_sum_of, sum_of};

/// The power of a window: 64 times the sum of the squares of its samples, less seven times the square of their sum. It
/// is never negative.
pub fn power(window: &[i16; 8]) -> i64
    ensures power { result ≡ power window.now }
    ensures least { pos 0 ≤ℤ result }
    ensures most { result ≤ℤ pos (2 ^ 39) }
{
    let sum = sum_of(window);
    64 * square_sum_of(window) - 7 * square(sum)
}

/// The sum of a window's samples.
fn sum_of(window: &[i16; 8]) -> i64
    ensures sum { result ≡ sum_of window.now }
    ensures bound { unsigned_abs result ≤ 262144 }
{
    let mut sum = 0;
    for i in 0..8 {
        sum += i64::from(window[i]);
    }
    sum
}

/// The sum of their squares.
fn square_sum_of(window: &[i16; 8]) -> i64
    ensures sum { result ≡ square_sum_of window.now }
    ensures least { pos 0 ≤ℤ result }
    ensures most { result ≤ℤ pos (2 ^ 33) }
{
    let mut sum = 0;
    for i in 0..8 {
        sum += square(i64::from(window[i]));
    }
    sum
}

/// The square of a sample, or of a sum of eight.
fn square(number: i64) -> i64
    requires { unsigned_abs number ≤ 262144 }
    ensures value { result ≡ number *ℤ number }
    ensures least { pos 0 ≤ℤ result }
    ensures most { result ≤ℤ pos (2 ^ 36) }
{
    number * number
}
