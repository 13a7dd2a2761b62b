//! What is made of phasors. Their parts stay below 2^30, so a product of two fits into 64 bits.

ghost use Rattle.std.specs.Prelude.{◌≡◌, ◌≤◌, ◌+ℤ◌, ◌*ℤ◌, unsigned_abs};
ghost use Rattle.tone_tracking.specs.Phasors.{IsWithin, plus, size};
ghost use Rattle.hf_tracking.specs.Correlation.{IsSmall};
ghost use Rattle.hf_tracking.specs.Heard.{dot, gain};
ghost use Rattle.hf_tracking.specs.Tracks.{ahead_by, cross, five_eighths, five_eighths_of, mirrored, moved, scaled, steps_of, times, turn_by};
ghost use Rattle.hf_tracking.specs.Tracks.{turned};

use tone_table::Tone;
use tone_tracking::Phasor;

/// A phasor after a bit of a tone: mark takes it back by a third of a turn, and space on.
pub(crate) fn turned(tone: Tone, p: Phasor) -> Phasor
    requires { IsWithin 800000000 p }
    ensures turned { result ≡ turned tone p }
    ensures bound { IsWithin 800000000 result }
{
    match tone {
        Tone::Mark => Phasor {
            a: p.b,
            b: -(p.a + p.b),
        },
        Tone::Space => Phasor {
            a: -(p.a + p.b),
            b: p.a,
        },
    }
}

/// What was heard of a tone, with five eighths of what was expected of it.
pub(crate) fn renewed(heard: Phasor, expected: Phasor) -> Phasor
    requires heard { IsSmall heard }
    requires expected { IsWithin 800000000 expected }
    ensures sum { result ≡ plus heard (five_eighths expected) }
    ensures bound { IsWithin 1400000000 result }
{
    Phasor {
        a: heard.a + five_eighths(expected.a),
        b: heard.b + five_eighths(expected.b),
    }
}

/// Five eighths of a part, rounded down, as a shift does.
fn five_eighths(part: i64) -> i64
    requires { unsigned_abs part ≤ 800000000 }
    ensures value { result ≡ five_eighths_of part }
    ensures bound { unsigned_abs result ≤ 500000001 }
{
    (5 * part) >> 3
}

/// A phasor as it is turned in a bit at a drift.
pub(crate) fn moved(drift: i32, p: Phasor) -> Phasor
    requires drift { unsigned_abs drift ≤ 80 }
    requires phasor { IsWithin 1400000000 p }
    ensures moved { result ≡ moved drift p }
    ensures bound { IsWithin 800000000 result }
{
    times(p, turn_by(steps_of(drift)))
}

/// How many 48ths of a turn a bit adds at a drift.
fn steps_of(drift: i32) -> i32
    requires { unsigned_abs drift ≤ 80 }
    ensures steps { result ≡ steps_of drift }
    ensures bound { unsigned_abs result ≤ 4 }
{
    (drift + 10).div_euclid(20)
}

/// So many 48ths of a turn, in 1024ths.
fn turn_by(steps: i32) -> Phasor
    requires { unsigned_abs steps ≤ 4 }
    ensures turn { result ≡ turn_by steps }
    ensures first { unsigned_abs result.a ≤ 1200 }
    ensures second { unsigned_abs result.b ≤ 1200 }
{
    if steps < 0 {
        mirrored(ahead_by(steps.unsigned_abs()))
    } else {
        ahead_by(steps.unsigned_abs())
    }
}

/// The turns ahead.
fn ahead_by(steps: u32) -> Phasor
    ensures turn { result ≡ ahead_by steps }
    ensures first { unsigned_abs result.a ≤ 1024 }
    ensures second { unsigned_abs result.b ≤ 600 }
    ensures both { unsigned_abs (result.a +ℤ result.b) ≤ 1200 }
{
    match steps {
        0 => Phasor { a: 1024, b: 0 },
        1 => Phasor { a: 938, b: 154 },
        2 => Phasor { a: 836, b: 306 },
        3 => Phasor { a: 720, b: 452 },
        _ => Phasor { a: 591, b: 591 },
    }
}

/// A turn the other way.
fn mirrored(turn: Phasor) -> Phasor
    requires first { unsigned_abs turn.a ≤ 1024 }
    requires second { unsigned_abs turn.b ≤ 600 }
    ensures { result ≡ mirrored turn }
{
    Phasor {
        a: turn.a + turn.b,
        b: -turn.b,
    }
}

/// The product of a phasor and a turn.
fn times(p: Phasor, turn: Phasor) -> Phasor
    requires phasor { IsWithin 1400000000 p }
    requires first { unsigned_abs turn.a ≤ 1200 }
    requires second { unsigned_abs turn.b ≤ 1200 }
    ensures product { result ≡ times p turn }
    ensures bound { IsWithin 800000000 result }
{
    let across = product_turned(p.b, turn.b);
    Phasor {
        a: scaled(product_turned(p.a, turn.a) - across),
        b: scaled(product_turned(p.a, turn.b) + product_turned(p.b, turn.a) + across),
    }
}

/// A part of a product in 1024ths, rounded down. The bounds keep what follows within 64 bits whatever came before; no
/// samples reach them.
fn scaled(part: i64) -> i64
    requires { unsigned_abs part ≤ 10000000000000 }
    ensures value { result ≡ scaled part }
    ensures bound { unsigned_abs result ≤ 400000000 }
{
    (part >> 10).clamp(-400_000_000, 400_000_000)
}

/// How far one phasor is turned on from another: above 0 if it is ahead.
pub(crate) fn cross(p: Phasor, q: Phasor) -> i64
    requires first { IsWithin 800000000 p }
    requires second { IsSmall q }
    ensures { result ≡ cross p q }
{
    product_heard(p.a, q.b) - product_heard(p.b, q.a)
}

/// How well a window fits what was expected.
pub(crate) fn gain(expected: Phasor, heard: Phasor) -> i64
    requires expected { IsWithin 800000000 expected }
    requires heard { IsSmall heard }
    ensures gain { result ≡ gain expected heard }
    ensures bound { unsigned_abs result ≤ 2630000000000000000 }
{
    4 * dot(expected, heard) - size(expected)
}

/// Twice the part of one phasor that is in phase with another, times its amplitude.
fn dot(p: Phasor, q: Phasor) -> i64
    requires first { IsWithin 800000000 p }
    requires second { IsSmall q }
    ensures dot { result ≡ dot p q }
    ensures bound { unsigned_abs result ≤ 336000000000000000 }
{
    product_heard(p.a, q.a) + product_heard(p.a + p.b, q.a + q.b) + product_heard(p.b, q.b)
}

/// The square of the amplitude, by two products in place of three.
fn size(p: Phasor) -> i64
    requires { IsWithin 800000000 p }
    ensures size { result ≡ size p }
    ensures bound { unsigned_abs result ≤ 1280000000000000000 }
{
    let both = p.a + p.b;
    product(both, both) - product(p.a, p.b)
}

/// The product of two parts.
fn product(part: i64, other: i64) -> i64
    requires part { unsigned_abs part ≤ 800000000 }
    requires other { unsigned_abs other ≤ 800000000 }
    ensures value { result ≡ part *ℤ other }
    ensures bound { unsigned_abs result ≤ 640000000000000000 }
{
    part * other
}

/// The product of a part and one of what was heard.
fn product_heard(part: i64, heard: i64) -> i64
    requires part { unsigned_abs part ≤ 800000000 }
    requires heard { unsigned_abs heard ≤ 209715200 }
    ensures value { result ≡ part *ℤ heard }
    ensures bound { unsigned_abs result ≤ 167772160000000000 }
{
    part * heard
}

/// The product of a part and one of a turn.
fn product_turned(part: i64, turn: i64) -> i64
    requires part { unsigned_abs part ≤ 1400000000 }
    requires turn { unsigned_abs turn ≤ 1200 }
    ensures value { result ≡ part *ℤ turn }
    ensures bound { unsigned_abs result ≤ 1680000000000 }
{
    part * turn
}
