//! The numbers that SREJ asked for and that were not sent again yet.

ghost use Rattle.std.specs.Prelude.{◌≡◌, ◌+◌, ◌<◌, ◌≤◌, [], ◌∷◌, ◌++◌, drop, length, nat_lt, filter, slice_get};
ghost use Rattle.selective_reject.specs.Again.{with_number, numbers_from};

use arrayvec::ArrayVec;
use std::marker::Model;

/// Some of the numbers below the largest window that may be under way, each once, rising.
#[derive(Drop)]
pub(crate) struct AskedAgain {
    numbers: ArrayVec<u8, 127>,
}

impl Model for AskedAgain {
    ghost use Rattle.std.specs.Prelude.{List, ℕ};
    ghost use Rattle.selective_reject.specs.Again.{RisesBelow};

    ghost Value = { List ℕ };

    ghost view = { λ s. s.numbers.items };

    ghost invariant = { λ s. RisesBelow 0 127 s.numbers.items };
}

/// The numbers that are below `number`.
fn below(numbers: &ArrayVec<u8, 127>, number: u8) -> ArrayVec<u8, 127>
    ensures numbers { result.items ≡ filter (λ m. nat_lt m number) numbers.now.items }
{
    let mut kept = ArrayVec::new();
    for place in 0..numbers.len() {
        let at = numbers.as_slice()[place];
        if at < number {
            kept.push(at);
        }
    }
    kept
}

/// The numbers that are above `number`.
fn above(numbers: &ArrayVec<u8, 127>, number: u8) -> ArrayVec<u8, 127>
    ensures numbers { result.items ≡ filter (nat_lt number) numbers.now.items }
{
    let mut kept = ArrayVec::new();
    for place in 0..numbers.len() {
        let at = numbers.as_slice()[place];
        if number < at {
            kept.push(at);
        }
    }
    kept
}

/// Numbers, one more, and others.
fn joined(first: ArrayVec<u8, 127>, number: u8, rest: &ArrayVec<u8, 127>) -> ArrayVec<u8, 127>
    requires { length first.items + 1 + length rest.now.items ≤ 127 }
    ensures numbers { result.items ≡ first.items ++ number ∷ rest.now.items }
{
    let mut numbers = first;
    numbers.push(number);
    for place in 0..rest.len() {
        numbers.push(rest.as_slice()[place]);
    }
    numbers
}

/// The numbers from `count` on, counted from there.
fn counted_from(numbers: &ArrayVec<u8, 127>, count: u8) -> ArrayVec<u8, 127>
    ensures numbers { result.items ≡ numbers_from count numbers.now.items }
{
    let mut kept = ArrayVec::new();
    for place in 0..numbers.len() {
        let at = numbers.as_slice()[place];
        if at >= count {
            kept.push(at - count);
        }
    }
    kept
}

impl AskedAgain {
    pub(crate) fn new() -> AskedAgain
        ensures { result ≡ [] }
    {
        AskedAgain {
            numbers: ArrayVec::new(),
        }
    }

    pub(crate) fn copy(&self) -> AskedAgain
        ensures { result ≡ self.now }
    {
        match ArrayVec::try_from(self.numbers.as_slice()) {
            Ok(numbers) => AskedAgain { numbers },
            Err(_) => AskedAgain::new(),
        }
    }

    pub(crate) fn clear(&mut self)
        ensures { self.new ≡ [] }
    {
        self.numbers.clear();
    }

    /// One number more.
    pub(crate) fn add(&mut self, number: u8)
        requires { number < 127 }
        ensures { self.new ≡ with_number number self.old }
    {
        let first = below(&self.numbers, number);
        let rest = above(&self.numbers, number);
        let numbers = joined(first, number, &rest);
        self.numbers = numbers;
    }

    /// The numbers from `count` on, counted from there.
    pub(crate) fn acknowledge(&mut self, count: u8)
        ensures { self.new ≡ numbers_from count self.old }
    {
        self.numbers = counted_from(&self.numbers, count);
    }

    /// The lowest number.
    pub(crate) fn first(&self) -> Option<u8>
        ensures { result ≡ slice_get self.now 0 }
    {
        self.numbers.as_slice().first().copied()
    }

    /// The lowest number goes.
    pub(crate) fn take(&mut self)
        ensures { self.new ≡ drop 1 self.old }
    {
        let _ = self.numbers.pop_at(0);
    }
}
