//! The generator of a code: the polynomial whose highest coefficient is 1 and whose roots are those of the code.

ghost use Rattle.std.specs.Prelude.{◌≡◌, ◌+◌, ◌<◌, ◌≤◌, ◌∷◌, length};
ghost use Rattle.arrayvec.specs.ArrayVec.{array_vec_len};
ghost use Rattle.reed_solomon.specs.Register.{generator_of, with_root};

use crate::add_multiple::add_multiple;
use crate::code::MOST_CHECK_OCTETS;
use crate::field::power;
use arrayvec::ArrayVec;

// The most coefficients of a generator, the highest too.
const MOST_COEFFICIENTS: usize = MOST_CHECK_OCTETS + 1;

// The coefficients of a generator but the highest, which is 1, that of the highest power first.
pub fn generator(first_root: u8, check_count: usize) -> ArrayVec<u8, MOST_CHECK_OCTETS>
    requires first_root { first_root < 255 }
    requires check_count { check_count ≤ 64 }
    ensures { result.items ≡ generator_of first_root check_count }
{
    let mut rest = ArrayVec::new();
    for k in 0..check_count {
        add_root(&mut rest, power(first_root as usize + k));
    }
    rest
}

// One root more: the polynomial times the sum of x and the root.
pub fn add_root(rest: &mut ArrayVec<u8, MOST_CHECK_OCTETS>, root: u8)
    requires { array_vec_len rest.old < 64 }
    ensures items { rest.new.items ≡ with_root root rest.old.items }
    ensures len { array_vec_len rest.new ≡ array_vec_len rest.old + 1 }
{
    let before = with_highest(rest.as_slice());
    rest.push(0);
    add_multiple(rest.as_mut_slice(), root, before.as_slice());
}

// All coefficients, the highest too.
pub fn with_highest(rest: &[u8]) -> ArrayVec<u8, MOST_COEFFICIENTS>
    requires { length rest.now < 65 }
    ensures { result.items ≡ 1 ∷ rest.now }
{
    let mut all = ArrayVec::new();
    all.push(1);
    for coefficient in rest {
        all.push(*coefficient);
    }
    all
}
