//! The check octets of data, by a division: the register holds the remainder of what it has taken.

ghost use Rattle.std.specs.Prelude.{◌≡◌, ◌+◌, ◌<◌, ◌≤◌, ◌++◌, ℕ, List, All, length, replicate};
ghost use Rattle.arrayvec.specs.ArrayVec.{array_vec_len};
ghost use Rattle.reed_solomon.specs.Codeword.{IsCodeword};
ghost use Rattle.reed_solomon.specs.Register.{taken};

use crate::add_multiple::add_multiple;
use crate::code::{Code, MOST_CHECK_OCTETS};
use crate::generator::generator;
use crate::words::zeros_after;
use arrayvec::ArrayVec;

/// The check octets of data: the only octets that, after the data, make a codeword.
pub fn check_octets(code: &Code, octets: &[u8]) -> ArrayVec<u8, MOST_CHECK_OCTETS>
    requires { length octets.now + code.now.check_count ≤ 255 }
    ensures count { array_vec_len result ≡ code.now.check_count }
    ensures codeword { IsCodeword code.now (octets.now ++ result.items) }
    ensures only { (other : List ℕ) → All (λ x. x < 256) other → length other ≡ code.now.check_count
        → IsCodeword code.now (octets.now ++ other) → other ≡ result.items }
{
    let generator = generator(code.first_root(), code.check_count());
    let mut register = zero_register(code.check_count());
    for octet in octets {
        take(&mut register, generator.as_slice(), *octet);
    }
    for _ in 0..zeros_after(code, octets.len()) {
        take(&mut register, generator.as_slice(), 0);
    }
    register
}

fn zero_register(count: usize) -> ArrayVec<u8, MOST_CHECK_OCTETS>
    requires { count ≤ 64 }
    ensures { result.items ≡ replicate count 0 }
{
    let mut register = ArrayVec::new();
    for _ in 0..count {
        register.push(0);
    }
    register
}

// The register after one octet more.
fn take(register: &mut ArrayVec<u8, MOST_CHECK_OCTETS>, generator: &[u8], octet: u8)
    requires some { 0 < array_vec_len register.old }
    requires most { array_vec_len register.old ≤ 64 }
    requires size { array_vec_len register.old ≡ length generator.now }
    ensures { register.new.items ≡ taken generator.now register.old.items octet }
{
    let factor = octet ^ register.remove(0);
    register.push(0);
    add_multiple(register.as_mut_slice(), factor, generator);
}
