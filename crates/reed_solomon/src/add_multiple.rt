//! A multiple of one list of octets added to another.

ghost use Rattle.std.specs.Prelude.{◌≡◌, map, length};
ghost use Rattle.reed_solomon.specs.Product.{product};
ghost use Rattle.reed_solomon.specs.Register.{added};

use crate::field::product;

pub fn add_multiple(octets: &mut [u8], factor: u8, others: &[u8])
    requires { length octets.old ≡ length others.now }
    ensures { octets.new ≡ added octets.old (map (product factor) others.now) }
{
    for i in 0..octets.len() {
        octets[i] ^= product(factor, others[i]);
    }
}
