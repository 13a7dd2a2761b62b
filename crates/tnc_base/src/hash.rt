//! FNV-1a in 64 bits: the short name of a long list of octets in a summary.
ghost use Rattle.std.specs.Prelude.{◌≡◌};
ghost use Rattle.tnc_base.specs.Hash.{fnv_1a};

const OFFSET_BASIS: u64 = 0xcbf2_9ce4_8422_2325;

const PRIME: u64 = 0x0100_0000_01b3;

/// The FNV-1a hash of `octets` in 64 bits (draft-eastlake-fnv): per octet an exclusive or, then a multiplication.
#[tactic(auto, unfolding(crate::specs::Hash::fnv_1a, crate::specs::Hash::mixed))]
pub fn fnv(octets: &[u8]) -> u64
    ensures { result ≡ fnv_1a octets.now }
{
    octets.iter().fold(
        OFFSET_BASIS,
        |hash, octet| (hash ^ u64::from(*octet)).wrapping_mul(PRIME),
    )
}
