//! Which code it is: its roots, its check octets, and where it is shortened.

ghost use Rattle.std.specs.Prelude.{◌≡◌, ◌<◌, ◌≤◌, ◌%◌, ◌↔◌, IsSome, IfSome};

/// The most check octets that a code has.
pub const MOST_CHECK_OCTETS: usize = 64;

/// Where the zeros stand that a shortened code leaves out.
#[derive(Clone, Copy, PartialEq, Eq, Debug, Drop)]
pub enum Zeros {
    /// Before the data octets, as IL2P has them.
    Leading,
    /// Between data and check octets, as FX.25 has them: the first octet sent always stands at the power 254.
    Between,
}

/// A Reed-Solomon code over octets: its first root, how many check octets follow the data, and where it is shortened.
#[derive(Clone, Copy, PartialEq, Eq, Debug, Drop)]
pub struct Code {
    first_root: u8,
    check_count: usize,
    zeros: Zeros,
    ghost root: { first_root < 255 },
    ghost least: { 2 ≤ check_count },
    ghost most: { check_count ≤ 64 },
    ghost even: { check_count % 2 ≡ 0 },
}

impl Code {
    /// The code whose roots are power(first_root) and the powers that follow, one for each of `check_count` check
    /// octets. `None` unless `first_root` is below 255 and `check_count` is even and from 2 to 64.
    pub fn new(first_root: u8, check_count: usize, zeros: Zeros) -> Option<Code>
        ensures first_root { IfSome result (λ code. code.first_root ≡ first_root) }
        ensures check_count { IfSome result (λ code. code.check_count ≡ check_count) }
        ensures zeros { IfSome result (λ code. code.zeros ≡ zeros) }
        ensures exactly { IsSome result
            ↔ ((first_root < 255) × (2 ≤ check_count) × (check_count ≤ 64) × (check_count % 2 ≡ 0)) }
    {
        if first_root == u8::MAX
            || check_count < 2
            || check_count > MOST_CHECK_OCTETS
            || check_count % 2 != 0
        {
            return None;
        }
        Some(Code {
            first_root,
            check_count,
            zeros,
        })
    }

    /// The first root is power(first_root).
    pub fn first_root(&self) -> u8
        ensures { result ≡ self.now.first_root }
    {
        self.first_root
    }

    /// How many check octets follow the data.
    pub fn check_count(&self) -> usize
        ensures { result ≡ self.now.check_count }
    {
        self.check_count
    }

    /// The most check octets that a code has.
    pub const MOST_CHECK_OCTETS: usize = 64;

    /// Where the zeros stand that a shortened code leaves out.
    pub fn zeros(&self) -> Zeros
        ensures { result ≡ self.now.zeros }
    {
        self.zeros
    }
}
