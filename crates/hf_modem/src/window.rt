//! Where windows end.

ghost use Rattle.std.specs.Prelude.{◌≡◌, ℕ, ◌+◌, ◌*◌, ◌%◌, ◌<◌, ◌↔◌, true};

/// The samples of a bit at 9600 samples and 300 bits a second: one window.
pub(crate) const WINDOW: u64 = 32;

/// Whether a window of an offset ends with the last of so many samples.
pub(crate) fn ends_window(offset: u8, count: u64) -> bool
    requires { offset < 32 }
    ensures { (result ≡ true) ↔ ((k : ℕ) × (count ≡ offset + 32 * (k + 1))) }
{
    count >= WINDOW && count % WINDOW == u64::from(offset)
}
