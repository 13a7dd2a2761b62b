//! The start of the pump, for which the turns wait.
//!
//! `join_mut` calls the pump after the turns if no thread can be started, and tells nobody. The turns would then wait
//! forever for samples that the pump has not read. So they begin only when the pump has begun, and give it up after ten
//! seconds. A pump that is given up reads nothing.
ghost use Rattle.std.specs.Prelude.{◌≡◌};
ghost use Rattle.tnc_ports.specs.Starts.{CountsUnless, lock_of};

use std::sync::{OnceLock, OnceToken, Wait};
use std::thread::Parker;
use std::time::Duration;

/// How often the turns look whether the pump has begun.
const LOOKS: u32 = 100;

/// How long they wait between two looks, at most, in milliseconds.
const WAIT: u64 = 100;

/// Whether the pump has begun, or is given up. What is settled first stays.
#[derive(Drop)]
pub struct Start {
    begins: OnceLock<bool>,
    settled: Parker,
}

impl Start {
    pub(crate) fn new() -> Start {
        Start {
            begins: OnceLock::new(),
            settled: Parker::new(),
        }
    }

    /// The pump begins, unless it is given up.
    pub(crate) fn begin<R: Wait>(&self, rt: &R) -> OnceToken<'_, bool>
        ensures { result.of ≡ lock_of self.now }
    {
        let token = self.begins.init(rt, || true);
        self.settled.unpark();
        token
    }

    /// Waits until the pump has begun. After ten seconds it is given up, which is counted.
    pub fn wait<R: Wait>(&self, rt: &R, faults: &mut u64) -> OnceToken<'_, bool>
        ensures lock { result.of ≡ lock_of self.now }
        ensures counted { CountsUnless result.value faults.old faults.new }
    {
        let token = self.settle(rt);
        if !self.begins(&token) {
            *faults = faults.saturating_add(1);
        }
        token
    }

    /// Waits until the pump has begun, and gives it up after ten seconds.
    fn settle<R: Wait>(&self, rt: &R) -> OnceToken<'_, bool>
        ensures { result.of ≡ lock_of self.now }
    {
        for _ in 0..LOOKS {
            if let Some(token) = self.begins.witness() {
                return token;
            }
            self.settled.park_timeout(rt, Duration::from_millis(WAIT));
        }
        self.begins.init(rt, || false)
    }

    /// Whether the pump begins, as a token shows it.
    pub(crate) fn begins<'a>(&'a self, token: &OnceToken<'a, bool>) -> bool
        requires { token.now.of ≡ lock_of self.now }
        ensures { result ≡ token.now.value }
    {
        *self.begins.value(token)
    }
}
