//! A gate at which lane 0 and another lane meet.

use slicer_bank::Gate;
use std::sync::atomic::{AtomicU64, Ordering};
use std::thread;

/// How often a held lane looks for the other before it goes on.
const LIMIT: u64 = 1_000_000;

/// Holds lane 0 and another lane each until the other has begun as often, and counts how often one gave up.
#[derive(Drop)]
pub(crate) struct Meeting {
    other_lane: u8,
    first: AtomicU64,
    other: AtomicU64,
    given_up: AtomicU64,
}

impl Meeting {
    pub(crate) fn with_lane(other_lane: u8) -> Meeting {
        Meeting {
            other_lane,
            first: AtomicU64::new(0),
            other: AtomicU64::new(0),
            given_up: AtomicU64::new(0),
        }
    }

    /// How often lane 0 has begun, how often the other has, and how often one of them gave up.
    pub(crate) fn counts(&self) -> [u64; 3] {
        [
            self.first.load(Ordering::SeqCst),
            self.other.load(Ordering::SeqCst),
            self.given_up.load(Ordering::SeqCst),
        ]
    }

    fn hold(&self, own: &AtomicU64, other: &AtomicU64) {
        let calls = own.fetch_add(1, Ordering::SeqCst).saturating_add(1);
        for _ in 0..LIMIT {
            if calls <= other.load(Ordering::SeqCst) {
                return;
            }
            thread::yield_now();
        }
        self.given_up.fetch_add(1, Ordering::SeqCst);
    }
}

impl Gate for Meeting {
    fn begun(&self, lane: u8) {
        if lane == 0 {
            self.hold(&self.first, &self.other);
        } else if lane == self.other_lane {
            self.hold(&self.other, &self.first);
        }
    }
}
