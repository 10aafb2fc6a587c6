//! Threads that begin together.

use std::sync::atomic::{AtomicU64, Ordering};
use std::thread;

/// The most turns for which a thread waits for the others.
const MOST_TURNS: u64 = 10_000_000;

/// How many threads have come, and how many of them waited for the others in vain.
#[derive(Drop)]
pub(crate) struct Meeting {
    come: AtomicU64,
    in_vain: AtomicU64,
}

impl Meeting {
    pub(crate) fn new() -> Meeting {
        Meeting {
            come: AtomicU64::new(0),
            in_vain: AtomicU64::new(0),
        }
    }

    /// Says that a thread has come, and waits until so many have.
    pub(crate) fn meet(&self, all: u64) {
        self.come.fetch_add(1, Ordering::SeqCst);
        for _ in 0..MOST_TURNS {
            if self.come.load(Ordering::SeqCst) >= all {
                return;
            }
            thread::yield_now();
        }
        self.in_vain.fetch_add(1, Ordering::SeqCst);
    }

    /// Whether so many threads have come, and none waited in vain.
    pub(crate) fn was_of(&self, all: u64) -> bool {
        self.come.load(Ordering::SeqCst) == all && self.in_vain.load(Ordering::SeqCst) == 0
    }
}
