//! The start of callers: all of them come before any calls. No clause rests on it.
//!
//! A caller whose client waits sleeps until another's section wakes it. Where the system starts too
//! few threads, some callers come only after others have ended; and those would sleep for ever, if
//! it were for one that hasn't come. So where not all come in time none calls, and what they would
//! have done is left to whoever started them.

use std::sync::Wait;
use std::sync::atomic::{AtomicU64, Ordering};
use std::time::Duration;

/// Not all have come yet.
const AWAITED: u64 = 0;

/// All have come.
const COMPLETE: u64 = 1;

/// Some have not come in time.
const GIVEN_UP: u64 = 2;

/// How many naps a caller makes until it gives the others up.
const NAPS: u32 = 100;

/// How long a nap is, in milliseconds.
const NAP: u64 = 10;

/// How many callers have come, and whether all have.
#[derive(Drop)]
pub struct Start {
    come: AtomicU64,
    state: AtomicU64,
}

impl Start {
    /// A start for which nobody has come.
    pub fn new() -> Start {
        Start {
            come: AtomicU64::new(0),
            state: AtomicU64::new(AWAITED),
        }
    }

    /// A caller comes, and waits for the others of so many. Whether all have come, which is the
    /// same for each of them.
    pub fn come<R: Wait>(&self, rt: &R, all: u64) -> bool {
        let others = self.come.fetch_add(1, Ordering::SeqCst);
        if others.saturating_add(1) >= all {
            self.end(COMPLETE);
        }
        self.wait(rt);
        self.end(GIVEN_UP);
        self.state.load(Ordering::SeqCst) == COMPLETE
    }

    /// Waits until all have come or are given up, and no longer than for so many naps.
    fn wait<R: Wait>(&self, rt: &R) {
        for _ in 0..NAPS {
            if self.state.load(Ordering::SeqCst) != AWAITED {
                return;
            }
            self.state
                .park_timeout(rt, AWAITED as u32, Duration::from_millis(NAP));
        }
    }

    /// Says how the start ended, where nobody has said so before.
    fn end(&self, state: u64) {
        let ended = self
            .state
            .compare_exchange(AWAITED, state, Ordering::SeqCst, Ordering::SeqCst);
        if ended.is_ok() {
            self.state.wake_all();
        }
    }
}
