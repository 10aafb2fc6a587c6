//! The door ahead of the monitor: one caller at a time is behind it.
//!
//! No clause rests on it. Who comes looks at it for a while before it sleeps, for longer than a
//! `Mutex` does: what is done behind the door takes a microsecond or two, and to sleep and to be
//! woken takes several.

use std::hint;
use std::sync::Wait;
use std::sync::atomic::{AtomicU64, Ordering};

/// Nobody is behind the door.
const OPEN: u64 = 0;

/// Someone is behind the door.
const SHUT: u64 = 1;

/// Someone is behind the door, and others may sleep ahead of it.
const AWAITED: u64 = 2;

/// How often a caller looks at the door before it sleeps.
const LOOKS: u64 = 2_000;

/// A door.
#[derive(Drop)]
pub struct Door {
    state: AtomicU64,
}

impl Door {
    /// A door with nobody behind it.
    pub fn new() -> Door {
        Door {
            state: AtomicU64::new(OPEN),
        }
    }

    /// Waits until nobody is behind the door, and goes through it.
    pub fn enter<R: Wait>(&self, rt: &R) {
        if self.looks() {
            return;
        }
        // Others may sleep, so that whoever has slept leaves the door as one that is awaited.
        for _ in rt.forever() {
            if self.state.swap(AWAITED, Ordering::SeqCst) == OPEN {
                return;
            }
            self.state.park(rt, AWAITED as u32);
        }
        unreachable!()
    }

    /// Comes back through the door, and wakes one who sleeps ahead of it.
    pub fn leave(&self) {
        if self.state.swap(OPEN, Ordering::SeqCst) == AWAITED {
            self.state.wake_one();
        }
    }

    /// Looks for a while whether nobody is behind the door, and then goes through it.
    fn looks(&self) -> bool {
        for _ in 0..LOOKS {
            if self.state.load(Ordering::SeqCst) == OPEN && self.goes_in() {
                return true;
            }
            hint::spin_loop();
        }
        false
    }

    /// Goes through the door, where nobody is behind it.
    fn goes_in(&self) -> bool {
        self.state
            .compare_exchange(OPEN, SHUT, Ordering::SeqCst, Ordering::SeqCst)
            .is_ok()
    }
}
