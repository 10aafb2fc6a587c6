//! Bells: a seat whose ticket is not served yet sleeps until the ticket's bell is rung.
//!
//! No wake-up is lost, since all steps on the words of bells and tickets have one order. A seat
//! counts itself in and reads how often the bell was rung, *before* it looks once more which ticket
//! is served. Whoever serves the next ticket does so *before* it looks for sleepers at that
//! ticket's bell. So the seat sees its ticket served, and stays awake; or else it is seen, and the
//! bell is rung after it read how often: it then does not fall asleep, or is woken.
//!
//! A bell is also rung when its ticket comes near: a seat that is woken then has its processor when
//! its turn comes. No wake-up rests on that.

use crossbeam_utils::CachePadded;
use std::alloc::{AllocError, Global};
use std::array;
use std::sync::Wait;
use std::sync::atomic::{AtomicU64, Ordering};

/// How many bells a lock has. Tickets that are so far apart share one: their seats wake together,
/// and look whose turn it is.
const BELLS: usize = 32;

/// A bell, and how many seats sleep until it is rung, or are about to.
#[derive(Drop)]
pub struct Bell {
    sleepers: AtomicU64,
    rung: AtomicU64,
}

impl Bell {
    /// A bell that was never rung, with no sleeper.
    fn new() -> Bell {
        Bell {
            sleepers: AtomicU64::new(0),
            rung: AtomicU64::new(0),
        }
    }

    /// Counts in a seat that is about to sleep. The result is for `sleep`: how often the bell was
    /// rung, modulo 2^32.
    pub fn enter(&self) -> u32 {
        self.sleepers.fetch_add(1, Ordering::SeqCst);
        (self.rung.load(Ordering::SeqCst) & u64::from(u32::MAX)) as u32
    }

    /// Sleeps, if the bell was not rung since, until it is. It may also return for no reason.
    pub fn sleep<R: Wait>(&self, rt: &R, rung: u32) {
        self.rung.park(rt, rung);
    }

    /// Counts out a seat that sleeps no more.
    pub fn leave(&self) {
        self.sleepers.fetch_sub(1, Ordering::SeqCst);
    }

    /// Wakes all who sleep. With no sleeper it costs one load.
    fn ring(&self) {
        if self.sleepers.load(Ordering::SeqCst) > 0 {
            self.rung.fetch_add(1, Ordering::SeqCst);
            self.rung.wake_all();
        }
    }
}

/// The bells of a lock, each on cache lines of its own.
#[derive(Drop)]
pub struct Bells {
    bells: Box<[CachePadded<Bell>; BELLS]>,
}

impl Bells {
    /// Bells that were never rung. It fails only for want of memory.
    pub fn open(alloc: Global) -> Result<Bells, AllocError> {
        let bells = Box::new(alloc, array::from_fn(|_| CachePadded::new(Bell::new())))?;
        Ok(Bells { bells })
    }

    /// The bell of a ticket.
    pub fn of(&self, ticket: u64) -> &Bell {
        &self.bells[(ticket % BELLS as u64) as usize]
    }

    /// Wakes all who sleep at the bell of a ticket that is served now.
    pub fn ring(&self, ticket: u64) {
        self.of(ticket).ring();
    }
}
