//! Who leads, and who watches. No clause rests on it.
//!
//! Sections are made one at a time, so one worker alone runs a monitor fastest; the others are
//! there for when it is held at its gate. So one worker leads, one watches, and the others sleep.
//! The one that watches looks once in a moment how long the log is; and where it hasn't grown it
//! takes over, and wakes one of those that sleep, to watch in its place. Whoever finds that another
//! leads watches, or sleeps where one watches already.
//!
//! Nothing is left to those that sleep: whoever leads and whoever watches look again by themselves.
//! Where nobody watches, all others are held at their gates, and the first of them that comes back
//! does. Nobody need have begun: one whose thread the system refused may begin after others have
//! ended, and finds then that all is over.

use std::sync::Wait;
use std::sync::atomic::{AtomicU64, Ordering};
use std::time::Duration;

/// Nobody leads yet.
const NOBODY: u64 = 0;

/// The work is done.
const OVER: u64 = u64::MAX;

/// Nobody watches.
const UNWATCHED: u64 = 0;

/// Some worker watches.
const WATCHED: u64 = 1;

/// How long a nap is, in microseconds.
const NAP: u64 = 1_000;

/// What is on a worker.
#[derive(Clone, Copy)]
pub enum Duty {
    /// It makes sections.
    Leads,
    /// It watches, or sleeps.
    StandsBy,
    /// It ends.
    Ends,
}

/// How many workers have begun, the number of the one that leads, whether one watches, and the bell
/// of those that sleep.
#[derive(Drop)]
pub struct Roster {
    alone: bool,
    begun: AtomicU64,
    leader: AtomicU64,
    watch: AtomicU64,
    rung: AtomicU64,
}

impl Roster {
    /// So many workers, none of whom has begun.
    pub fn new(workers: u64) -> Roster {
        Roster {
            alone: workers == 1,
            begun: AtomicU64::new(0),
            leader: AtomicU64::new(NOBODY),
            watch: AtomicU64::new(UNWATCHED),
            rung: AtomicU64::new(0),
        }
    }

    /// A worker begins, and leads if it is the first. The result is its number, from 1.
    pub fn begin(&self) -> u64 {
        let number = self.begun.fetch_add(1, Ordering::SeqCst).wrapping_add(1);
        if number == 1 {
            self.follow(NOBODY, number);
        }
        number
    }

    /// Whether there is one worker alone.
    pub fn is_alone(&self) -> bool {
        self.alone
    }

    /// Whether the worker of a number leads.
    pub fn leads(&self, number: u64) -> bool {
        self.leader.load(Ordering::SeqCst) == number
    }

    /// What is on the worker of a number.
    pub fn duty(&self, number: u64) -> Duty {
        let leader = self.leader.load(Ordering::SeqCst);
        if leader == number {
            Duty::Leads
        } else if leader == OVER {
            Duty::Ends
        } else {
            Duty::StandsBy
        }
    }

    /// Whether a worker that stands by watches now. Else it has slept until it was wanted; it may
    /// wake for no reason.
    ///
    /// It reads how often the bell was rung before it sees that one watches and that all isn't
    /// over: who takes over rings after nobody watches any more, and who ends after all is over.
    pub fn watches<R: Wait>(&self, rt: &R) -> bool {
        let rung = self.rung();
        let found = self
            .watch
            .compare_exchange(UNWATCHED, WATCHED, Ordering::SeqCst, Ordering::SeqCst);
        if found.is_ok() {
            return true;
        }
        if !self.is_over() {
            self.rung.park(rt, rung);
        }
        false
    }

    /// Whether the work is done.
    pub fn is_over(&self) -> bool {
        self.leader.load(Ordering::SeqCst) == OVER
    }

    /// A worker that watches leads now, and one of those that sleep is woken.
    pub fn take_over(&self, number: u64) {
        self.lead(number);
        self.watch.store(UNWATCHED, Ordering::SeqCst);
        self.rung.fetch_add(1, Ordering::SeqCst);
        self.rung.wake_one();
    }

    /// Waits for a short time, or until all is over.
    pub fn nap<R: Wait>(&self, rt: &R) {
        self.rung
            .park_timeout(rt, self.rung(), Duration::from_micros(NAP));
    }

    /// How often the bell was rung, modulo 2^32.
    fn rung(&self) -> u32 {
        (self.rung.load(Ordering::SeqCst) & u64::from(u32::MAX)) as u32
    }

    /// A worker leads, unless all is over.
    fn lead(&self, number: u64) {
        let leader = self.leader.load(Ordering::SeqCst);
        if leader != OVER {
            self.follow(leader, number);
        }
    }

    /// A worker leads after this one, unless another does by now.
    fn follow(&self, leader: u64, number: u64) {
        let _found = self
            .leader
            .compare_exchange(leader, number, Ordering::SeqCst, Ordering::SeqCst);
    }

    /// The work is done: the others look for themselves.
    pub fn end(&self) {
        self.leader.store(OVER, Ordering::SeqCst);
        self.rung.fetch_add(1, Ordering::SeqCst);
        self.rung.wake_all();
    }
}
