//! Parkers: a caller whose client waits sleeps until someone says that the client was woken.
//!
//! How often a client was woken is only a hint: what a caller answers comes from the lock alone,
//! and no clause rests on it. No caller is left parked. A caller reads how often its client was
//! woken *before* it makes a section or looks, and sleeps only as long as that is unchanged; and
//! whoever wakes a client counts it *after* the section that woke it. So a caller that saw its
//! client wait before that section finds another count when it parks, or is woken; and one that
//! looked after it saw the client woken. Nobody takes back what was counted, so all callers of one
//! client find it.
//!
//! Whether all clients rest is known behind the door, by a bit for each. A bit is set where its
//! client waits, and may be set where it is in its last call. So a caller whose client waits need
//! not look at the monitor before it parks, unless all bits are set: as long as one isn't, the
//! monitor isn't closed, and whoever closes it finds all of them set.
//!
//! A caller lends its pass behind the door, before it parks. Whoever takes it there unparks its
//! client afterwards, so who finds an answer was woken after it came.

use super::door::Door;
use machine_explicit::{Entry, FreeMonitor, NotReady, Outcome};
use std::alloc::{AllocError, Global};
use std::sync::Wait;
use std::sync::atomic::{AtomicU64, Ordering};
use threads_lock::{Receipt, Rest, Standing};

/// How often a client was unparked, on which its callers sleep, and how many calls the client has.
#[derive(Drop)]
struct Parker {
    unparked: AtomicU64,
    calls: usize,
}

impl Parker {
    /// A parker of a client that was never unparked.
    fn new(calls: usize) -> Parker {
        Parker {
            unparked: AtomicU64::new(0),
            calls,
        }
    }

    /// Sleeps as long as the client was unparked so often.
    fn park<R: Wait>(&self, rt: &R, unparked: u64) {
        for _ in rt.forever() {
            if self.unparked.load(Ordering::SeqCst) != unparked {
                return;
            }
            self.unparked
                .park(rt, (unparked & u64::from(u32::MAX)) as u32);
        }
        unreachable!()
    }

    /// Counts, and wakes all who sleep: several callers may call for one client.
    fn unpark(&self) {
        self.unparked.fetch_add(1, Ordering::SeqCst);
        self.unparked.wake_all();
    }
}

/// The parkers of all clients, and the door ahead of the monitor, behind which stand the bits of
/// clients that rest.
///
/// Whoever asks the monitor for something goes through the door, so that one seat at a time has a
/// ticket of its lock. Else most callers would sleep there until their tickets are served, and each
/// be woken in turn, where the door leaves the monitor to a caller that is awake.
#[derive(Drop)]
pub struct Parkers {
    clients: Vec<Parker>,
    door: Door,
    resting: AtomicU64,
}

impl Parkers {
    /// A parker for each client. It fails only for want of memory.
    pub fn open(alloc: Global, free: &FreeMonitor) -> Result<Parkers, AllocError> {
        let mut clients = Vec::new(alloc);
        for client in free.scripts().clients() {
            clients.push(Parker::new(client.calls.items().len()))?;
        }
        Ok(Parkers {
            clients,
            door: Door::new(),
            resting: AtomicU64::new(u64::from(resting_at_first(free))),
        })
    }

    /// Waits until nobody else is behind the door.
    pub fn enter<R: Wait>(&self, rt: &R) {
        self.door.enter(rt);
    }

    /// Leaves the door.
    pub fn leave(&self) {
        self.door.leave();
    }

    /// Notes who rests after a section, behind the door.
    pub fn note(&self, made: Result<Receipt, NotReady>) {
        if let Ok(receipt) = made {
            let resting = self.resting_after(self.resting(), &receipt.entry);
            self.resting.store(u64::from(resting), Ordering::SeqCst);
        }
    }

    /// Whether a client rests, as far as is known. One that doesn't was not seen to wait, or was
    /// woken since.
    pub fn rests(&self, client: u32) -> bool {
        self.resting() & bit_of(client) != 0
    }

    /// Whether all clients rest, as far as is known. Where the monitor is closed, all do.
    fn all_rest(&self) -> bool {
        self.resting().count_ones() as usize >= self.clients.len()
    }

    /// The bits of clients that rest.
    fn resting(&self) -> u32 {
        (self.resting.load(Ordering::SeqCst) & u64::from(u32::MAX)) as u32
    }

    /// The bits of clients that rest, after a section.
    fn resting_after(&self, before: u32, entry: &Entry) -> u32 {
        let bit = bit_of(entry.client);
        match entry.outcome {
            Outcome::Replies { reply: _, woken } => {
                let others = before & !bit & !woken;
                if self.is_of_last_call(entry) {
                    others | bit
                } else {
                    others
                }
            }
            Outcome::Waits => before | bit,
            Outcome::Spurious => before & !bit,
        }
    }

    /// Whether the caller of a client for which this was made may rest: its client waits, and some
    /// other doesn't rest.
    pub fn may_rest(&self, made: Result<Receipt, NotReady>) -> bool {
        match made {
            Ok(receipt) => receipt.entry.outcome == Outcome::Waits && !self.all_rest(),
            Err(_) => false,
        }
    }

    /// Leaves the door after a look at how a client stands; and where it is stalled unparks all.
    pub fn leave_at(&self, standing: Standing) {
        self.leave();
        if standing == Standing::Stalled {
            self.unpark_all();
        }
    }

    /// How often a client was unparked, for `park`: read before the caller makes a section or
    /// looks.
    pub fn unparked(&self, client: u32) -> u64 {
        match self.clients.get(client as usize) {
            Some(parker) => parker.unparked.load(Ordering::SeqCst),
            None => 0,
        }
    }

    /// Sleeps until someone unparks the client, or did so since it was unparked so often.
    fn park<R: Wait>(&self, rt: &R, client: u32, unparked: u64) {
        if let Some(parker) = self.clients.get(client as usize) {
            parker.park(rt, unparked);
        }
    }

    /// Unparks the clients whose bits are set.
    pub fn unpark(&self, woken: u32) {
        let mut left = woken;
        for _client in 0..woken.count_ones() {
            if let Some(parker) = self.clients.get(left.trailing_zeros() as usize) {
                parker.unpark();
            }
            // The lowest bit is done.
            left &= left.wrapping_sub(1);
        }
    }

    /// Unparks all clients.
    pub fn unpark_all(&self) {
        for parker in &self.clients {
            parker.unpark();
        }
    }

    /// Whether a reply is of its client's last call. After any other reply that client has a call
    /// left, so the monitor isn't closed.
    pub fn is_of_last_call(&self, entry: &Entry) -> bool {
        match self.clients.get(entry.client as usize) {
            Some(parker) => entry.call as usize >= parker.calls,
            None => true,
        }
    }
}

/// A caller whose client waits, and was unparked so often before: it comes back through the door,
/// and sleeps until its client is unparked.
#[derive(Drop)]
pub struct Pause<'a> {
    pub parkers: &'a Parkers,
    pub client: u32,
    pub unparked: u64,
}

impl<'a> Rest for Pause<'a> {
    fn rest<R: Wait>(&self, rt: &R) {
        self.parkers.leave();
        self.parkers.park(rt, self.client, self.unparked);
    }
}

/// The bit of a client.
fn bit_of(client: u32) -> u32 {
    1u32.wrapping_shl(client)
}

/// The bits of clients that can make no section.
fn resting_at_first(free: &FreeMonitor) -> u32 {
    let clients = free.scripts().clients().len() as u32;
    let mut resting = 0u32;
    for client in 0..clients {
        if !free.is_ready(client) {
            resting |= bit_of(client);
        }
    }
    resting
}
