//! Which clients are worth a try. No clause rests on a hint.

use machine_events::Outcome;
use std::alloc::{AllocError, Global};
use std::sync::atomic::{AtomicU64, Ordering};
use threads_lock::Receipt;

/// What was last seen of a client, each as the length of the log then and 1 more; 0 is never.
///
/// Of a client that waits, whoever wakes it makes a later section, so the log is longer after it
/// than when the client was last seen to rest. So where `woken` is greater than `rested` the client
/// is worth a try, and no wake-up is missed.
#[derive(Drop)]
struct Hint {
    /// When it was seen to wait, or to have no call left. Whoever has its ticket writes this.
    rested: AtomicU64,
    /// When it was last woken, as far as those who woke it have said so.
    woken: AtomicU64,
}

/// The hints of all clients.
#[derive(Drop)]
pub struct Hints {
    clients: Vec<Hint>,
}

impl Hints {
    /// Hints of so many clients, of whom nothing was seen. It fails only for want of memory.
    pub fn open(alloc: Global, clients: u32) -> Result<Hints, AllocError> {
        let mut list = Vec::new(alloc);
        for _ in 0..clients {
            list.push(Hint {
                rested: AtomicU64::new(0),
                woken: AtomicU64::new(0),
            })?;
        }
        Ok(Hints { clients: list })
    }

    /// Whether a client was seen to rest, and no one has said since that it was woken.
    pub fn rests(&self, client: u32) -> bool {
        let Some(hint) = self.clients.get(client as usize) else {
            return false;
        };
        let rested = hint.rested.load(Ordering::SeqCst);
        rested != 0 && hint.woken.load(Ordering::SeqCst) <= rested
    }

    /// Whoever has the ticket of a client saw it rest when the log was so long.
    pub fn rest(&self, client: u32, entries: u64) {
        if let Some(hint) = self.clients.get(client as usize) {
            hint.rested
                .store(entries.saturating_add(1), Ordering::SeqCst);
        }
    }

    /// A section was made: its client waits, or it woke others.
    pub fn note(&self, receipt: &Receipt) {
        let entries = receipt.place.saturating_add(1);
        match receipt.entry.outcome {
            Outcome::Waits => self.rest(receipt.entry.client, entries),
            Outcome::Replies { reply: _, woken } => self.wake(woken, entries),
            Outcome::Spurious => {}
        }
    }

    /// The clients whose bits are set were woken when the log became so long.
    fn wake(&self, woken: u32, entries: u64) {
        let mut left = woken;
        for _client in 0..woken.count_ones() {
            if let Some(hint) = self.clients.get(left.trailing_zeros() as usize) {
                hint.woken
                    .fetch_max(entries.saturating_add(1), Ordering::SeqCst);
            }
            // The lowest bit is done.
            left &= left.wrapping_sub(1);
        }
    }
}
