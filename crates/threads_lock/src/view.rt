//! What a seat of the lock knows. No value of these types but [`Terms`] is made: contracts alone
//! speak of them.

use crate::receipt::Receipt;
use base_list::Seq;
use machine_explicit::FreeMonitor;
use std::snapshot::Snapshot;

/// What a pass knows of the monitor that it shares.
pub struct Knowledge {
    /// The monitor as it was when this pass last held the lock, at first as it was when it was
    /// shared.
    pub front: FreeMonitor,
    /// A length that the log has reached.
    pub seen: u64,
    /// The receipts that it was given, in rising places, with their tickets counted without end.
    pub receipts: Seq<Receipt>,
    /// The fronts that it, and those who were joined into it, had before each join.
    pub joined_fronts: Seq<FreeMonitor>,
    /// How many of its steps looked at the shared log.
    pub looks: u64,
}

/// Where a seat stands in the queue, with the ticket that it drew. Tickets grow without end here;
/// the words of the lock have them modulo 2^64.
pub enum SeatState {
    Idle,
    Waiting(u64),
    /// It has the lock, and has counted no section yet.
    Holding(u64),
    /// It has the lock, and the section that it made is counted.
    Leaving(u64),
}

/// What a seat knows.
pub struct View {
    pub state: SeatState,
    /// Its parts of the right to close: one for each pass, and none where it was joined into
    /// another.
    pub parts: u64,
    pub known: Knowledge,
}

/// What is fixed when a monitor is shared: how it began, and how many passes there are.
#[derive(Drop)]
pub struct Terms {
    pub start: Snapshot<FreeMonitor>,
    pub passes: u64,
}
