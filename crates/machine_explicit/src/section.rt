//! What a monitor that runs by sections answers.

use machine_events::Entry;
use thiserror::Error;

/// A section that was made: its entry, and the entry's place in the log, from 0.
#[derive(Clone, Copy, Debug, PartialEq, Eq)]
pub struct Section {
    pub place: u64,
    pub entry: Entry,
}

/// The client waits, or has no call left. The log has so many entries.
#[derive(Clone, Copy, Debug, PartialEq, Eq, Error)]
#[error("the client waits, or has no call left, after {entries} entries")]
pub struct NotReady {
    pub entries: u64,
}

/// Why a client isn't woken by nothing.
#[derive(Clone, Copy, Debug, PartialEq, Eq, Error)]
pub enum SpuriousFault {
    /// The client doesn't wait. The log has so many entries.
    #[error("the client doesn't wait, after {entries} entries")]
    NotReady { entries: u64 },
    /// The client waits, and the log has all the spurious entries that it may have.
    #[error("the log has all the spurious entries that it may have")]
    Spent,
}
