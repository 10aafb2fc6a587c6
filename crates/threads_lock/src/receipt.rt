//! What a pass is told of a section.

use machine_events::Entry;

/// A section that was made: its entry, the entry's place in the log, from 0, and the ticket by
/// which the section got the lock. Tickets are drawn from 0 on; as a number of 64 bits a ticket
/// starts again at 0 after 2^64 - 1.
#[derive(Clone, Copy, Debug, PartialEq, Eq)]
pub struct Receipt {
    pub place: u64,
    pub entry: Entry,
    pub ticket: u64,
}
