//! How a call that blocks ends.

use threads_lock::Receipt;

/// How a call that blocks ends.
#[derive(Clone, Copy, Debug, PartialEq, Eq)]
pub enum CommitEnd {
    /// The client's block replied, or its call was refused: the receipt of that section.
    Replied(Receipt),
    /// The client has no call left, after a log of so many entries.
    Over { entries: u64 },
    /// The monitor is closed, after a log of so many entries, and the client has a call left, which
    /// nobody will free.
    Stalled { entries: u64 },
}
