//! Entries of logs.

use machine_implicit::Reply;

/// What came of a section, or a spurious wake-up.
#[derive(Clone, Copy, Debug, PartialEq, Eq)]
pub enum Outcome {
    /// The client's guard was false: it waits.
    Waits,
    /// The block replied, and woke the clients whose bits are set; or the call was refused, and no
    /// client was woken.
    Replies { reply: Reply, woken: u32 },
    /// The client was woken by nothing.
    Spurious,
}

/// An entry of a log: a client, numbered from 0, the call and the block of it that it was at,
/// numbered from 1, and what came of it.
#[derive(Clone, Copy, Debug, PartialEq, Eq)]
pub struct Entry {
    pub client: u32,
    pub call: u32,
    pub block: u32,
    pub outcome: Outcome,
}
