//! What a pass of the queue knows.

use base_list::Seq;

/// What a pass knows of its queue. No value of it is made: contracts alone speak of it.
pub struct Hand {
    /// For how many clients, and for how many passes, the queue was opened.
    pub clients: u64,
    pub passes: u64,
    /// Its parts of the right to close: one for each pass, and none where it was joined into
    /// another.
    pub parts: u64,
    /// The clients whose tickets it has.
    pub tickets: Seq<u32>,
    /// How many of its pops found the queue empty.
    pub empties: u64,
}
