//! The queue of tickets: for each client one right to try a section of it, which goes round among
//! workers.
//!
//! A [`ReadyQueue`] keeps the tickets that no worker has. Each worker has a [`QueuePass`], by which
//! it takes a [`Ticket`] and puts it back. A ticket is in the queue or with exactly one pass, and
//! none is made again. Definitions: `specs/Tickets` (what a pass shows, and what each call does)
//! and `specs/Hands` (the rule between any two steps).
#![tactic(auto)]

mod hand;
mod line;
mod pass;
mod queue;
mod rule;
mod ticket;

pub use hand::Hand;
pub use pass::QueuePass;
pub use queue::{MOST_PASSES, ReadyQueue};
pub use ticket::Ticket;
