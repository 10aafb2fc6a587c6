//! Blocking calls: each client of a monitor has a caller, whose call blocks until the client's next
//! block replies.
//!
//! A program with threads of its own opens a [`BlockingMonitor`] and gives each thread a
//! [`Caller`]. A thread whose client waits lends its caller and is parked, and whoever wakes the
//! client makes the client's section with it (`src/chain.rt`). [`run_callers`] makes the calls of
//! all clients, each in a thread of its own. Definitions: `specs/Commits` (what a call that blocks
//! tells its caller), those of `threads_lock` (what a caller knows, and what stands in the log at
//! the end) and of `machine_explicit`.
#![tactic(auto)]

mod attempt;
mod blocking;
mod callers;
mod chain;
mod commit_end;
mod crew;
mod door;
mod hall;
mod lobby;
mod parkers;
mod start;

pub use blocking::{BlockingMonitor, Caller};
pub use callers::run_callers;
pub use commit_end::CommitEnd;
pub use threads_lock::{Gate, OpenGate};
