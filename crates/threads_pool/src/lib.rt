//! Workers that run a monitor side by side.
//!
//! [`run_pool`] shares a monitor among so many threads. The tickets of its clients go round in a
//! [`ReadyQueue`](threads_queue::ReadyQueue), so each client is tried by one worker at a time.
//! One worker leads, one watches, and the others sleep: no clause rests on who does, or on which
//! clients are worth a try. A [`Gate`] is called ahead of each section that a worker tries, with no
//! lock held. Definitions: `Follows` of `threads_lock` (what stays) and those of `machine_explicit`
//! (what a closed monitor is); `specs/inner/Workers` (what a worker keeps between two turns, and
//! what it knows when it ends).
#![tactic(auto)]

mod crew;
mod hints;
mod pace;
mod pool;
mod roster;
mod shop;
mod worker;

pub use pool::run_pool;
pub use threads_lock::{Gate, OpenGate};
pub use threads_queue::{QueuePass, ReadyQueue, Ticket};
