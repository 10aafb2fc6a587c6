//! The large input that a number names: a buffer whose room the number gives, and 32 clients that
//! make 16,384 calls.
//!
//! [`large_input`] makes the monitor and the scripts. Definitions: `specs/LargeInput` (the monitor,
//! as it is checked from its text, and the clients), `specs/Laws` (each run that ends is done). The
//! law is a function of `laws`.
#![tactic(auto)]

mod buffer;
mod clients;
mod input;
mod laws;

pub use clients::{CALLS_EACH, CONSUMERS, PRODUCERS};
pub use input::{LargeInput, MOST_ROOM, large_input};
pub use laws::every_large_run_ends_done;
