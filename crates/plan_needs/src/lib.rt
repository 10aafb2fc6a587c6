//! Why each note, broadcast and test of a counted plan stands.
//!
//! [`counted_reasons`] finds, for each thing of a counted plan that costs something, a valuation at
//! which it is needed, and [`broadcast_reasons`] for each broadcast of a block on a condition that
//! is counted, one at which a signal is not enough: there a triple fails that would spare it
//! (`specs/Needs`, `specs/CountedReasons`).
#![tactic(auto)]

mod answering;
mod asking;
mod broadcasting;
mod broadcasts;
mod rows;

pub use answering::counted_reasons;
pub use broadcasting::broadcast_reasons;
pub use broadcasts::{BlockBroadcast, BroadcastReason};
