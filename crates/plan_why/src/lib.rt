//! Why each note of a plan stands.
//!
//! [`reasons`] finds, for each thing of a plan that costs something (`specs/Things`), a valuation
//! at which it is needed: there the triple fails that would spare it (`specs/Reasons`).
//! [`failure_of`] finds a valuation at which the triple of any query fails (`specs/Failures`).
#![tactic(auto)]

mod answering;
mod failing;
mod listing;
mod reason;
mod running;
mod starts;
mod tying;

pub use answering::reasons;
pub use failing::{Failure, failure_of};
pub use listing::things_of;
pub use reason::{Answer, Reason, Thing, is_block_of};
