//! Which monitors are small, so that their plans are exact.
//!
//! [`is_small`] asks of each block whether it is simple, and of each claim whether its query is
//! plain with all candidates kept (`specs/Plain`); exactly where all are, no claim is hard
//! (`specs/Hardness` of `plan_prune`). No reason of an exact plan of such a monitor is undecided.
#![tactic(auto)]

mod laws;
mod simple;
mod small;

pub use laws::{reasons_of_small_monitors_are_shown, small_monitors_are_plain};
pub use small::is_small;
