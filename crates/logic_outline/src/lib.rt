//! Certificates as lists: read from their texts, and checked, with no call inside a call.
//!
//! An [`Outline`] is a certificate that contracts see as it is (`specs/Outlines`). [`read_outline`]
//! reads one from its text (`specs/Readings`), and [`is_refuted`] tells exactly whether it refutes
//! a formula. Neither asks how deep splits and cases nest in one another, so no depth is too much
//! for it.
#![tactic(auto)]

mod acceptance;
mod forms;
mod listing;
mod numbers;
mod outline;
mod reading;

pub use acceptance::is_refuted;
pub use listing::outlined;
pub use outline::{Node, Outline};
pub use reading::read_outline;
