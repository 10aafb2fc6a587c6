//! What the crates of tests share: monitors and clients as texts, and what the readers make of a
//! text.
//!
//! A test is a call with an answer that was worked out by hand. Tests stand in crates of their own
//! beside this one, by subject, so that each is proved while the others are. Definitions:
//! `specs/Reading` (the monitor, and the clients, of a text).
#![tactic(auto)]

pub mod clients;
pub mod monitors;
pub mod plans;
mod reading;

pub use reading::{checked, scripts_read};
