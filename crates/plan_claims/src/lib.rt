//! The claims that a plan rests on, and their certificates, with no prover.
//!
//! `specs/Backing` says which claims these are, and when a certificate is one of a claim. Which
//! conditions and blocks they speak of is told by [`reads_none`] and [`waits_at`]. A [`PlacedPlan`]
//! is a plan with a [`Proof`] of each.
#![tactic(auto)]

mod parts;
mod placed;

pub use parts::{reads_none, waits_at};
pub use placed::{PlacedPlan, Proof};
