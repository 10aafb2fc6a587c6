//! Which blocks of a monitor keep 64 bits.
//!
//! A block fits where each number that it assigns on the way, and its answer, is within 64 bits,
//! wherever it may run within 64 bits as the kept candidates and its guard allow (`specs/Fits`).
//! [`outside_question`] makes the formula that is true just where it does not (`specs/Outside`),
//! within limits (`specs/Within`); [`fit_of`] and [`fits_of`] ask the prover, and hand out a
//! certificate for each block that fits (`specs/Answers`); [`whole_blocks`] tells which have one.
//! [`overflow_of`] finds values with which a block does not (`specs/States`).
//! The laws are functions of `laws` (`specs/Laws`).
#![tactic(auto)]

mod bounds;
mod fit;
mod laws;
mod numbers;
mod outside;
mod question;
mod state;
mod ways;

pub use fit::{fit_of, fits_of, whole_blocks};
pub use laws::{certified_blocks_fit, numberless_blocks_fit, questions_are_exact};
pub use question::outside_question;
pub use state::overflow_of;
