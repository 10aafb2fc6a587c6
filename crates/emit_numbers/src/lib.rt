//! What the functions that are printed of a monitor's blocks do, and what their numbers keep.
//!
//! What is stored or answered has 64 bits, and what is made on the way to it 128. Definitions:
//! `specs/Calls` (what a call does of the function that is printed of a block's body),
//! `specs/Tests` (what a call answers of the function that is printed of a block's guard),
//! `specs/Widths` (which numbers are made on the way to what an expression stands for),
//! `specs/Laws`. The laws are functions of `laws`: this crate has no code of its own.
#![tactic(auto)]

mod laws;

pub use laws::{printed_bodies_step, printed_numbers_are_wide, printed_tests_hold};
