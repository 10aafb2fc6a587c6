//! The statements of the methods of the Rust module of a monitor under a plan.
//!
//! [`write_blocks`] writes the statements of a method's blocks, one for each operation of its code,
//! and [`write_end`] what it answers after them, as `specs/Statements` says, by its [`Calls`] and
//! their [`Way`] to wait (`specs/Ways`). [`write_handed_parameters`] writes what a call of a method
//! hands on, with [`comma_bytes`] between it and what comes next. [`write_around_name`] writes what
//! the variable of a condition is called, and [`write_around_count`] the count of those that sleep
//! on it (`specs/Conditions`). [`method_fails`] says whether a method may fail, and
//! [`method_shortens`] whether it works out in 128 bits a number that is known to have 64. The other
//! calls look up what a module is printed of, a [`Source`] (`specs/Sources`).
#![tactic(auto)]

mod conditions;
mod source;
mod statements;
mod ways;
mod working;

pub use conditions::{comma_bytes, write_around_count, write_around_name, write_handed_parameters};
pub use source::{
    Calls, Source, answer_of, condition_of, count_of, first_block, first_of, is_always, is_guarded,
    is_waited_on, is_whole, tests_alone,
};
pub use statements::{method_fails, method_shortens, write_blocks, write_end};
pub use ways::{Way, asserts, may_refuse};
