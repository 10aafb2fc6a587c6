//! The Rust module of a monitor under a plan.
//!
//! [`write_rust`] writes the module: a type that threads share, with data of any type, a method for
//! each of the monitor's, where the method waits first one that tries and two that have a time, and
//! with each of them one whose calls are given a function of the data. `specs/Modules` says what it
//! writes. Its methods are written by `emit_method`, as statements for the operations of their
//! code, so what `emit_code` says of that code is said of the module.
#![tactic(auto)]

mod declared;
mod fields;
mod fixed;
mod module;
mod state;

pub use fixed::version_bytes;
pub use module::write_rust;
