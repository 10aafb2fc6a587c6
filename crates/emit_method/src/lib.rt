//! The methods of the Rust module of a monitor under a plan.
//!
//! [`write_methods_of`] writes a method for calls that wait, and, where the method waits first, one
//! for calls that try, one for calls that wait until a time, and one for calls that wait for one,
//! and with each of them one whose calls are given a function, as `specs/Methods` says: what it is
//! called (`specs/Called`), what is said of it (`specs/Docs`), its head and locals, and the
//! statements of its code, which `emit_statements` writes. One for calls that wait for a time calls
//! two of the others (`specs/Lasting`). The other calls say whether a method has calls that try, or
//! that have a time. By [`functions_run_last`] the text calls the function of a call with the last
//! body of its code (`specs/Laws`).
#![tactic(auto)]

mod called;
mod docs;
mod lasting;
mod laws;
mod methods;

pub use laws::functions_run_last;
pub use methods::{has_times, has_try, refuses, write_methods_of};
