//! The expressions of a monitor in Rust.
//!
//! What a name of an expression is written as hangs on its [`Scope`] (`specs/Scopes`), and
//! [`write_name`] writes it; [`any_is_constant`] and [`write_constant`] serve the name of a constant
//! elsewhere. Expressions are written by [`write_plain`], as `specs/Expressions`
//! says, and values that are stored or answered by [`write_value`] (`specs/Values`): [`narrows`]
//! says which may need more than 64 bits, [`is_tested`] which of them are tested, and
//! [`is_shortened`] which are worked out in 128 bits and known to have 64.
#![tactic(auto)]

mod expressions;
mod scope;
mod values;

pub use expressions::{narrows, write_plain};
pub use scope::{Reach, Scope, any_is_constant, write_constant, write_name};
pub use values::{is_shortened, is_tested, write_value};
