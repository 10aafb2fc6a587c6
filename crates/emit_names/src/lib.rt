//! The names of a monitor in Rust.
//!
//! They are written as Rust has them, by [`write_type`], [`write_member`] and [`write_input`]:
//! `specs/Names` says how, [`names_stay_apart`] that no two of one scope become one, and
//! [`names_are_no_keywords`] that each may stand in Rust. [`write_try_name`] writes the name of the
//! method that tries, which no other has where [`is_try_free`] ([`try_names_stay_apart`]), and
//! [`write_ended_name`] and [`write_try_with_name`] those of the methods whose calls are given a
//! function or have a time, where [`is_with_free`] and [`is_try_with_free`]
//! ([`with_names_stay_apart`]), or [`are_lasting_free`] and [`are_lasting_with_free`]
//! ([`lasting_names_stay_apart`]).
//! Where a monitor has parameters ([`has_parameters`]), its members are also told from what the
//! functions name that open it.
//! [`has_odd_name`] says whether rustc's lints would speak of a name (`specs/Lints`).
#![tactic(auto)]

mod endings;
mod laws;
mod lints;
mod names;
mod spelling;
mod style;
mod trying;

pub use endings::Ending;
pub use laws::{
    lasting_names_stay_apart, names_are_no_keywords, names_stay_apart, try_names_stay_apart,
    with_names_stay_apart,
};
pub use lints::has_odd_name;
pub use names::{has_parameters, is_parameter, write_input, write_member, write_type};
pub use style::Style;
pub use trying::{
    are_lasting_free, are_lasting_with_free, is_try_free, is_try_with_free, is_with_free,
    write_ended_name, write_try_name, write_try_with_name,
};
