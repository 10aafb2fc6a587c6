//! Expressions of monitor files as linear forms and formulas.
//!
//! A scope, a list of [`Entry`], says what the names of a method's expressions stand for
//! (`specs/Scope`). Of an expression in a scope [`fault_in`] finds the first rule that it breaks
//! (`specs/Sense`), and of one that breaks none [`form_of`] makes its flattened form and
//! [`formula_of`] its formula (`specs/Forms`). [`forms_keep_meaning`] is the law that both keep the
//! plain meaning of `specs/Plain`.
#![tactic(auto)]

mod finding;
mod first_fault;
mod form;
mod laws;
mod making;
mod scope;
mod whole_fault;

pub use finding::{first_place, is_other, kind_of, kind_of_name};
pub use first_fault::{fault_in, large_number};
pub use lang_base::{Counted, Kind};
pub use laws::{forms_keep_meaning, least_is_least, scope_is_ordered, scope_numbers_are_small};
pub use making::{form_of, formula_of};
pub use scope::{Entry, Meaning, find, number_of, places_of, scope_of};
pub use whole_fault::wrong_type;
