//! How the module of a monitor opens it, with its parameters where it has some.
//!
//! [`write_new`] writes the functions that open a monitor with no data, and before them, where it
//! has parameters, the one that says which numbers they may have; [`write_with_data`] the head of
//! the one that opens it with data, and [`write_starts`] the state at its start, as `specs/Openings`
//! and `specs/Starts` say. The other calls write parts that the rest of the module has too: the
//! type and the value of a declaration (`specs/Declarations`), and the brace before fields.
#![tactic(auto)]

mod declared;
mod fixed;
mod lists;
mod openings;
mod starts;

pub use declared::{is_field, write_start, write_typed_start};
pub use openings::{write_new, write_with_data};
pub use starts::{write_brace, write_starts};
