//! What helps whoever typed words or files that are refused, for a second output beside the first.
//!
//! [`KeptFiles`] are files that keep a copy of what was read of them, and are seen as those that
//! they stand for. From the copies [`help_with_refusal`] finds again what is wrong, and shows the
//! line of the place with a hint (`front_source`). [`help_with_reading`] says why a file may be
//! unreadable, by a [`Names`], and [`help`] writes any hint. None of it answers anything:
//! where memory is short or the output fails, less is written.
#![tactic(auto)]

mod certificates;
mod claims;
mod finding;
mod helping;
mod kept_files;
mod lines;
mod names;
mod notes;
mod plans;
mod slip;

pub use helping::{Named, Other, help, help_with_reading, help_with_refusal};
pub use kept_files::KeptFiles;
pub use names::{NameKind, Names, NoNames};
