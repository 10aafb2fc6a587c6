//! The cursor over the tokens of a file, of which parsers are made.
//!
//! A [`Cursor`] takes single words off the front of the tokens and says what comes next, and
//! [`many`] takes item after item. `specs/Reading` says what is read, and where reading stops, for
//! which a [`Stop`] stands; [`fault_of`] makes it the fault of a file.
#![tactic(auto)]

mod cursor;
mod fault;
mod items;
mod word;

pub use cursor::Cursor;
pub use fault::{Stop, fault_of};
pub use items::{many, with_first};
pub use word::PlacedNumber;
