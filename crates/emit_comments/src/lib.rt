//! Comments of a monitor as docs of Rust.
//!
//! [`write_comments`] writes the comment lines directly above a line of a text as lines of docs, in
//! which nothing is more than text (`specs/Comments`), and [`write_leading`] with an empty line
//! after them. Lines of which none says anything are none. [`has_comments`] tells whether there are
//! any, and [`line_of`] and [`first_line`] which line an offset, or the first token, stands in.
#![tactic(auto)]

mod comments;
mod docs;
mod line;

pub use comments::{first_line, has_comments, line_of};
pub use docs::{write_comments, write_leading};
