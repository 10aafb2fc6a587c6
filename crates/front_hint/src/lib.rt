//! Hints: what is likely wrong of words, and how any hint is written.
//!
//! A [`Hint`] is written in a line by [`write_hint`], and [`write_caret`] shows the line of a place
//! with a caret under it (`specs/Shown`). [`words_hint`] says what is wrong of words that are no
//! command. Which hint is chosen is promised nowhere: it helps whoever typed the words. Those of
//! files are chosen in the crates above.
#![tactic(auto)]

mod commands;
mod hint;
mod near;
mod parts;
mod said;
mod shown;
mod words;

pub use hint::{Hint, write_hint, write_hint_if};
pub use near::{is, is_near};
pub use said::{said_at_front, said_of};
pub use shown::write_caret;
pub use words::words_hint;
