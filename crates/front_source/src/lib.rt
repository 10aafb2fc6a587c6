//! Hints of source files: what is likely wrong where a monitor or clients are refused.
//!
//! [`write_monitor_hint`] and [`write_clients_hint`] show the line of a fault of a file with a
//! caret under its place, and a hint below where there is one. Which hint is chosen is promised
//! nowhere: tables go by the tokens before and at the place, and help whoever typed them.
#![tactic(auto)]

mod around;
mod calling;
mod foreign;
mod grammar;
mod kinds;
mod lexing;
mod rules;
mod source;

pub use source::{write_clients_hint, write_monitor_hint};
