//! A desk: whoever waits leaves a letter in a cell, and whoever comes by may answer it.
//!
//! A [`Desk`] is a row of cells. Who [`posts`](Cell::post) a letter has [`Mail`], and with it
//! collects what was told, or takes the letter back while nobody took it; either frees the cell
//! ([`Free`]). Who [`takes`](Cell::take) a letter has a [`Task`], and answers it once ([`Done`]).
//! An [`Errand`] says what may be asked at a desk, and what may be told then. Which cell a letter
//! lies in says nothing of its turn. Definitions: `specs/Letters` (who has a part in a letter),
//! `specs/inner/Cells` (the rule of a cell between any two steps).
#![tactic(auto)]

mod calls;
mod cell;
mod desk;
mod errand;
mod letter;
mod rule;

pub use cell::Cell;
pub use desk::{CELLS, Desk};
pub use errand::Errand;
pub use letter::{Done, Free, Mail, Miss, Task};
