//! Questions on counted conditions, and their queries.
//!
//! A condition is counted where the blocks' notes on it are as many as the clients that they let
//! pass, by a row of its guard (`machine_events`, `specs/Counts`). A [`Question`] asks that of one
//! block, and [`question_query`] makes its query; [`has_row`] says whether a guard has the row.
//! Definitions: `specs/Questions` (the query of each question, and what the answers make). That a
//! condition is counted where each block is told as the answers say is a law, [`answers_count`].
#![tactic(auto)]

mod forms;
mod laws;
mod makers;
mod measures;
mod question;

pub use laws::answers_count;
pub use makers::question_query;
pub use measures::has_row;
pub use question::Question;
