//! Questions on counted conditions, as reports and audits name them.
//!
//! [`write_question`] writes the words of one (`specs/QuestionText`), and [`put_question`] puts
//! them where more of a line stands.
#![tactic(auto)]

mod writing;

pub use writing::{put_question, write_question};
