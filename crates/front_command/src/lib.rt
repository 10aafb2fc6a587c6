//! The command line: which command the words ask for.
//!
//! [`command_of`] reads the words by `clap` as one simple command, a name with values and seven
//! options, and asks the rules of the product. `specs/CommandLine` says which command words are
//! (`Takes`): what `clap` gives for them (`IsGiven`), and what those arguments ask for (`Asks`).
//! `specs/Commands` says which one a [`Command`] of the code stands for. Words are at most one
//! command, by the laws of `laws`.
#![tactic(auto)]

mod arguments;
mod asked;
mod command;
mod laws;
mod numbers;
mod plan_choice;
mod schedule;

pub use asked::DEFAULT_WORKERS;
pub use command::{Command, CommandFault, command_of};
pub use laws::{one_command, words_taken};
pub use plan_choice::PlanChoice;
pub use schedule::Schedule;
