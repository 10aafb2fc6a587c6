//! The top call: from words, files and a sink to a status and what is printed.
//!
//! [`expresso`] reads the words of the command line and does what they ask for. `run FILE CLIENTS`
//! compiles a monitor to a plan, has workers run clients on it in threads, and prints the plan and
//! the log. `check` prints a monitor's canonical form, `turns` a run by rounds of the implicit
//! machine, `compile` the plan alone: whom each block wakes; `simulate` runs the clients by a
//! schedule in place of threads, `stress` runs a large input, and `block` has a caller for each
//! client run it in place of workers. `report` prints the plan with a certificate of each claim
//! that it rests on, and `recheck` checks such a text without the prover. `audit` says whether a
//! plan that was written by hand is lawful, with `--count` also by counting, or what it lacks, then
//! with a state that shows why. `explain` prints a plan, with `--count` the counted one, with a
//! state that shows why each thing stands in it that costs something. `emit` prints a monitor under
//! the counted plan as a module of Rust, for threads of any program to call. `--version` prints the
//! program's name and version.
//!
//! `--relay` asks for the plan with its signals relayed, and `--count` for the counted plan; of
//! both the placed and the counted one `report` prints the certificates.
//!
//! Its clause `headline` is `specs/Headline`: what `run` and `block` promise. `specs/ProgramEnds`
//! says what every call promises; of `expresso_answers`, `specs/Answers` says what each command
//! prints, and `specs/Exit` which number stands for a [`Status`]. [`without_threads`] does what
//! needs no threads, with no runtime: so it returns. What runs clients is done by `expresso_runs`,
//! and what certifies, judges and explains plans by `expresso_reports`. The laws say that bytes
//! stand for one monitor and one list of clients, that a schedule has one simulation, that no
//! wake-up is lost under what `recheck` accepts or `audit` calls lawful, and, of a monitor none of
//! whose claims is hard, that a simulation has one text, that `report` prints the certificates of
//! the plan of a run, and that `recheck` accepts them.
#![tactic(auto)]

mod check;
mod compile;
mod emit;
mod laws;
mod program;
mod text;
mod version;
mod work;

pub use expresso_answers::{Status, accepts_one_client_list, accepts_one_monitor, exit_status};
pub use expresso_reports::{
    checked_plans_lose_no_wakeup, printed_counted_reports_are_rechecked,
    printed_fits_are_rechecked, printed_reports_are_rechecked,
};
pub use expresso_runs::{one_simulated_text, one_simulation};
pub use laws::runs_are_reported;
pub use program::{expresso, without_threads};
