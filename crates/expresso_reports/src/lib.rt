//! The commands that certify, judge and explain plans.
//!
//! `report` prints the plan of a monitor with a certificate of each claim that it rests on
//! ([`report_file`], with `--fits` [`report_fits`]), and `recheck` checks such a text without the
//! prover ([`recheck_files`]). `audit` says whether a plan that was written by hand is lawful, with
//! `--count` also by counting, or what it lacks, then with a state that shows why
//! ([`audit_files`]). `explain` prints a plan, with `--count` the counted one, with a state that
//! shows why each thing stands in it that costs something ([`explain_file`],
//! [`explain_counted_file`], with `--fits` [`explain_fits`]).
//!
//! Each call ends as `CommandEnds` of `expresso_answers` says of its command. The laws of `laws`
//! say that no wake-up is lost under what `recheck` accepts or `audit` calls lawful, and that
//! `recheck` accepts what `report` printed of a monitor none of whose claims is hard.
#![tactic(auto)]

mod audit;
mod explain;
mod fits;
mod fits_text;
mod laws;
mod recheck;
mod report;
mod text;

pub use audit::audit_files;
pub use explain::{explain_counted_file, explain_file};
pub use fits::{explain_fits, report_fits};
pub use laws::{
    checked_plans_lose_no_wakeup, printed_counted_reports_are_rechecked,
    printed_fits_are_rechecked, printed_reports_are_rechecked,
};
pub use recheck::recheck_files;
pub use report::report_file;
