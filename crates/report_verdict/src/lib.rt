//! Reports and their check, with no prover: a plan with a certificate for each claim that it rests
//! on (`specs/Reports`).
//!
//! [`recheck`] says whether the plan of a [`Report`] is lawful by its certificates alone, and which
//! claim is the first that is not proved there (`specs/Verdicts`); [`report_of`] makes the report
//! of a plan that was placed. The parts of the check serve the crates above too. The certificates
//! of a report are kept as lists, so how deep they nest is of no concern.
#![tactic(auto)]

mod checking;
mod claims;
mod making;
mod report;
mod sight;

pub use checking::{first_open, line_of, recheck};
pub use claims::{claims_of, has_note};
pub use making::report_of;
pub use report::{Report, Verdict};
pub use sight::is_lawful_at_sight;
