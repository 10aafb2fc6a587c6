//! Why what a finding names has no certificate.
//!
//! [`finding_failure`] finds a valuation at which the triple fails that would have to be valid for
//! the claim or the question of a finding (`specs/FindingFailures`), and [`write_failing_finding`]
//! writes the line of the finding and then that one, in the words of reasons
//! (`specs/FailureText`).
#![tactic(auto)]

mod failing;
mod kept;
mod writing;

pub use failing::finding_failure;
pub use writing::write_failing_finding;
