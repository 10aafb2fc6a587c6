//! Audits of plans, written by hand or not: whether one is lawful, or what it lacks.
//!
//! [`audit`] says so of a plan by asking the prover for each claim on which its being lawful rests
//! (`specs/Findings`), and [`write_finding`] writes the line of what it found
//! (`specs/FindingText`). Where no claim of the monitor is hard, as none of a small one is, a plan
//! is found lawful exactly where it is. [`audit_by_counting`] takes a plan for lawful too whose
//! signals are counted (`specs/CountedFindings`).
#![tactic(auto)]

mod asking;
mod auditing;
mod counting;
mod finding;
mod laws;
mod sight;
mod writing;

pub use auditing::{audit, audit_by_counting};
pub use finding::Finding;
pub use laws::{counted_plans_are_found, lawful_plans_are_found};
pub use writing::write_finding;
