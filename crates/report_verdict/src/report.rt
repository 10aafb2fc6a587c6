//! Reports, and what a check says of one.

use base_list::Seq;
use logic_outline::Outline;
use machine_events::Plan;

/// A plan, and a certificate for each claim that it rests on, in the order of the claims.
#[derive(Debug, Drop)]
pub struct Report {
    pub plan: Plan,
    pub proofs: Seq<Outline>,
}

/// What a check says of a report.
#[derive(Clone, Copy, Debug, PartialEq, Eq)]
pub enum Verdict {
    /// The plan is lawful, and each of so many claims is proved.
    Accepted { claims: u64 },
    /// What the plan keeps is false at the start, or its kinds and notes don't suit its conditions.
    Unlawful,
    /// The claim on this line of the report, counted from 1, isn't proved there.
    Unproved { line: u64 },
}
