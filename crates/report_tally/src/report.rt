//! Reports of counted plans.

use base_list::Seq;
use logic_outline::Outline;
use machine_events::Plan;

/// A plan, by which row of its guard each condition is counted, if it is, and a certificate for
/// each claim and each question that it rests on, in their order. Rows are numbered from 1.
#[derive(Debug, Drop)]
pub struct CountedReport {
    pub plan: Plan,
    pub counted: Seq<Option<u32>>,
    pub proofs: Seq<Outline>,
    pub answers: Seq<Outline>,
}
