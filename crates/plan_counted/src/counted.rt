//! What a counted plan is handed out with.

use base_list::Seq;
use logic_cert::Cert;
use machine_events::Plan;

/// What a block has on a condition that is counted, with certificates that this is enough.
#[derive(Debug, Drop)]
pub enum Told {
    /// No note: with none the block leaves the condition counted.
    Nothing { counts: Cert },
    /// A signal: with one the block leaves the condition counted, and where nobody could pass
    /// before, at most one client may.
    Signal { gives: Cert, first: Cert },
    /// A broadcast.
    Broadcast,
}

/// The most rows of a guard that are tried, one after the other. A guard may have thousands of
/// rows, and each may cost a question of each block.
pub const ROWS_TRIED: u32 = 8;

/// How a condition is counted.
#[derive(Debug, Drop)]
pub struct Column {
    /// The number of the row of its guard by which it is counted, from 1 in reading order.
    pub row: u32,
    /// What each block has on it.
    pub told: Seq<Told>,
}

/// A plan, and of each condition how it is counted, or none where it is as it was placed.
#[derive(Debug, Drop)]
pub struct CountedPlan {
    pub plan: Plan,
    pub columns: Seq<Option<Column>>,
}
