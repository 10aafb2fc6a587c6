//! What an audit says.

use lang_monitor::Claim;
use plan_count::Question;

/// What an audit says of a plan.
#[derive(Clone, Copy, Debug, PartialEq, Eq)]
pub enum Finding {
    /// It is lawful, or where signals may be counted, lawful by counting.
    Lawful,
    /// The kept candidate at this place, counted from 0, is the first that is false at some start.
    Start { kept: u32 },
    /// The kind of this condition, numbered from 1, or a note on it doesn't suit it; it is the
    /// first such one.
    Kind { condition: u32 },
    /// The claim is the first for which no certificate is found.
    Unproved { claim: Claim },
    /// The question is the first by the first row for which no certificate is found, of the first
    /// condition of kind signal that is neither passed on nor counted by a row that is tried.
    Uncounted { question: Question },
}
