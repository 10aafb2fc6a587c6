//! The candidates of monitors, with no prover: what may be kept of a monitor's fields.
//!
//! [`candidates`] lists those of a monitor, [`are_true_at_start`] says of some whether each is true
//! at the start, whatever the monitor is opened with, [`is_true_at_start`] says it of one, and
//! [`true_at_start`] gives all that are (`specs/TrueAtStart`). [`false_start`] finds values to open
//! the monitor with at which one is false (`specs/FalseStarts`). That blocks keep candidates is a
//! list of claims (`specs/Claims`), and [`candidates_have_formulas`] says that each may be asked.
#![tactic(auto)]

mod bounds;
mod edges;
mod listing;
mod pool;
mod ranges;
mod starts;

pub use edges::false_start;
pub use listing::candidates;
pub use starts::{
    are_true_at_start, candidates_have_formulas, is_true_at_start, read_starts, true_at_start,
};
