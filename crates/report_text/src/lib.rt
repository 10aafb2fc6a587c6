//! The texts that the program prints of runs and of faults, written piece by piece to a sink.
//!
//! [`write_turns`] writes a run by rounds (`specs/TurnsText`), [`write_plan`] a plan
//! (`machine_events`, `specs/PlanText`), [`write_log`] the log of a monitor that ran by sections
//! (`specs/LogText`), [`write_summary`] what sums up such a log (`specs/SummaryText`), and
//! [`write_fault`] the line of a file's fault, with its line and column (`specs/FaultText`). No
//! writer takes memory. Where the sink fails, a proper front of the text was written, and the count
//! of its faults rose. The bytes of a plan and of the log after it name both ([`text_names_log`],
//! `specs/Laws`).
#![tactic(auto)]

mod candidate;
mod ending;
mod fault;
mod laws;
mod log;
mod naming;
mod plan;
mod position;
mod summary;
mod turns;
mod values;

pub use candidate::write_candidate;
pub use fault::{Fault, refusal_bytes, write_fault};
pub use lang_base::{Counted, Refusal, SourceFault};
pub use laws::text_names_log;
pub use log::{are_done, write_log};
pub use naming::write_block_name;
pub use plan::write_plan;
pub use summary::write_summary;
pub use turns::write_turns;
