//! The texts of reports: of plans with a certificate for each claim that they rest on.
//!
//! [`write_report`] writes the report of a plan that was placed (`specs/ReportTexts`), and
//! [`write_verdict`] the line of what a check says. [`read_plan`] and [`read_report`] read such
//! texts (`specs/Readings`). A claim that isn't proved is named by its line in the report's text
//! (`specs/Lines`, `laws`). Where no claim of the monitor is hard, what was written of a placed
//! plan is read again as its report, and accepted (`laws`). The parts of a report, read from the
//! front of a text (`specs/Fronts`), serve the crates above too.
#![tactic(auto)]

mod after;
mod conditions;
mod head;
mod kept;
mod laws;
mod notes;
mod plan_reading;
mod ranges;
mod report_reading;
mod writing;

pub use after::after_piece;
pub use laws::{
    easy_reports_are_accepted, placed_text_is_report_text, printed_reports_are_accepted,
    report_lines_are_numbered,
};
pub use plan_reading::{plan_front, read_plan};
pub use ranges::{read_cert_numbers, read_numbers};
pub use report_reading::{read_cert_line, read_proof, read_proofs, read_report};
pub use writing::{
    put_block_name, put_candidate, put_cert, put_claim, put_plan, put_proof, write_claim,
    write_report, write_verdict,
};
