//! Reports of counted plans: a plan with a certificate for each claim and each question that it
//! rests on, read from its text and checked without a prover.
//!
//! [`read_counted_report`] reads such a text (`specs/CountedReports`, `specs/CountedReadings`):
//! which conditions are counted shows by the claims that are left out, and by which of its rows one
//! is by its questions. [`recheck_counted`] says whether the plan of a [`CountedReport`] is lawful
//! by counting, by its certificates alone (`specs/CountedVerdicts`). [`write_counted_report`]
//! writes the report of a plan that was placed and then counted (`specs/CountedTexts`).
#![tactic(auto)]

mod answering;
mod checking;
mod finding;
mod laws;
mod numbers;
mod owed;
mod reading;
mod report;
mod writing;

pub use checking::recheck_counted;
pub use laws::{
    counted_text_is_report_text, easy_countings_owe_nothing_open,
    printed_counted_reports_are_accepted, reports_are_uncounted,
};
pub use numbers::read_column_numbers;
pub use reading::read_counted_report;
pub use report::CountedReport;
pub use writing::write_counted_report;
