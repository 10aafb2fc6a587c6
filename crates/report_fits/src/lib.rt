//! Lines of blocks that keep 64 bits, in reports and in what is explained.
//!
//! [`write_fits`] writes a line for each block with a certificate that it fits (`specs/FitTexts`).
//! Of a report's text [`part`] cuts off such lines (`specs/FitParts`), [`read_fits`] reads them
//! again (`specs/FitReadings`), and [`first_open_fit`] checks their certificates without a prover
//! (`specs/FitVerdicts`); [`write_fitting`] says which blocks were accepted. [`fit_reasons`] finds
//! why blocks may leave 64 bits (`specs/FitReasons`), and [`write_fit_reasons`] writes that
//! (`specs/FitReasonTexts`).
#![tactic(auto)]

mod checking;
mod fit;
mod laws;
mod parting;
mod reading;
mod reason_lines;
mod reasons;
mod writing;

pub use checking::first_open_fit;
pub use fit::{Fit, read_fit_numbers};
pub use laws::{one_parting, printed_fits_are_accepted, printed_fits_are_read};
pub use parting::part;
pub use reading::read_fits;
pub use reason_lines::write_fit_reasons;
pub use reasons::{FitReason, fit_reasons};
pub use writing::{write_fits, write_fitting};
