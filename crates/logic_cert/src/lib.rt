//! Certificates that a formula is true at no valuation.
//!
//! A [`Cert`] refutes a formula as `specs/Refutes` says, [`accepts`] tells exactly whether it does,
//! and what is refuted is true nowhere (`laws`). [`WideRow`] and [`sum_of_rows`] make the rows of a
//! chain, [`upper_row`] that of the upper side of cases, and [`print_cert`] writes a certificate's
//! text (`specs/CertText`).
#![tactic(auto)]

mod acceptance;
mod cert;
mod closing;
mod laws;
mod printing;
mod rows;
mod wide_row;

pub use acceptance::accepts;
pub use cert::{Cert, Combine, Literal};
pub use closing::are_opposite;
pub use laws::refuted_formula_is_false;
pub use printing::print_cert;
pub use rows::{sum_of_rows, upper_row};
pub use wide_row::WideRow;
