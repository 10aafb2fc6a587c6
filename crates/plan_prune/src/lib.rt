//! Invariants of monitors, in the manner of Cormac Flanagan and K. Rustan M. Leino, "Houdini, an
//! Annotation Assistant for ESC/Java" (2001): of all candidates those are dropped that are false at
//! the start, then in rounds those that some block does not keep under the others, until each block
//! keeps each.
//!
//! [`certificate_of`] decides a query, and [`invariant`] sifts the candidates of a monitor one
//! after the other, and prunes what is left in rounds, with a certificate for each that is kept and
//! each block (`specs/Invariants`). Which queries may stay open, which claims are hard and which
//! monitors are small: `specs/Hardness`.
#![tactic(auto)]

mod certificate;
mod grounds;
mod kept;
mod laws;
mod pruning;
mod rounds;
mod sifting;

pub use certificate::certificate_of;
pub use kept::{Invariant, Kept};
pub use laws::{easy_monitors_have_no_open_claim, open_claims_are_hard, plain_claims_are_not_hard};
pub use pruning::invariant;
