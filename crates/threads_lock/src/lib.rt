//! The running lock: a monitor that threads share in the order of their tickets.
//!
//! A [`SharedMonitor`] keeps a [`FreeMonitor`](machine_explicit::FreeMonitor) behind a ticket lock.
//! Each thread has a [`Pass`] of its own. A section is made by whoever has the turn, and gives a
//! [`Receipt`]; a pass that waits, for a section or a look, lends its seat, and whoever has the
//! monitor does that with it (`src/lending.rt`). How long the log is can be observed with no wait.
//! A pass can be lent by a [`Berth`] while its caller rests (`src/berth.rt`). A [`Gate`] is what
//! threads that share it may call ahead of sections. Definitions: `specs/Growth` and `specs/Passes`
//! (what a pass knows, and what each call does), `specs/Standings` (how a client stands),
//! `specs/Loans` (a pass that is lent), `specs/Closing` (what stands in the log at the end);
//! `specs/inner/Queueing` (the rule between any two steps).
#![tactic(auto)]

mod bell;
mod berth;
mod ends;
mod found;
mod gate;
mod lending;
mod lent;
mod loan;
mod lock;
mod pass;
mod patience;
mod receipt;
mod rule;
mod shared;
mod standing;
mod view;

pub use gate::{Gate, OpenGate};
pub use loan::{Berth, Kept, LoanEnd, Repayment, Rest, Vacancy};
pub use pass::Pass;
pub use receipt::Receipt;
pub use shared::SharedMonitor;
pub use standing::Standing;
pub use view::Knowledge;
