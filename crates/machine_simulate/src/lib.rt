//! Schedules of a monitor that runs by sections: by rounds, and drawn from the words of a
//! generator.
//!
//! Both run a [`FreeMonitor`](machine_explicit::FreeMonitor) until it is closed, and take no
//! memory. Definitions: `specs/Schedules`. A schedule has one log: the laws are functions of
//! `laws`.
#![tactic(auto)]

mod acting;
mod by_rounds;
mod draws;
mod laws;
mod picking;

pub use by_rounds::rounds;
pub use draws::drawn;
pub use laws::{one_drawn_log, one_log_by_rounds};
