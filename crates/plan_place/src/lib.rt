//! Plans with certificates.
//!
//! [`place`] keeps an invariant, gives each condition a kind and each block its notes, and hands
//! out a certificate for each claim that the plan rests on. Every plan is lawful; that of a monitor
//! without a hard claim is exact, and that of any other falls short of exact only where a query may
//! stay open under what it keeps (`specs/Exact`: exact and licensed plans). That a monitor has one
//! exact plan is a law. [`relay`] gives the relayed plan, under which a section wakes one at most
//! of those who wait on a condition that reads no inputs (`specs/Relayed`).
#![tactic(auto)]

mod asking;
mod kinds;
mod laws;
mod notes;
mod parts;
mod placement;
mod relaying;

pub use laws::{one_exact_plan, relayed_plans_are_lawful, relayed_sections_wake_one};
pub use parts::is_broadcast_at;
pub use placement::place;
pub use relaying::relay;
