//! Counted plans: as a placed plan, but a condition of kind broadcast that may be counted is of
//! kind signal.
//!
//! [`count_plan`] asks the prover the questions of `plan_count` on each such condition, row of its
//! guard and block, and hands out a certificate for each answer on which the counted plan rests. It
//! is lawful by counting, and falls short of counting what may be counted by one of the first
//! [`ROWS_TRIED`] rows, of the one with the fewest broadcasts, and of the fewest notes by it, only
//! where a query may stay open. Definitions:
//! `specs/Counted`, and `specs/Exact` (exactly counted plans, which they are where no question may
//! stay open: [`counted_plans_are_exact`]). [`relay_uncounted`] gives the counted plan with the
//! signals relayed on each condition that is not counted (`specs/CountedAndRelayed`); it is lawful
//! since a plan is that has on each condition what one of two lawful plans has (`specs/Mixed`).
#![tactic(auto)]

mod asking;
mod columns;
mod counted;
mod laws;
mod placing;
mod relaying;

pub use counted::{Column, CountedPlan, ROWS_TRIED, Told};
pub use laws::{counted_plans_are_exact, counted_plans_omit_no_more, mixed_plans_are_lawful};
pub use placing::count_plan;
pub use relaying::relay_uncounted;
