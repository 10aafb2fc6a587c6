//! What the emitted code does with blocks that fit 64 bits: laws alone.
//!
//! Where the start and the arguments of all calls are within 64 bits, so are the fields and locals
//! at each moment of each execution; and there, under a plan that is lawful by counting, no block
//! that fits under what the plan keeps (`plan_fits`, `specs/Fits`) overflows, so no call of such
//! blocks alone. Definitions: `specs/Laws`. The laws are functions of `laws`: this crate has no
//! code of its own.
#![tactic(auto)]

mod laws;

pub use laws::{fitting_blocks_never_overflow, moments_stay_in_64};
