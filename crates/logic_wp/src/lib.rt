//! Paths of bodies, and negated queries.
//!
//! A query asks whether a formula is true after a block's body wherever some hypotheses are true
//! before it. [`keeps`], [`none_needed`], [`one_enough`] and [`no_test`] make the query of each
//! claim on which a plan rests, and [`claim_query`] that of any claim. [`paths_of`] lists the paths
//! of a body (`specs/Paths`), and [`negated`] makes, within limits (`specs/Limits`, which also says
//! how many places queries have), the formula that is true exactly where a query's triple fails
//! (`specs/NegatedQueries`, `laws`). Which queries are within a prover's limits, and which claims a
//! monitor has: `specs/PlainClaims`. Candidates that have a formula: `specs/Expressible`.
#![tactic(auto)]

mod backward;
mod candidates;
mod laws;
mod makers;
mod path;
mod pathing;
mod queries;
mod ranges;
mod step;
mod triples;
mod waiting;

pub use laws::{
    candidates_are_expressible, fewer_kept_are_no_harder, guard_without_inputs_stays,
    more_kept_leave_valid, negated_query_is_exact, paths_are_counted, refuted_query_is_valid,
    satisfied_query_is_invalid,
};
pub use makers::{claim_query, keeps, no_test, none_needed, one_enough};
pub use path::Path;
pub use queries::{negated, paths_of};
pub use step::Step;
