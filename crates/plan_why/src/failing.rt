//! States in which the triple of a query fails.

ghost use Rattle.std.specs.Prelude.{◌≡◌, ◌<◌, ◌≤◌, IfOk, IsTrue, length};
ghost use Rattle.logic_linear.specs.Measures.{nodes_of, MOST_NODES};
ghost use Rattle.logic_linear.specs.Negation.{can_negate};
ghost use Rattle.logic_wp.specs.NegatedQueries.{negated_query};
ghost use Rattle.plan_why.specs.Failures.{IsFailureOf};

use super::running::after_body;
use super::tying::tied_failure;
use lang_monitor::{Monitor, Query};
use logic_linear::Formula;
use logic_solve::{Solution, solution};
use logic_wp::{negated, negated_query_is_exact, refuted_query_is_valid};
use std::alloc::{AllocError, Global};

/// A valuation at which the triple of a query fails, and the one after the body of its block, which
/// is given unless a number on the way leaves 128 bits.
#[derive(Debug, Drop)]
pub struct Failure {
    pub before: Solution,
    pub after: Option<Solution>,
}

/// The failure that a solution of the formula shows, which is the negated query.
fn solved(
    alloc: Global,
    monitor: &Monitor,
    query: &Query,
    formula: &Formula,
) -> Result<Option<Failure>, AllocError>
    requires block { query.now.block < length monitor.now.blocks }
    requires nodes { nodes_of formula.now ≤ MOST_NODES }
    requires formula { formula.now ≡ negated_query monitor.now query.now }
    ensures { IfOk result (IsFailureOf monitor.now query.now) }
{
    negated_query_is_exact();
    refuted_query_is_valid();
    let held = &monitor.blocks()[query.block as usize];
    match solution(alloc, formula)? {
        None => Ok(None),
        Some(before) => {
            let after = after_body(alloc, &before, held.body.items())?;
            Ok(Some(Failure { before, after }))
        }
    }
}

/// A valuation in whole numbers at which the triple of the query fails, by what validity means
/// (`specs/Failures`), where one is found.
///
/// None is found only where the query is valid or not plain: not negated within the limits, or with
/// more than 1,024 cubes or a row that is no difference row. It fails only for want of memory.
pub fn failure_of(
    alloc: Global,
    monitor: &Monitor,
    query: &Query,
) -> Result<Option<Failure>, AllocError>
    requires block { query.now.block < length monitor.now.blocks }
    requires post { IsTrue (can_negate query.now.post) }
    ensures { IfOk result (IsFailureOf monitor.now query.now) }
{
    match negated(alloc, monitor, query)? {
        None => Ok(None),
        Some(formula) => match tied_failure(alloc, monitor, query, &formula)? {
            Some(failure) => Ok(Some(failure)),
            None => Ok(solved(alloc, monitor, query, &formula)?),
        },
    }
}
