//! Failures of queries that tie a place to a form.
//!
//! A query on a counted condition speaks of what a form was worth before the block, at a place of
//! its own that two hypotheses tie to the form, or to the form with its sign turned
//! (`machine_events`, `specs/CountClaims`). With the form in that place the rows have one variable
//! less, so more of them are difference rows.

ghost use Rattle.std.specs.Prelude.{◌≡◌, ◌<◌, IfOk, IfSome, length};
ghost use Rattle.logic_linear.specs.Truth.{value_of};
ghost use Rattle.logic_solve.specs.Solutions.{valuation_of};
ghost use Rattle.logic_wp.specs.NegatedQueries.{negated_query};
ghost use Rattle.plan_why.specs.Failures.{IsFailure};
ghost use Rattle.plan_why.specs.inner.Running.{with_number};

use super::failing::Failure;
use super::running::{after_body, with_number};
use lang_monitor::{Monitor, Query};
use logic_linear::{Formula, Lin, Put, substitute, substitution_keeps_truth};
use logic_solve::{Solution, form_value, solution};
use logic_wp::negated_query_is_exact;
use std::alloc::{AllocError, Global};

/// The place of what the form was worth.
const OLD: u32 = 32;

/// The form, where the row says that it is at most what stands at the place.
fn form_in(alloc: Global, row: &Lin) -> Result<Option<Lin>, AllocError> {
    let constant = row.constant();
    let mut terms = Vec::from_slice(alloc, row.terms())?;
    let Some(last) = terms.pop() else {
        return Ok(None);
    };
    if last.place != OLD || last.times != -1 {
        return Ok(None);
    }
    Ok(Some(Lin::of(terms, constant)))
}

/// The same of a hypothesis.
fn form_of(alloc: Global, hyp: &Formula) -> Result<Option<Lin>, AllocError> {
    match hyp {
        Formula::Row(row) => form_in(alloc, row),
        Formula::Flag { .. } => Ok(None),
        Formula::All(_) => Ok(None),
        Formula::Any(_) => Ok(None),
    }
}

/// The form that the last two hypotheses tie to the place: the one or the other says that it is at
/// most what stands there.
fn tied_form(alloc: Global, hyps: &[Formula]) -> Result<Option<Lin>, AllocError> {
    if hyps.len() < 2 {
        return Ok(None);
    }
    match form_of(alloc, &hyps[hyps.len() - 2])? {
        Some(form) => Ok(Some(form)),
        None => form_of(alloc, &hyps[hyps.len() - 1]),
    }
}

/// The solution with what the form is worth at that place, where it fits.
fn with_value(alloc: Global, form: &Lin, at: &Solution) -> Result<Option<Solution>, AllocError>
    ensures { IfOk result (λ put. IfSome put (λ next. valuation_of next
        ≡ with_number OLD (value_of (valuation_of at.now) form.now) (valuation_of at.now))) }
{
    match form_value(at, form) {
        None => Ok(None),
        Some(number) => Ok(Some(with_number(alloc, OLD, number, at)?)),
    }
}

/// A failure with the form in that place, where one is found. The formula is the negated query.
fn failure_with(
    alloc: Global,
    monitor: &Monitor,
    query: &Query,
    formula: &Formula,
    form: &Lin,
) -> Result<Option<Failure>, AllocError>
    requires block { query.now.block < length monitor.now.blocks }
    requires formula { formula.now ≡ negated_query monitor.now query.now }
    ensures { IfOk result (λ found. IfSome found (IsFailure monitor.now query.now)) }
{
    negated_query_is_exact();
    substitution_keeps_truth();
    let put = Put::Number {
        place: OLD,
        form: form.clone()?,
    };
    let Some(tied) = substitute(alloc, formula, &put)? else {
        return Ok(None);
    };
    let Some(at) = solution(alloc, &tied)? else {
        return Ok(None);
    };
    let Some(before) = with_value(alloc, form, &at)? else {
        return Ok(None);
    };
    let held = &monitor.blocks()[query.block as usize];
    let after = after_body(alloc, &before, held.body.items())?;
    Ok(Some(Failure { before, after }))
}

/// A failure of a query that ties a place to a form, where one is found with the form in that
/// place. The formula is the negated query.
pub(crate) fn tied_failure(
    alloc: Global,
    monitor: &Monitor,
    query: &Query,
    formula: &Formula,
) -> Result<Option<Failure>, AllocError>
    requires block { query.now.block < length monitor.now.blocks }
    requires formula { formula.now ≡ negated_query monitor.now query.now }
    ensures { IfOk result (λ found. IfSome found (IsFailure monitor.now query.now)) }
{
    match tied_form(alloc, query.hyps.items())? {
        None => Ok(None),
        Some(form) => Ok(failure_with(alloc, monitor, query, formula, &form)?),
    }
}
