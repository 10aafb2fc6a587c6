//! The parts of negated queries: what one step makes of one, and the query that they make.

ghost use Rattle.std.specs.Prelude.{◌≡◌, IfOk};
ghost use Rattle.logic_wp.specs.NegatedQueries.{both_of, part_before, query_of_parts};
ghost use Rattle.logic_wp.specs.inner.Choices.{formula_within};

use super::ranges::where_within;
use super::step::Step;
use base_list::Seq;
use logic_linear::{Formula, copy_formula, substitute};
use std::alloc::{AllocError, Global};

fn both_of(alloc: Global, first: &Formula, second: &Formula) -> Result<Formula, AllocError>
    ensures { IfOk result (λ both. both ≡ both_of first.now second.now) }
{
    let mut parts = Vec::new(alloc);
    parts.push(copy_formula(alloc, first)?)?;
    parts.push(copy_formula(alloc, second)?)?;
    Ok(Formula::All(Seq::of(parts)))
}

/// What one more step from the end makes of a part, where that keeps within the limits.
pub(crate) fn stepped(
    alloc: Global,
    step: &Step,
    part: &Formula,
) -> Result<Option<Formula>, AllocError>
    ensures { IfOk result (λ next. next ≡ formula_within (part_before step.now part.now)) }
{
    match step {
        Step::Put(put) => Ok(substitute(alloc, part, put)?),
        Step::Assume(formula) => Ok(where_within(both_of(alloc, formula, part)?)),
    }
}

/// Each hypothesis, and some part.
pub(crate) fn query_of_parts(
    alloc: Global,
    hyps: &[Formula],
    parts: Seq<Formula>,
) -> Result<Formula, AllocError>
    ensures { IfOk result (λ made. made ≡ query_of_parts hyps.now parts) }
{
    let mut all = Vec::new(alloc);
    for hyp in hyps {
        all.push(copy_formula(alloc, hyp)?)?;
    }
    all.push(Formula::Any(parts))?;
    Ok(Formula::All(Seq::of(all)))
}
