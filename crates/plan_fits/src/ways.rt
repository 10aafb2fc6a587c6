//! Along a path to a number outside 64 bits.

ghost use Rattle.std.specs.Prelude.{◌≡◌, ◌∷◌, [], IfOk, map};
ghost use Rattle.std.specs.List.{list_all};
ghost use Rattle.logic_wp.specs.Limits.{value_if};
ghost use Rattle.logic_wp.specs.NegatedQueries.{both_of, part_before};
ghost use Rattle.plan_fits.specs.Outside.{assigns_outside, path_outside};
ghost use Rattle.plan_fits.specs.Within.{is_step_within, is_way_within};

use super::outside::{answers_outside, has_room, outside_64};
use base_list::Seq;
use lang_monitor::Ret;
use logic_linear::{Formula, Put, copy_formula, substitute};
use logic_wp::{Path, Step};
use std::alloc::{AllocError, Global};

fn both_of(alloc: Global, first: &Formula, second: &Formula) -> Result<Formula, AllocError>
    ensures { IfOk result (λ both. both ≡ both_of first.now second.now) }
{
    let mut parts = Vec::new(alloc);
    parts.push(copy_formula(alloc, first)?)?;
    parts.push(copy_formula(alloc, second)?)?;
    Ok(Formula::All(Seq::of(parts)))
}

fn any_of(alloc: Global, first: Formula, second: Formula) -> Result<Formula, AllocError>
    ensures { IfOk result (λ any. any ≡ Formula.Any (first ∷ second ∷ [])) }
{
    let mut parts = Vec::new(alloc);
    parts.push(first)?;
    parts.push(second)?;
    Ok(Formula::Any(Seq::of(parts)))
}

/// Before an assignment: it assigns a number outside 64 bits, or what comes later is so.
fn before_put(alloc: Global, put: &Put, later: &Formula) -> Result<Option<Formula>, AllocError>
    ensures { IfOk result (λ made. made ≡ value_if (is_step_within (Step.Put put.now) later.now)
        (assigns_outside (Step.Put put.now) (part_before (Step.Put put.now) later.now))) }
{
    match put {
        Put::Truth { .. } => Ok(substitute(alloc, later, put)?),
        Put::Number { form, .. } => {
            if !has_room(form) {
                return Ok(None);
            }
            match substitute(alloc, later, put)? {
                None => Ok(None),
                Some(part) => {
                    let here = outside_64(alloc, form)?;
                    Ok(Some(any_of(alloc, here, part)?))
                }
            }
        }
    }
}

/// Before a step.
fn before_step(alloc: Global, step: &Step, later: &Formula) -> Result<Option<Formula>, AllocError>
    ensures { IfOk result (λ made. made ≡ value_if (is_step_within step.now later.now)
        (assigns_outside step.now (part_before step.now later.now))) }
{
    match step {
        Step::Put(put) => Ok(before_put(alloc, put, later)?),
        Step::Assume(formula) => Ok(Some(both_of(alloc, formula, later)?)),
    }
}

/// That the path is taken to a number outside 64 bits, where each step keeps the limits.
fn path_outside(alloc: Global, answer: &Ret, steps: &[Step]) -> Result<Option<Formula>, AllocError>
    ensures { IfOk result (λ made. made
        ≡ value_if (is_way_within answer.now steps.now) (path_outside answer.now steps.now)) }
{
    let Some(mut made) = answers_outside(alloc, answer)? else {
        return Ok(None);
    };
    let mut left = steps.len();
    while left > 0 {
        left -= 1;
        let Some(next) = before_step(alloc, &steps[left], &made)? else {
            return Ok(None);
        };
        made = next;
    }
    Ok(Some(made))
}

/// That of each path, in order.
pub(crate) fn paths_outside(
    alloc: Global,
    answer: &Ret,
    paths: &[Path],
) -> Result<Option<Seq<Formula>>, AllocError>
    ensures { IfOk result (λ made. made ≡ value_if (list_all (is_way_within answer.now) paths.now)
        (map (path_outside answer.now) paths.now)) }
{
    let mut parts = Vec::new(alloc);
    for path in paths {
        let Some(part) = path_outside(alloc, answer, path.steps())? else {
            return Ok(None);
        };
        parts.push(part)?;
    }
    Ok(Some(Seq::of(parts)))
}
