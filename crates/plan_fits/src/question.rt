//! The question whether a block may leave 64 bits.

ghost use Rattle.std.specs.Prelude.{◌≡◌, ◌<◌, ◌≤◌, IfOk, IfSome, Some, length, map, slice_get};
ghost use Rattle.std.specs.Prelude.{true};
ghost use Rattle.std.specs.List.{list_all};
ghost use Rattle.lang_monitor.specs.Candidates.{AreSomeOf, candidates_of};
ghost use Rattle.logic_linear.specs.Measures.{nodes_of, MOST_NODES};
ghost use Rattle.logic_wp.specs.Expressible.{is_expressible};
ghost use Rattle.logic_wp.specs.Limits.{has_few_nodes, value_if};
ghost use Rattle.logic_wp.specs.NegatedQueries.{query_of_parts};
ghost use Rattle.plan_fits.specs.Outside.{block_question, has_numbers, hyps_of, outside_question};
ghost use Rattle.plan_fits.specs.Within.{is_block_within, is_made_within};

use super::bounds::push_bounds;
use super::numbers::has_numbers;
use super::outside::nowhere;
use super::ways::paths_outside;
use base_list::Seq;
use lang_monitor::{Block, Candidate, Monitor, Query};
use logic_linear::{Formula, MOST_NODES, nodes};
use logic_wp::{keeps, paths_of};
use plan_candidates::candidates_have_formulas;
use std::alloc::{AllocError, Global};

/// The kept candidates, the bounds of 64 bits and the guard.
fn hypotheses(
    alloc: Global,
    monitor: &Monitor,
    kept: &[Candidate],
    number: u32,
    block: &Block,
) -> Result<Seq<Formula>, AllocError>
    requires kept { AreSomeOf kept.now (candidates_of monitor.now) }
    requires block { slice_get monitor.now.blocks number ≡ Some block.now }
    ensures { IfOk result (λ hyps. hyps ≡ hyps_of monitor.now kept.now block.now) }
{
    candidates_have_formulas(monitor);
    let method = &monitor.methods()[block.method as usize];
    let mut all = Vec::from_slice(alloc, kept)?;
    push_bounds(alloc, &mut all, monitor.fields(), method)?;
    // The hypotheses are these whatever the candidate is.
    let some = Candidate::Flag { field: 0, is: true };
    let Query {
        hyps,
        block: _,
        post: _,
    } = keeps(alloc, monitor, &all, some, number)?;
    Ok(hyps)
}

/// Each hypothesis, and some part.
fn question_of_parts(hyps: Seq<Formula>, parts: Seq<Formula>) -> Result<Formula, AllocError>
    ensures { IfOk result (λ made. made ≡ query_of_parts hyps parts) }
{
    let mut all = hyps.into_items();
    all.push(Formula::Any(parts))?;
    Ok(Formula::All(Seq::of(all)))
}

/// The formula, where it has no more than the most nodes.
fn where_few(formula: Formula) -> Option<Formula>
    ensures made { result ≡ value_if (has_few_nodes formula) formula }
    ensures few { IfSome result (λ made. nodes_of made ≤ MOST_NODES) }
{
    if nodes(&formula) <= MOST_NODES {
        Some(formula)
    } else {
        None
    }
}

/// The question of a block that has numbers.
fn full_question(
    alloc: Global,
    monitor: &Monitor,
    kept: &[Candidate],
    number: u32,
    block: &Block,
) -> Result<Option<Formula>, AllocError>
    requires kept { AreSomeOf kept.now (candidates_of monitor.now) }
    requires block { slice_get monitor.now.blocks number ≡ Some block.now }
    requires numbers { has_numbers block.now ≡ true }
    ensures made { IfOk result (λ made.
        made ≡ value_if (is_block_within monitor.now kept.now block.now)
        (block_question monitor.now kept.now block.now)) }
    ensures few { IfOk result (λ answer. IfSome answer (λ made. nodes_of made ≤ MOST_NODES)) }
{
    let Some(paths) = paths_of(alloc, monitor, number)? else {
        return Ok(None);
    };
    let Some(parts) = paths_outside(alloc, &block.result, paths.items())? else {
        return Ok(None);
    };
    let hyps = hypotheses(alloc, monitor, kept, number, block)?;
    Ok(where_few(question_of_parts(hyps, parts)?))
}

/// The question of a block, which is a number from 0: the formula that is true exactly where the
/// kept candidates and the guard are true, all fields, arguments and locals are within 64 bits, and
/// the block assigns on the way, or answers, a number that is not. Of a block that assigns and
/// answers no number it is true nowhere.
///
/// It is made along each path from its end, as in the weakest precondition of a negated post
/// formula, where each assignment of a number adds that this one is outside 64 bits. It is none
/// exactly where the body has more than 64 paths, a formula that an assignment makes on the way has
/// a number outside 96 bits or more than [`MOST_NODES`] nodes, a form that is assigned or answered
/// has a constant beyond 2^94 or a number of times that can't be turned in 96 bits, or the whole
/// has more than those nodes (`specs/Within`). It fails only for want of memory.
pub fn outside_question(
    alloc: Global,
    monitor: &Monitor,
    kept: &[Candidate],
    block: u32,
) -> Result<Option<Formula>, AllocError>
    requires kept { AreSomeOf kept.now (candidates_of monitor.now) }
    requires block { block < length monitor.now.blocks }
    ensures made { IfOk result (λ made. made ≡ value_if (is_made_within monitor.now kept.now block)
        (outside_question monitor.now kept.now block)) }
    ensures few { IfOk result (λ answer. IfSome answer (λ made. nodes_of made ≤ MOST_NODES)) }
{
    let held = &monitor.blocks()[block as usize];
    if has_numbers(held) {
        Ok(full_question(alloc, monitor, kept, block, held)?)
    } else {
        Ok(Some(nowhere(alloc)))
    }
}
