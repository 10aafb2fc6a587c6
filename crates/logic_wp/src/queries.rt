//! The paths of a block, and the negation of a query.

ghost use Rattle.std.specs.Prelude.{◌≡◌, ◌<◌, ◌≤◌, IfOk, IfSome, IsTrue, length};
ghost use Rattle.logic_linear.specs.Negation.{can_negate};
ghost use Rattle.logic_linear.specs.Measures.{nodes_of, MOST_NODES};
ghost use Rattle.logic_wp.specs.Limits.{few_paths, query_within};

use super::backward::parts_of_body;
use super::path::Path;
use super::pathing::paths_of_body;
use super::ranges::has_few_nodes;
use super::triples::query_of_parts;
use base_list::Seq;
use lang_monitor::{MOST_PATHS, Monitor, Query, paths};
use logic_linear::{Formula, MOST_NODES};
use std::alloc::{AllocError, Global};

/// The paths of the body of a block, which is a number from 0. The paths of a statement stand in
/// order, each continued by those of the rest in order; at an `if` those that assume its condition
/// come first. It is none exactly where there are more than [`MOST_PATHS`]. It fails only for want
/// of memory.
pub fn paths_of(
    alloc: Global,
    monitor: &Monitor,
    block: u32,
) -> Result<Option<Seq<Path>>, AllocError>
    requires { block < length monitor.now.blocks }
    ensures { IfOk result (λ paths. paths ≡ few_paths monitor.now block) }
{
    if paths(monitor, block) > MOST_PATHS {
        return Ok(None);
    }
    let body = monitor.blocks()[block as usize].body.items();
    let made = paths_of_body(alloc, body)?;
    Ok(Some(Seq::of(made)))
}

/// The negated query: the formula that is true exactly where each hypothesis is true and the post
/// formula is not after the body of the block. It is the weakest precondition of the negated post
/// formula along each path, as in Edsger W. Dijkstra, "A Discipline of Programming", chapter 4. It
/// is none exactly where the body has more than [`MOST_PATHS`] paths, a formula on the way has a
/// number outside 96 bits or more than [`MOST_NODES`] nodes, or the whole has more than those. It
/// fails only for want of memory.
pub fn negated(
    alloc: Global,
    monitor: &Monitor,
    query: &Query,
) -> Result<Option<Formula>, AllocError>
    requires block { query.now.block < length monitor.now.blocks }
    requires post { IsTrue (can_negate query.now.post) }
    ensures negated { IfOk result (λ formula. formula ≡ query_within monitor.now query.now) }
    ensures few { IfOk result (λ answer. IfSome answer (λ formula. nodes_of formula ≤ MOST_NODES)) }
{
    if paths(monitor, query.block) > MOST_PATHS {
        return Ok(None);
    }
    let body = monitor.blocks()[query.block as usize].body.items();
    let Some(parts) = parts_of_body(alloc, &query.post, body)? else {
        return Ok(None);
    };
    let whole = query_of_parts(alloc, query.hyps.items(), parts)?;
    if has_few_nodes(&whole) {
        Ok(Some(whole))
    } else {
        Ok(None)
    }
}
