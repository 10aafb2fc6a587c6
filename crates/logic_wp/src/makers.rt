//! The query of each claim: [`claim_query`] for any of them, and a maker for each kind.

ghost use Rattle.std.specs.Prelude.{◌≡◌, ◌<◌, ◌≤◌, IfOk, IsTrue, true, length, [], ◌∷◌};
ghost use Rattle.std.specs.List.{list_all};
ghost use Rattle.logic_linear.specs.Negation.{can_negate, negation};
ghost use Rattle.lang_monitor.specs.Queries.{block_guard, hypotheses, keeps_query, no_test_query};
ghost use Rattle.lang_monitor.specs.Queries.{none_needed_query, one_enough_query, query_of};
ghost use Rattle.logic_wp.specs.Expressible.{is_expressible};
ghost use Rattle.logic_wp.specs.PlainClaims.{MayAsk};

use super::candidates::{formula_of, formulas_of};
use super::waiting::waiting_guard;
use base_list::Seq;
use lang_monitor::{Candidate, Claim, Monitor, Query};
use logic_linear::{Formula, copy_formula, negate};
use std::alloc::{AllocError, Global};

fn block_guard(alloc: Global, monitor: &Monitor, block: u32) -> Result<Formula, AllocError>
    requires { block < length monitor.now.blocks }
    ensures { IfOk result (λ guard. guard ≡ block_guard monitor.now block) }
{
    copy_formula(alloc, &monitor.blocks()[block as usize].guard)
}

/// The hypotheses where the condition's guard, as a client that waits has it, is false before the
/// block.
fn idle_hypotheses(
    alloc: Global,
    monitor: &Monitor,
    kept: &[Candidate],
    block: u32,
    guard: &Formula,
) -> Result<Vec<Formula>, AllocError>
    requires kept { list_all is_expressible kept.now ≡ true }
    requires block { block < length monitor.now.blocks }
    requires guard { IsTrue (can_negate guard.now) }
    ensures { IfOk result (λ hyps. hyps.items
        ≡ hypotheses kept.now (block_guard monitor.now block ∷ negation guard.now ∷ [])) }
{
    let mut hyps = formulas_of(alloc, kept)?;
    hyps.push(block_guard(alloc, monitor, block)?)?;
    hyps.push(negate(alloc, guard)?)?;
    Ok(hyps)
}

/// The query whether the block keeps the candidate: the kept candidates and the block's guard are
/// its hypotheses. The block is a number from 0. It fails only for want of memory.
pub fn keeps(
    alloc: Global,
    monitor: &Monitor,
    kept: &[Candidate],
    candidate: Candidate,
    block: u32,
) -> Result<Query, AllocError>
    requires kept { list_all is_expressible kept.now ≡ true }
    requires candidate { is_expressible candidate ≡ true }
    requires block { block < length monitor.now.blocks }
    ensures made { IfOk result (λ it. it ≡ keeps_query monitor.now kept.now candidate block) }
    ensures post { IfOk result (λ it. IsTrue (can_negate it.post)) }
{
    let mut hyps = formulas_of(alloc, kept)?;
    hyps.push(block_guard(alloc, monitor, block)?)?;
    Ok(Query {
        hyps: Seq::of(hyps),
        block,
        post: formula_of(alloc, candidate)?,
    })
}

/// The query whether no note is needed: where the condition's guard is false at the inputs of a
/// client that waits, it is false after the block. The kept candidates, the block's guard and the
/// condition's negated guard are its hypotheses. The block is a number from 0, the condition one
/// from 1. It fails only for want of memory.
pub fn none_needed(
    alloc: Global,
    monitor: &Monitor,
    kept: &[Candidate],
    block: u32,
    condition: u32,
) -> Result<Query, AllocError>
    requires kept { list_all is_expressible kept.now ≡ true }
    requires block { block < length monitor.now.blocks }
    requires first { 1 ≤ condition }
    requires last { condition ≤ length monitor.now.conditions }
    ensures made { IfOk result (λ it. it ≡ none_needed_query monitor.now kept.now block condition) }
    ensures post { IfOk result (λ it. IsTrue (can_negate it.post)) }
{
    let guard = waiting_guard(alloc, monitor, condition)?;
    let hyps = idle_hypotheses(alloc, monitor, kept, block, &guard)?;
    Ok(Query {
        hyps: Seq::of(hyps),
        block,
        post: negate(alloc, &guard)?,
    })
}

/// The query whether one waiter is enough: where the condition's guard is true, it is false after
/// the block. The kept candidates and the condition's guard are its hypotheses. The block is a
/// number from 0, the condition one from 1. It fails only for want of memory.
pub fn one_enough(
    alloc: Global,
    monitor: &Monitor,
    kept: &[Candidate],
    condition: u32,
    block: u32,
) -> Result<Query, AllocError>
    requires kept { list_all is_expressible kept.now ≡ true }
    requires first { 1 ≤ condition }
    requires last { condition ≤ length monitor.now.conditions }
    requires block { block < length monitor.now.blocks }
    ensures made { IfOk result (λ it. it ≡ one_enough_query monitor.now kept.now condition block) }
    ensures post { IfOk result (λ it. IsTrue (can_negate it.post)) }
{
    let guard = waiting_guard(alloc, monitor, condition)?;
    let post = negate(alloc, &guard)?;
    let mut hyps = formulas_of(alloc, kept)?;
    hyps.push(guard)?;
    Ok(Query {
        hyps: Seq::of(hyps),
        block,
        post,
    })
}

/// The query whether no test is needed: where the condition's guard is false, it is true after the
/// block. The kept candidates, the block's guard and the condition's negated guard are its
/// hypotheses. The block is a number from 0, the condition one from 1. It fails only for want of
/// memory.
pub fn no_test(
    alloc: Global,
    monitor: &Monitor,
    kept: &[Candidate],
    block: u32,
    condition: u32,
) -> Result<Query, AllocError>
    requires kept { list_all is_expressible kept.now ≡ true }
    requires block { block < length monitor.now.blocks }
    requires first { 1 ≤ condition }
    requires last { condition ≤ length monitor.now.conditions }
    ensures made { IfOk result (λ it. it ≡ no_test_query monitor.now kept.now block condition) }
    ensures post { IfOk result (λ it. IsTrue (can_negate it.post)) }
{
    let guard = waiting_guard(alloc, monitor, condition)?;
    let hyps = idle_hypotheses(alloc, monitor, kept, block, &guard)?;
    Ok(Query {
        hyps: Seq::of(hyps),
        block,
        post: guard,
    })
}

/// The query of the claim under the kept candidates, as its maker gives it. It fails only for want
/// of memory.
pub fn claim_query(
    alloc: Global,
    monitor: &Monitor,
    kept: &[Candidate],
    claim: Claim,
) -> Result<Query, AllocError>
    requires kept { list_all is_expressible kept.now ≡ true }
    requires claim { MayAsk monitor.now claim }
    ensures made { IfOk result (λ query. query ≡ query_of monitor.now kept.now claim) }
    ensures block { IfOk result (λ query. query.block < length monitor.now.blocks) }
    ensures post { IfOk result (λ query. IsTrue (can_negate query.post)) }
{
    match claim {
        Claim::Keeps { candidate, block } => keeps(alloc, monitor, kept, candidate, block),
        Claim::NoNote { block, condition } => none_needed(alloc, monitor, kept, block, condition),
        Claim::One { condition, block } => one_enough(alloc, monitor, kept, condition, block),
        Claim::NoTest { block, condition } => no_test(alloc, monitor, kept, block, condition),
    }
}
