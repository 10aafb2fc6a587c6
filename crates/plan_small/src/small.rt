//! Which monitors are small.

ghost use Rattle.std.specs.Prelude.{◌≡◌, ◌&&◌, ◌↔◌, IfOk, IsTrue, length};
ghost use Rattle.logic_linear.specs.Differences.{has_difference_rows};
ghost use Rattle.lang_monitor.specs.Candidates.{candidates_of};
ghost use Rattle.lang_monitor.specs.Queries.{query_of};
ghost use Rattle.logic_wp.specs.PlainClaims.{has_few_cubes, is_plain, IsBlockNumber};
ghost use Rattle.logic_wp.specs.PlainClaims.{IsConditionNumber, MayAsk};
ghost use Rattle.plan_prune.specs.Hardness.{IsSmall};
ghost use Rattle.plan_small.specs.Plain.{IsPlain};
ghost use Rattle.plan_small.specs.inner.Smallness.{AreCandidates, ArePlainBelow, ArePlainToKeep};
ghost use Rattle.plan_small.specs.inner.Smallness.{IsPlainBlock, IsPlainPair};

use super::simple::{are_simple_blocks, has_difference_rows};
use lang_monitor::{Candidate, Claim, Monitor};
use logic_linear::{Formula, MOST_CUBES, cubes};
use logic_wp::{claim_query, negated};
use plan_candidates::{candidates, candidates_have_formulas};
use plan_prune::plain_claims_are_not_hard;
use std::alloc::{AllocError, Global};

/// Whether the formula has few cubes, and difference rows alone.
fn is_plain_formula(formula: &Formula) -> bool
    ensures { result ≡ (has_few_cubes formula.now && has_difference_rows formula.now) }
{
    cubes(formula) <= MOST_CUBES && has_difference_rows(formula)
}

/// Whether the query of the claim is negated within the limits, to a formula of difference rows
/// alone.
fn is_plain(
    alloc: Global,
    monitor: &Monitor,
    all: &[Candidate],
    claim: Claim,
) -> Result<bool, AllocError>
    requires all { AreCandidates monitor.now all.now }
    requires claim { MayAsk monitor.now claim }
    ensures { IfOk result (λ answer. answer
        ≡ is_plain monitor.now (query_of monitor.now (candidates_of monitor.now) claim)) }
{
    let query = claim_query(alloc, monitor, all, claim)?;
    match negated(alloc, monitor, &query)? {
        None => Ok(false),
        Some(formula) => Ok(is_plain_formula(&formula)),
    }
}

/// Whether the claims that the block keeps the candidates are plain.
fn are_plain_to_keep(
    alloc: Global,
    monitor: &Monitor,
    all: &[Candidate],
    block: u32,
) -> Result<bool, AllocError>
    requires all { AreCandidates monitor.now all.now }
    requires block { IsBlockNumber monitor.now block }
    ensures { IfOk result (λ answer. IsTrue answer ↔ ArePlainToKeep monitor.now block all.now) }
{
    for candidate in all {
        let claim = Claim::Keeps {
            candidate: *candidate,
            block,
        };
        let plain = is_plain(alloc, monitor, all, claim)?;
        if !plain {
            return Ok(false);
        }
    }
    Ok(true)
}

/// Whether the claims of the block and the condition are plain.
fn is_plain_pair(
    alloc: Global,
    monitor: &Monitor,
    all: &[Candidate],
    block: u32,
    condition: u32,
) -> Result<bool, AllocError>
    requires all { AreCandidates monitor.now all.now }
    requires block { IsBlockNumber monitor.now block }
    requires condition { IsConditionNumber monitor.now condition }
    ensures { IfOk result (λ answer. IsTrue answer ↔ IsPlainPair monitor.now block condition) }
{
    let unnoted = is_plain(alloc, monitor, all, Claim::NoNote { block, condition })?;
    if !unnoted {
        return Ok(false);
    }
    if monitor.conditions()[condition as usize - 1].reads_inputs {
        return Ok(true);
    }
    let untested = is_plain(alloc, monitor, all, Claim::NoTest { block, condition })?;
    if !untested {
        return Ok(false);
    }
    if monitor.blocks()[block as usize].condition != condition {
        return Ok(true);
    }
    is_plain(alloc, monitor, all, Claim::One { condition, block })
}

/// Whether the claims of the block are plain.
fn is_plain_block(
    alloc: Global,
    monitor: &Monitor,
    all: &[Candidate],
    block: u32,
) -> Result<bool, AllocError>
    requires all { AreCandidates monitor.now all.now }
    requires block { IsBlockNumber monitor.now block }
    ensures { IfOk result (λ answer. IsTrue answer ↔ IsPlainBlock monitor.now block) }
{
    let kept = are_plain_to_keep(alloc, monitor, all, block)?;
    if !kept {
        return Ok(false);
    }
    for index in 0..monitor.conditions().len() {
        let plain = is_plain_pair(alloc, monitor, all, block, index as u32 + 1)?;
        if !plain {
            return Ok(false);
        }
    }
    Ok(true)
}

/// Whether those of each block are.
fn are_plain_blocks(alloc: Global, monitor: &Monitor, all: &[Candidate]) -> Result<bool, AllocError>
    requires all { AreCandidates monitor.now all.now }
    ensures { IfOk result (λ answer. IsTrue answer
        ↔ ArePlainBelow monitor.now (length monitor.now.blocks)) }
{
    for block in 0..monitor.blocks().len() {
        let plain = is_plain_block(alloc, monitor, all, block as u32)?;
        if !plain {
            return Ok(false);
        }
    }
    Ok(true)
}

/// Whether the monitor is told to be small, so that its plan is exact. It is exactly where all
/// blocks are simple, and the query of each claim that is asked of it is negated, with all
/// candidates kept, within the limits to a formula of few cubes and of difference rows alone. Each
/// small monitor is told so, by `small_monitors_are_plain`. It fails only for want of memory.
pub fn is_small(alloc: Global, monitor: &Monitor) -> Result<bool, AllocError>
    ensures plain { IfOk result (λ answer. IsTrue answer ↔ IsPlain monitor.now) }
    ensures small { IfOk result (λ answer. IsTrue answer → IsSmall monitor.now) }
{
    plain_claims_are_not_hard(); // `small` follows from `plain`
    candidates_have_formulas(monitor);
    let simple = are_simple_blocks(monitor.blocks());
    if !simple {
        return Ok(false);
    }
    let all = candidates(alloc, monitor)?;
    are_plain_blocks(alloc, monitor, &all)
}
