//! Whether the things of a plan are needed.

ghost use Rattle.std.specs.Prelude.{◌≡◌, ◌<◌, All, IfOk, length, map, true};
ghost use Rattle.std.specs.List.{list_all};
ghost use Rattle.machine_events.specs.Plans.{FitsPlan};
ghost use Rattle.logic_wp.specs.Expressible.{is_expressible};
ghost use Rattle.plan_why.specs.Reasons.{IsAnswered, IsReason};
ghost use Rattle.plan_why.specs.Things.{things_of, IsBlockOf, IsThingOf};
ghost use Rattle.plan_why.specs.inner.Answering.{IsAsked, IsBroken};

use super::failing::{Failure, failure_of};
use super::listing::things_of;
use super::reason::{Answer, Reason, Thing, claim_of, is_block_of};
use super::starts::kept_have_formulas;
use lang_monitor::Monitor;
use logic_wp::claim_query;
use machine_events::Plan;
use std::alloc::{AllocError, Global};

/// That the thing is needed after the block, where that is found.
fn broken(
    alloc: Global,
    monitor: &Monitor,
    plan: &Plan,
    thing: Thing,
    block: u32,
) -> Result<Option<Answer>, AllocError>
    requires kept { list_all is_expressible plan.now.kept ≡ true }
    requires thing { IsThingOf monitor.now thing }
    requires block { block < length monitor.now.blocks }
    requires about { IsBlockOf monitor.now thing block }
    ensures { IfOk result (IsBroken monitor.now plan.now thing block) }
{
    let query = claim_query(alloc, monitor, plan.kept.items(), claim_of(thing, block))?;
    match failure_of(alloc, monitor, &query)? {
        None => Ok(None),
        Some(Failure { before, after }) => Ok(Some(Answer::Shown {
            block,
            before,
            after,
        })),
    }
}

/// That the thing is needed after the block, where it is about this block and that is found.
fn answer_at(
    alloc: Global,
    monitor: &Monitor,
    plan: &Plan,
    thing: Thing,
    block: u32,
) -> Result<Option<Answer>, AllocError>
    requires kept { list_all is_expressible plan.now.kept ≡ true }
    requires thing { IsThingOf monitor.now thing }
    requires block { block < length monitor.now.blocks }
    ensures { IfOk result (IsAsked monitor.now plan.now thing block) }
{
    if !is_block_of(thing, block, monitor.blocks()[block as usize].condition) {
        return Ok(None);
    }
    Ok(broken(alloc, monitor, plan, thing, block)?)
}

/// Whether the thing is needed: of the blocks that it is about the first one shows it after which
/// that is found.
fn answer_of(
    alloc: Global,
    monitor: &Monitor,
    plan: &Plan,
    thing: Thing,
) -> Result<Answer, AllocError>
    requires kept { list_all is_expressible plan.now.kept ≡ true }
    requires thing { IsThingOf monitor.now thing }
    ensures { IfOk result (IsAnswered monitor.now plan.now thing) }
{
    for index in 0..monitor.blocks().len() {
        match answer_at(alloc, monitor, plan, thing, index as u32)? {
            None => {}
            Some(answer) => return Ok(answer),
        }
    }
    Ok(Answer::Undecided)
}

/// For each thing of the plan that costs something, in the plan's order, whether it is needed
/// (`specs/Things`).
///
/// A thing that is needed is shown with a valuation in whole numbers at which the triple of the
/// claim fails that would spare it, after a block that the thing is about, by what validity means
/// (`specs/Reasons`). It is undecided only where each claim that would spare it is valid or not
/// plain: not negated within the limits, or with more than 1,024 cubes or a row that is no
/// difference row. It fails only for want of memory.
pub fn reasons(alloc: Global, monitor: &Monitor, plan: &Plan) -> Result<Vec<Reason>, AllocError>
    requires { FitsPlan monitor.now plan.now }
    ensures things { IfOk result (λ reasons.
        map (λ reason. reason.thing) reasons.items ≡ things_of monitor.now plan.now) }
    ensures each { IfOk result (λ reasons. All (IsReason monitor.now plan.now) reasons.items) }
{
    kept_have_formulas(monitor, plan.kept.items());
    let things = things_of(alloc, monitor, plan)?;
    let mut reasons = Vec::new(alloc);
    for index in 0..things.len() {
        let thing = things[index];
        let answer = answer_of(alloc, monitor, plan, thing)?;
        reasons.push(Reason { thing, answer })?;
    }
    Ok(reasons)
}
