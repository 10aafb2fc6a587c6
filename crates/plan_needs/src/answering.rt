//! Whether the things of a counted plan are needed.

ghost use Rattle.std.specs.Prelude.{◌≡◌, ◌<◌, All, IfOk, IfSome, length, map, true};
ghost use Rattle.std.specs.List.{list_all};
ghost use Rattle.machine_events.specs.Plans.{FitsPlan};
ghost use Rattle.logic_wp.specs.Expressible.{is_expressible};
ghost use Rattle.logic_wp.specs.PlainClaims.{IsConditionNumber, ReadsNone};
ghost use Rattle.plan_why.specs.Failures.{IsFailureAmong};
ghost use Rattle.plan_why.specs.Things.{things_of, IsThingOf};
ghost use Rattle.plan_count.specs.Questions.{MayBeAsked};
ghost use Rattle.plan_counted.specs.Counted.{AreBacked};
ghost use Rattle.plan_needs.specs.Needs.{count_queries, kind_queries, note_queries};
ghost use Rattle.plan_needs.specs.Needs.{sparing_queries};
ghost use Rattle.plan_needs.specs.CountedReasons.{IsCountedAnswer, IsCountedReason};
ghost use Rattle.plan_needs.specs.inner.Asked.{IsAskedOf};

use super::asking::{claim_failure, question_failure};
use super::rows::counted_row;
use lang_monitor::{Candidate, Claim, Monitor};
use plan_candidates::candidates_have_formulas;
use plan_count::{Question, has_row};
use plan_counted::CountedPlan;
use plan_why::{Answer, Failure, Reason, Thing, is_block_of, things_of};
use std::alloc::{AllocError, Global};

/// A failure of counting by the row without a note, where the condition is counted and one is
/// found.
fn count_failure(
    alloc: Global,
    monitor: &Monitor,
    kept: &[Candidate],
    row: Option<u32>,
    block: u32,
    condition: u32,
) -> Result<Option<Failure>, AllocError>
    requires kept { list_all is_expressible kept.now ≡ true }
    requires row { IfSome row (λ row. MayBeAsked monitor.now condition row block) }
    ensures { IfOk result (IsFailureAmong monitor.now
        (count_queries monitor.now kept.now row block condition)) }
{
    match row {
        None => Ok(None),
        Some(row) => {
            let question = Question::Counts {
                condition,
                row,
                block,
            };
            Ok(question_failure(alloc, monitor, kept, question)?)
        }
    }
}

/// A failure without the note of the block, where one is found.
fn note_failure(
    alloc: Global,
    monitor: &Monitor,
    kept: &[Candidate],
    row: Option<u32>,
    block: u32,
    condition: u32,
) -> Result<Option<Failure>, AllocError>
    requires kept { list_all is_expressible kept.now ≡ true }
    requires block { block < length monitor.now.blocks }
    requires condition { IsConditionNumber monitor.now condition }
    requires row { IfSome row (λ row. MayBeAsked monitor.now condition row block) }
    ensures { IfOk result (IsFailureAmong monitor.now
        (note_queries monitor.now kept.now row block condition)) }
{
    let claim = Claim::NoNote { block, condition };
    match claim_failure(alloc, monitor, kept, claim)? {
        Some(failure) => Ok(Some(failure)),
        None => Ok(count_failure(alloc, monitor, kept, row, block, condition)?),
    }
}

/// A failure without kind broadcast after the block, where one is found: of counting by the first
/// row of the guard without a note, or of leaving a guard false that has no row.
fn kind_failure(
    alloc: Global,
    monitor: &Monitor,
    kept: &[Candidate],
    condition: u32,
    block: u32,
) -> Result<Option<Failure>, AllocError>
    requires kept { list_all is_expressible kept.now ≡ true }
    requires block { block < length monitor.now.blocks }
    requires condition { ReadsNone monitor.now condition }
    ensures { IfOk result (IsFailureAmong monitor.now
        (kind_queries monitor.now kept.now condition block)) }
{
    let has_row = has_row(monitor, condition, 1);
    if !has_row {
        let claim = Claim::One { condition, block };
        return Ok(claim_failure(alloc, monitor, kept, claim)?);
    }
    let question = Question::Counts {
        condition,
        row: 1,
        block,
    };
    Ok(question_failure(alloc, monitor, kept, question)?)
}

/// A failure without the thing after the block, where one is found.
fn failure_at(
    alloc: Global,
    monitor: &Monitor,
    counted: &CountedPlan,
    thing: Thing,
    block: u32,
) -> Result<Option<Failure>, AllocError>
    requires kept { list_all is_expressible counted.now.plan.kept ≡ true }
    requires backed { AreBacked monitor.now counted.now.plan counted.now.columns }
    requires thing { IsThingOf monitor.now thing }
    requires block { block < length monitor.now.blocks }
    ensures { IfOk result (IsFailureAmong monitor.now
        (sparing_queries monitor.now counted.now thing block)) }
{
    let kept = counted.plan.kept.items();
    match thing {
        Thing::Note { condition, .. } => {
            let row = counted_row(counted.columns.items(), condition);
            Ok(note_failure(alloc, monitor, kept, row, block, condition)?)
        }
        Thing::Broadcast { condition } => {
            Ok(kind_failure(alloc, monitor, kept, condition, block)?)
        }
        Thing::Test { condition, .. } => {
            let claim = Claim::NoTest { block, condition };
            Ok(claim_failure(alloc, monitor, kept, claim)?)
        }
    }
}

/// That the thing is needed after the block, where it is about this block and that is found.
fn answer_at(
    alloc: Global,
    monitor: &Monitor,
    counted: &CountedPlan,
    thing: Thing,
    block: u32,
) -> Result<Option<Answer>, AllocError>
    requires kept { list_all is_expressible counted.now.plan.kept ≡ true }
    requires backed { AreBacked monitor.now counted.now.plan counted.now.columns }
    requires thing { IsThingOf monitor.now thing }
    requires block { block < length monitor.now.blocks }
    ensures { IfOk result (IsAskedOf monitor.now counted.now thing block) }
{
    if !is_block_of(thing, block, monitor.blocks()[block as usize].condition) {
        return Ok(None);
    }
    match failure_at(alloc, monitor, counted, thing, block)? {
        None => Ok(None),
        Some(Failure { before, after }) => Ok(Some(Answer::Shown {
            block,
            before,
            after,
        })),
    }
}

/// Whether the thing is needed: of the blocks that it is about the first one shows it after which
/// that is found.
fn answer_of(
    alloc: Global,
    monitor: &Monitor,
    counted: &CountedPlan,
    thing: Thing,
) -> Result<Answer, AllocError>
    requires kept { list_all is_expressible counted.now.plan.kept ≡ true }
    requires backed { AreBacked monitor.now counted.now.plan counted.now.columns }
    requires thing { IsThingOf monitor.now thing }
    ensures { IfOk result (IsCountedAnswer monitor.now counted.now thing) }
{
    for index in 0..monitor.blocks().len() {
        match answer_at(alloc, monitor, counted, thing, index as u32)? {
            None => {}
            Some(answer) => return Ok(answer),
        }
    }
    Ok(Answer::Undecided)
}

/// For each thing of the counted plan that costs something, in the plan's order, whether it is
/// needed.
///
/// A note on a condition that is counted by a row of its guard is spared where its block makes the
/// guard true for no client that waits, and leaves the condition counted by that row with none; a
/// condition of kind broadcast, where each block that waits at it leaves it counted with none by
/// the first row of its guard, or leaves the guard false where it has no row. All else is spared as
/// in the placed plan (`specs/Needs`). A thing that is needed is shown with a valuation in whole
/// numbers at which one of these triples fails, after the first block that the thing is about after
/// which that is found. It is undecided only where each of them is valid or not plain
/// (`specs/CountedReasons`). It fails only for want of memory.
pub fn counted_reasons(
    alloc: Global,
    monitor: &Monitor,
    counted: &CountedPlan,
) -> Result<Vec<Reason>, AllocError>
    requires fits { FitsPlan monitor.now counted.now.plan }
    requires backed { AreBacked monitor.now counted.now.plan counted.now.columns }
    ensures things { IfOk result (λ reasons.
        map (λ reason. reason.thing) reasons.items ≡ things_of monitor.now counted.now.plan) }
    ensures each { IfOk result (λ reasons.
        All (IsCountedReason monitor.now counted.now) reasons.items) }
{
    candidates_have_formulas(monitor);
    let things = things_of(alloc, monitor, &counted.plan)?;
    let mut reasons = Vec::new(alloc);
    for index in 0..things.len() {
        let thing = things[index];
        let answer = answer_of(alloc, monitor, counted, thing)?;
        reasons.push(Reason { thing, answer })?;
    }
    Ok(reasons)
}
