//! Conditions of kind signal that are neither passed on nor counted by a row that is tried.

ghost use Rattle.std.specs.Prelude.{◌≡◌, ◌++◌, ◌≤◌, IfOk, OnOk, All, None, Some, true};
ghost use Rattle.std.specs.Prelude.{if◌then◌else◌};
ghost use Rattle.std.specs.List.{list_all};
ghost use Rattle.machine_events.specs.Plans.{has_broadcast, notes_at};
ghost use Rattle.plan_claims.specs.Backing.{backed_claims};
ghost use Rattle.logic_wp.specs.Expressible.{is_expressible};
ghost use Rattle.logic_wp.specs.PlainClaims.{IsConditionNumber, MayAsk, ReadsNone};
ghost use Rattle.plan_count.specs.declared.question.Question.TheVariants.{Counts};
ghost use Rattle.plan_count.specs.Questions.{HasRowAt, MayAskQuestion};
ghost use Rattle.report_verdict.specs.Reports.{IsPlanOf};
ghost use Rattle.report_verdict.specs.Verdicts.{IsLawfulAtSight};
ghost use Rattle.report_audit.specs.CountedFindings.{block_questions, counting_questions};
ghost use Rattle.report_audit.specs.CountedFindings.{block_of, note_questions};
ghost use Rattle.report_audit.specs.inner.Counted.{IsByOthers, IsByRow, IsByRows, IsFirstFound};
ghost use Rattle.report_audit.specs.inner.Counted.{IsFirstUnanswered, IsReply, IsUncountedAt};

use super::asking::{first_unproved, has_note_at, passing_of};
use lang_monitor::{Candidate, Claim, Monitor};
use machine_events::{Note, Plan};
use plan_claims::waits_at;
use plan_count::{Question, has_row, question_query};
use plan_counted::ROWS_TRIED;
use plan_place::is_broadcast_at;
use plan_prune::certificate_of;
use std::alloc::{AllocError, Global};

// ---- which questions are asked

/// The questions by which the condition is counted by the row, in their order.
fn questions_of(
    alloc: Global,
    monitor: &Monitor,
    plan: &Plan,
    condition: u32,
    row: u32,
) -> Result<Vec<Question>, AllocError>
    ensures { IfOk result (λ all.
        all.items ≡ counting_questions monitor.now plan.now condition row) }
{
    let mut all = Vec::new(alloc);
    for index in 0..monitor.blocks().len() {
        push_block(&mut all, monitor, plan, condition, row, index as u32)?;
    }
    Ok(all)
}

/// Appends what is asked of the block.
fn push_block(
    questions: &mut Vec<Question>,
    monitor: &Monitor,
    plan: &Plan,
    condition: u32,
    row: u32,
    block: u32,
) -> Result<(), AllocError>
    ensures { OnOk result (questions.new.items ≡ questions.old.items
        ++ block_questions monitor.now plan.now condition row block) }
{
    if has_broadcast_at(plan, block, condition) {
        return Ok(());
    }
    if has_note_at(plan, block, condition) {
        return push_noted(questions, monitor, condition, row, block);
    }
    questions.push(counts_question(condition, row, block))?;
    Ok(())
}

/// Appends what is asked of the block, which has a note on the condition.
fn push_noted(
    questions: &mut Vec<Question>,
    monitor: &Monitor,
    condition: u32,
    row: u32,
    block: u32,
) -> Result<(), AllocError>
    ensures { OnOk result (questions.new.items
        ≡ questions.old.items ++ note_questions monitor.now condition row block) }
{
    questions.push(Question::Gives {
        condition,
        row,
        block,
    })?;
    if !waits_at(monitor, condition, block) {
        questions.push(Question::First {
            condition,
            row,
            block,
        })?;
    }
    Ok(())
}

fn counts_question(condition: u32, row: u32, block: u32) -> Question
    ensures { result ≡ Counts condition row block }
{
    Question::Counts {
        condition,
        row,
        block,
    }
}

/// Whether the block has a broadcast on the condition.
fn has_broadcast_at(plan: &Plan, block: u32, condition: u32) -> bool
    ensures { result ≡ has_broadcast (notes_at plan.now block) condition }
{
    match plan.notes.items().get(block as usize) {
        Some(list) => has_broadcast(list.notes(), condition),
        None => false,
    }
}

/// Whether some note is a broadcast on the condition.
fn has_broadcast(notes: &[Note], condition: u32) -> bool
    ensures { result ≡ has_broadcast notes.now condition }
{
    notes
        .iter()
        .any(|note| note.condition == condition && note.all)
}

// ---- which has no certificate

/// Whether a certificate is found of what the question asks.
fn is_certified(
    alloc: Global,
    monitor: &Monitor,
    kept: &[Candidate],
    question: Question,
) -> Result<bool, AllocError>
    requires kept { list_all is_expressible kept.now ≡ true }
    requires question { MayAskQuestion monitor.now question }
    ensures { IfOk result (IsReply monitor.now kept.now question) }
{
    let query = question_query(alloc, monitor, kept, question)?;
    let _blocks = monitor.blocks();
    match certificate_of(alloc, monitor, &query)? {
        Some(_) => Ok(true),
        None => Ok(false),
    }
}

/// The first of the questions for which no certificate is found, or none.
fn first_unanswered(
    alloc: Global,
    monitor: &Monitor,
    kept: &[Candidate],
    questions: &[Question],
) -> Result<Option<Question>, AllocError>
    requires kept { list_all is_expressible kept.now ≡ true }
    requires questions { All (MayAskQuestion monitor.now) questions.now }
    ensures { IfOk result (IsFirstUnanswered monitor.now kept.now questions.now) }
{
    for place in 0..questions.len() {
        let question = questions[place];
        let certified = is_certified(alloc, monitor, kept, question)?;
        if !certified {
            return Ok(Some(question));
        }
    }
    Ok(None)
}

// ---- rows

/// The first question by the row without a certificate, or none.
fn unanswered_by(
    alloc: Global,
    monitor: &Monitor,
    plan: &Plan,
    condition: u32,
    row: u32,
) -> Result<Option<Question>, AllocError>
    requires kept { list_all is_expressible plan.now.kept ≡ true }
    requires reads { ReadsNone monitor.now condition }
    requires has { HasRowAt monitor.now condition row }
    ensures { IfOk result (IsByRow monitor.now plan.now condition row) }
{
    let questions = questions_of(alloc, monitor, plan, condition, row)?;
    first_unanswered(alloc, monitor, plan.kept.items(), &questions)
}

/// Whether the condition is counted by a row after the first that is tried.
fn counts_by_others(
    alloc: Global,
    monitor: &Monitor,
    plan: &Plan,
    condition: u32,
) -> Result<bool, AllocError>
    requires kept { list_all is_expressible plan.now.kept ≡ true }
    requires reads { ReadsNone monitor.now condition }
    ensures { IfOk result (IsByOthers monitor.now plan.now condition) }
{
    for before in 1..ROWS_TRIED {
        let row = before + 1;
        if !has_row(monitor, condition, row) {
            return Ok(false);
        }
        match unanswered_by(alloc, monitor, plan, condition, row)? {
            None => return Ok(true),
            Some(_) => {}
        }
    }
    Ok(false)
}

/// The question that is named of a condition that is not passed on, as the claim says, or none
/// where it is counted by a row that is tried.
fn uncounted_by_rows(
    alloc: Global,
    monitor: &Monitor,
    plan: &Plan,
    condition: u32,
    claim: Claim,
) -> Result<Option<Question>, AllocError>
    requires kept { list_all is_expressible plan.now.kept ≡ true }
    requires reads { ReadsNone monitor.now condition }
    ensures { IfOk result (IsByRows monitor.now plan.now condition claim) }
{
    if !has_row(monitor, condition, 1) {
        return Ok(Some(counts_question(condition, 1, block_of(claim))));
    }
    match unanswered_by(alloc, monitor, plan, condition, 1)? {
        None => Ok(None),
        Some(question) => {
            let counted = counts_by_others(alloc, monitor, plan, condition)?;
            Ok(unless(counted, question))
        }
    }
}

fn unless(counted: bool, question: Question) -> Option<Question>
    ensures { result ≡ (if counted then None else Some question) }
{
    if counted { None } else { Some(question) }
}

fn block_of(claim: Claim) -> u32
    ensures { result ≡ block_of claim }
{
    match claim {
        Claim::Keeps { block, .. } => block,
        Claim::NoNote { block, .. } => block,
        Claim::One { block, .. } => block,
        Claim::NoTest { block, .. } => block,
    }
}

// ---- conditions

/// The question that is named of the first condition of kind signal that is neither passed on nor
/// counted, or none. The claims are those that the plan rests on.
pub(crate) fn first_uncounted(
    alloc: Global,
    monitor: &Monitor,
    plan: &Plan,
    claims: &[Claim],
) -> Result<Option<Question>, AllocError>
    requires plan { IsPlanOf monitor.now plan.now }
    requires sight { IsLawfulAtSight monitor.now plan.now }
    requires kept { list_all is_expressible plan.now.kept ≡ true }
    requires claims { claims.now ≡ backed_claims monitor.now plan.now }
    ensures { IfOk result (IsFirstFound monitor.now plan.now) }
{
    for index in 0..monitor.conditions().len() {
        let condition = index as u32 + 1;
        match uncounted_at(alloc, monitor, plan, claims, condition)? {
            Some(question) => return Ok(Some(question)),
            None => {}
        }
    }
    Ok(None)
}

/// The question that is named of the condition, where it is of kind signal and neither passed on
/// nor counted.
fn uncounted_at(
    alloc: Global,
    monitor: &Monitor,
    plan: &Plan,
    claims: &[Claim],
    condition: u32,
) -> Result<Option<Question>, AllocError>
    requires plan { IsPlanOf monitor.now plan.now }
    requires sight { IsLawfulAtSight monitor.now plan.now }
    requires kept { list_all is_expressible plan.now.kept ≡ true }
    requires claims { claims.now ≡ backed_claims monitor.now plan.now }
    requires condition { IsConditionNumber monitor.now condition }
    ensures { IfOk result (IsUncountedAt monitor.now plan.now condition) }
{
    let _blocks = monitor.blocks();
    if is_broadcast_at(plan.kinds.items(), condition) {
        return Ok(None);
    }
    let passing = passing_of(alloc, plan, condition, claims)?;
    match first_unproved(alloc, monitor, plan.kept.items(), &passing)? {
        None => Ok(None),
        Some(claim) => uncounted_by_rows(alloc, monitor, plan, condition, claim),
    }
}
