//! What a counted plan rests on.

ghost use Rattle.std.specs.Prelude.{◌≡◌, ◌≤◌, ◌++◌, IfOk, OnOk, length};
ghost use Rattle.std.specs.List.{filter};
ghost use Rattle.std.specs.Option.{option_copied};
ghost use Rattle.lang_base.specs.Limits.{CONDITIONS};
ghost use Rattle.machine_events.specs.Plans.{notes_at};
ghost use Rattle.plan_place.specs.Relayed.{note_on};
ghost use Rattle.plan_count.specs.declared.question.Question.TheVariants.{Counts, First, Gives};
ghost use Rattle.report_tally.specs.CountedReports.{block_questions, condition_questions};
ghost use Rattle.report_tally.specs.CountedReports.{is_counted, is_owed};
ghost use Rattle.report_verdict.specs.Reports.{IsPlanOf};
ghost use Rattle.report_tally.specs.CountedReports.{given_questions, note_questions, owed_claims};
ghost use Rattle.report_tally.specs.CountedReports.{owed_questions};

use lang_monitor::{Claim, Monitor};
use machine_events::{Note, Plan};
use plan_count::Question;
use report_verdict::claims_of;
use std::alloc::{AllocError, Global};

// ---- claims

/// Whether the condition is counted.
fn is_counted(counted: &[Option<u32>], condition: u32) -> bool
    ensures { result ≡ is_counted counted.now condition }
{
    match counted.get(condition.saturating_sub(1) as usize) {
        Some(row) => row.is_some(),
        None => false,
    }
}

/// Whether a counted plan rests on the claim, if a plan does.
fn is_owed(counted: &[Option<u32>], claim: Claim) -> bool
    ensures { result ≡ is_owed counted.now claim }
{
    match claim {
        Claim::Keeps { .. } => true,
        Claim::NoNote { .. } => true,
        Claim::One { condition, .. } => !is_counted(counted, condition),
        Claim::NoTest { .. } => true,
    }
}

/// The claims on which a counted plan rests.
pub(crate) fn owed_claims(
    alloc: Global,
    monitor: &Monitor,
    plan: &Plan,
    counted: &[Option<u32>],
) -> Result<Vec<Claim>, AllocError>
    requires { IsPlanOf monitor.now plan.now }
    ensures { IfOk result (λ owed. owed.items ≡ owed_claims monitor.now plan.now counted.now) }
{
    let all = claims_of(alloc, monitor, plan)?;
    let owed = owed_of(alloc, &all, counted)?;
    Ok(owed)
}

/// Those of the claims on which a counted plan rests.
fn owed_of(
    alloc: Global,
    claims: &[Claim],
    counted: &[Option<u32>],
) -> Result<Vec<Claim>, AllocError>
    ensures { IfOk result (λ owed. owed.items ≡ filter (is_owed counted.now) claims.now) }
{
    let mut owed = Vec::new(alloc);
    for claim in claims {
        if is_owed(counted, *claim) {
            owed.push(*claim)?;
        }
    }
    Ok(owed)
}

// ---- questions

/// The questions on which a counted plan rests.
pub(crate) fn owed_questions(
    alloc: Global,
    monitor: &Monitor,
    plan: &Plan,
    counted: &[Option<u32>],
) -> Result<Vec<Question>, AllocError>
    requires { length counted.now ≤ CONDITIONS }
    ensures { IfOk result (λ owed. owed.items
        ≡ owed_questions monitor.now plan.now counted.now) }
{
    let mut owed = Vec::new(alloc);
    for index in 0..counted.len() {
        push_counted(&mut owed, monitor, plan, index as u32 + 1, counted[index])?;
    }
    Ok(owed)
}

/// Appends the questions on the condition, where it is counted by a row.
fn push_counted(
    owed: &mut Vec<Question>,
    monitor: &Monitor,
    plan: &Plan,
    condition: u32,
    row: Option<u32>,
) -> Result<(), AllocError>
    ensures { OnOk result (owed.new.items ≡ owed.old.items
        ++ condition_questions monitor.now plan.now condition row) }
{
    match row {
        Some(row) => push_blocks(owed, monitor, plan, condition, row)?,
        None => {}
    }
    Ok(())
}

/// Appends the questions on the condition, counted by the row, and each block.
pub(crate) fn push_blocks(
    owed: &mut Vec<Question>,
    monitor: &Monitor,
    plan: &Plan,
    condition: u32,
    row: u32,
) -> Result<(), AllocError>
    ensures { OnOk result (owed.new.items ≡ owed.old.items
        ++ block_questions monitor.now plan.now condition row) }
{
    for index in 0..monitor.blocks().len() {
        let block = index as u32;
        push_noted(
            owed,
            condition,
            row,
            block,
            placed_note(plan, index, condition),
        )?;
    }
    Ok(())
}

/// Appends the questions on a block that has this note, or none.
fn push_noted(
    owed: &mut Vec<Question>,
    condition: u32,
    row: u32,
    block: u32,
    note: Option<Note>,
) -> Result<(), AllocError>
    ensures { OnOk result
        (owed.new.items ≡ owed.old.items ++ note_questions condition row block note) }
{
    match note {
        None => owed.push(counts_question(condition, row, block))?,
        Some(note) => push_given(owed, condition, row, block, note.all)?,
    }
    Ok(())
}

/// Appends the questions on a block that has a note, a broadcast or a signal.
fn push_given(
    owed: &mut Vec<Question>,
    condition: u32,
    row: u32,
    block: u32,
    all: bool,
) -> Result<(), AllocError>
    ensures { OnOk result (owed.new.items ≡ owed.old.items
        ++ given_questions condition row block all) }
{
    if !all {
        owed.push(gives_question(condition, row, block))?;
        owed.push(first_question(condition, row, block))?;
    }
    Ok(())
}

pub(crate) fn counts_question(condition: u32, row: u32, block: u32) -> Question
    ensures { result ≡ Counts condition row block }
{
    Question::Counts {
        condition,
        row,
        block,
    }
}

pub(crate) fn gives_question(condition: u32, row: u32, block: u32) -> Question
    ensures { result ≡ Gives condition row block }
{
    Question::Gives {
        condition,
        row,
        block,
    }
}

pub(crate) fn first_question(condition: u32, row: u32, block: u32) -> Question
    ensures { result ≡ First condition row block }
{
    Question::First {
        condition,
        row,
        block,
    }
}

/// The block's note on the condition.
fn placed_note(plan: &Plan, block: usize, condition: u32) -> Option<Note>
    ensures { result ≡ note_on (notes_at plan.now block) condition }
{
    match plan.notes.items().get(block) {
        Some(list) => note_on(list.notes(), condition),
        None => None,
    }
}

fn note_on(notes: &[Note], condition: u32) -> Option<Note>
    ensures { result ≡ note_on notes.now condition }
{
    found_on(notes, condition).copied()
}

fn found_on(notes: &[Note], condition: u32) -> Option<&Note>
    ensures { option_copied result ≡ note_on notes.now condition }
{
    notes.iter().find(|note| note.condition == condition)
}
