//! What the blocks have on a condition that is counted.

ghost use Rattle.std.specs.Prelude.{◌≡◌, ◌-◌, ◌≤◌, IfOk, true, slice_get};
ghost use Rattle.std.specs.List.{list_all};
ghost use Rattle.machine_events.specs.Plans.{FitsPlan, has_note};
ghost use Rattle.plan_claims.specs.Backing.{reads_none};
ghost use Rattle.plan_place.specs.Relayed.{is_broadcast};
ghost use Rattle.logic_wp.specs.Expressible.{is_expressible};
ghost use Rattle.logic_wp.specs.PlainClaims.{ReadsNone};
ghost use Rattle.plan_count.specs.Questions.{HasRowAt, MayBeAsked};
ghost use Rattle.plan_counted.specs.inner.Answers.{AreColumns, IsColumn, IsOneAnswer, IsRowAnswer};
ghost use Rattle.plan_counted.specs.inner.Answers.{IsToldAnswer, better_of, broadcasts_told};
ghost use Rattle.plan_counted.specs.inner.Answers.{fewer_of, gives_all, has_no_broadcast};

use super::asking::answer;
use super::counted::{Column, ROWS_TRIED, Told};
use base_list::Seq;
use lang_monitor::{Candidate, Monitor};
use machine_events::{Note, Plan};
use plan_claims::{reads_none, waits_at};
use plan_count::{Question, has_row};
use plan_place::is_broadcast_at;
use std::alloc::{AllocError, Global};

/// A signal or a broadcast, as the prover answers whether one signal leaves the condition counted.
fn signal_or_broadcast(
    alloc: Global,
    monitor: &Monitor,
    kept: &[Candidate],
    condition: u32,
    row: u32,
    block: u32,
) -> Result<Told, AllocError>
    requires kept { list_all is_expressible kept.now ≡ true }
    requires may { MayBeAsked monitor.now condition row block }
    ensures { IfOk result (IsOneAnswer monitor.now kept.now condition row block) }
{
    let question = Question::Gives {
        condition,
        row,
        block,
    };
    let Some(gives) = answer(alloc, monitor, kept, question)? else {
        return Ok(Told::Broadcast);
    };
    let question = Question::First {
        condition,
        row,
        block,
    };
    match answer(alloc, monitor, kept, question)? {
        Some(first) => Ok(Told::Signal { gives, first }),
        None => Ok(Told::Broadcast),
    }
}

/// What the block, on which a note is placed or not, has to have. It is none where the block waits
/// at the condition and would need a note of its own.
fn told(
    alloc: Global,
    monitor: &Monitor,
    kept: &[Candidate],
    condition: u32,
    row: u32,
    block: u32,
    is_noted: bool,
) -> Result<Option<Told>, AllocError>
    requires kept { list_all is_expressible kept.now ≡ true }
    requires may { MayBeAsked monitor.now condition row block }
    ensures { IfOk result (IsToldAnswer monitor.now kept.now condition row block is_noted) }
{
    if !is_noted {
        let question = Question::Counts {
            condition,
            row,
            block,
        };
        match answer(alloc, monitor, kept, question)? {
            Some(counts) => return Ok(Some(Told::Nothing { counts })),
            None => {}
        }
    }
    if waits_at(monitor, condition, block) {
        return Ok(None);
    }
    let told = signal_or_broadcast(alloc, monitor, kept, condition, row, block)?;
    Ok(Some(told))
}

/// Whether a note is on the condition.
fn has_note(notes: &[Note], condition: u32) -> bool
    ensures { result ≡ has_note notes.now condition }
{
    notes.iter().any(|note| note.condition == condition)
}

/// What each block has on the condition, which reads no inputs, by this row, or none where it can't
/// be counted by it.
fn told_by(
    alloc: Global,
    monitor: &Monitor,
    plan: &Plan,
    condition: u32,
    row: u32,
) -> Result<Option<Seq<Told>>, AllocError>
    requires fits { FitsPlan monitor.now plan.now }
    requires kept { list_all is_expressible plan.now.kept ≡ true }
    requires reads { ReadsNone monitor.now condition }
    requires row { HasRowAt monitor.now condition row }
    ensures { IfOk result (IsRowAnswer monitor.now plan.now condition row) }
{
    let kept = plan.kept.items();
    let lists = plan.notes.items();
    let mut column = Vec::new(alloc);
    for index in 0..monitor.blocks().len() {
        let is_noted = has_note(lists[index].notes(), condition);
        match told(alloc, monitor, kept, condition, row, index as u32, is_noted)? {
            Some(told) => column.push(told)?,
            None => return Ok(None),
        }
    }
    Ok(Some(Seq::of(column)))
}

// ---- the row with the fewest broadcasts

fn gives_all(told: &Told) -> bool
    ensures { result ≡ gives_all told.now }
{
    match told {
        Told::Nothing { .. } => false,
        Told::Signal { .. } => false,
        Told::Broadcast => true,
    }
}

/// How many blocks have a broadcast.
fn broadcasts(told: &[Told]) -> usize
    ensures { result ≡ broadcasts_told told.now }
{
    told.iter().filter(|one| gives_all(*one)).count()
}

/// Whether a row was found by which no block has a broadcast.
fn has_no_broadcast(best: &Option<Column>) -> bool
    ensures { result ≡ has_no_broadcast best.now }
{
    match best {
        Some(column) => broadcasts(column.told.items()) == 0,
        None => false,
    }
}

/// The second, where it has fewer broadcasts.
fn fewer_of(column: Column, other: Column) -> Column
    ensures { result ≡ fewer_of column other }
{
    if broadcasts(other.told.items()) < broadcasts(column.told.items()) {
        other
    } else {
        column
    }
}

/// What was found, or the row, where by it the blocks have fewer broadcasts.
fn better_of(best: Option<Column>, row: u32, told: Option<Seq<Told>>) -> Option<Column>
    ensures { result ≡ better_of best row told }
{
    match told {
        None => best,
        Some(told) => match best {
            None => Some(Column { row, told }),
            Some(column) => Some(fewer_of(column, Column { row, told })),
        },
    }
}

/// How the condition, which was of kind broadcast and reads no inputs, is counted: by the first of
/// the rows by which it has the fewest broadcasts. Where it has none by a row, no further one is
/// tried.
fn column(
    alloc: Global,
    monitor: &Monitor,
    plan: &Plan,
    condition: u32,
) -> Result<Option<Column>, AllocError>
    requires fits { FitsPlan monitor.now plan.now }
    requires kept { list_all is_expressible plan.now.kept ≡ true }
    requires reads { ReadsNone monitor.now condition }
    requires kind { is_broadcast (slice_get plan.now.kinds (condition - 1)) ≡ true }
    ensures { IfOk result (IsColumn monitor.now plan.now condition) }
{
    let mut best = None;
    for index in 0..ROWS_TRIED {
        let row = index + 1;
        if has_no_broadcast(&best) {
            return Ok(best);
        }
        if !has_row(monitor, condition, row) {
            return Ok(best);
        }
        let told = told_by(alloc, monitor, plan, condition, row)?;
        best = better_of(best, row, told);
    }
    Ok(best)
}

/// How the condition is counted, where it is.
fn column_of(
    alloc: Global,
    monitor: &Monitor,
    plan: &Plan,
    condition: u32,
) -> Result<Option<Column>, AllocError>
    requires fits { FitsPlan monitor.now plan.now }
    requires kept { list_all is_expressible plan.now.kept ≡ true }
    requires first { 1 ≤ condition }
    ensures { IfOk result (IsColumn monitor.now plan.now condition) }
{
    if reads_none(monitor, condition) && is_broadcast_at(plan.kinds.items(), condition) {
        column(alloc, monitor, plan, condition)
    } else {
        Ok(None)
    }
}

/// How each condition is counted, where it is.
pub(crate) fn columns_of(
    alloc: Global,
    monitor: &Monitor,
    plan: &Plan,
) -> Result<Vec<Option<Column>>, AllocError>
    requires fits { FitsPlan monitor.now plan.now }
    requires kept { list_all is_expressible plan.now.kept ≡ true }
    ensures { IfOk result (λ all. AreColumns monitor.now plan.now all.items) }
{
    let mut all = Vec::new(alloc);
    for index in 0..monitor.conditions().len() {
        all.push(column_of(alloc, monitor, plan, index as u32 + 1)?)?;
    }
    Ok(all)
}
