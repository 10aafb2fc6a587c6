//! A counted plan for a monitor.

ghost use Rattle.std.specs.Prelude.{◌≡◌, ◌≤◌, ◌++◌, IfOk, OnOk, length, map};
ghost use Rattle.std.specs.List.{enumerate_from};
ghost use Rattle.std.specs.Option.{option_copied, option_to_list};
ghost use Rattle.lang_base.specs.Limits.{BLOCKS, CONDITIONS};
ghost use Rattle.machine_events.specs.Plans.{FitsPlan, IsLawful};
ghost use Rattle.machine_events.specs.Counts.{IsLawfulByCounting};
ghost use Rattle.plan_place.specs.Relayed.{note_on};
ghost use Rattle.plan_counted.specs.Counted.{AreBacked, IsCountedFrom, told_note, told_on};
ghost use Rattle.plan_counted.specs.Exact.{HasNoOpenQuestion, IsExactlyCounted};
ghost use Rattle.plan_counted.specs.Counted.{counted_kind, counted_kinds};
ghost use Rattle.plan_counted.specs.Counted.{counted_notes, counted_of};
ghost use Rattle.plan_counted.specs.CountedAndRelayed.{CountsBroadcasts, OmitsNoMore};
ghost use Rattle.plan_counted.specs.Rows.{NamesBestRows};

use super::columns::columns_of;
use super::counted::{Column, CountedPlan, Told};
use super::laws::{answered_columns_count, counted_plans_are_exact, counted_plans_omit_no_more};
use base_list::Seq;
use lang_monitor::{Candidate, Monitor};
use machine_events::{CondKind, Note, NoteList, Plan};
use plan_candidates::candidates_have_formulas;
use std::alloc::{AllocError, Global};

/// The plan, counted. It fails only for want of memory.
///
/// A condition of kind broadcast that reads no inputs is of kind signal where no note is placed on
/// it in a block that waits at it, and a certificate is found of each of these that it leaves the
/// condition counted with none, by one of the first rows of its guard. By such a row a block has a
/// note on it where one is placed, or where no certificate is found that it leaves the condition
/// counted with none: a signal where certificates are found that this is enough, else a broadcast.
/// It is tested where the placed note is, and where none is placed. Of these rows the one is taken
/// that has the fewest broadcasts, and of several such ones the first; the table names it
/// (`specs/Rows`). Every other condition stays as it is. So the plan is lawful by counting, and
/// does more than it has to only where a query may stay open (`specs/Counted`, `IsCountedFrom`).
pub fn count_plan(
    alloc: Global,
    monitor: &Monitor,
    placed: &Plan,
) -> Result<CountedPlan, AllocError>
    requires fits { FitsPlan monitor.now placed.now }
    requires lawful { IsLawful monitor.now placed.now }
    ensures fits { IfOk result (λ it. FitsPlan monitor.now it.plan) }
    ensures lawful { IfOk result (λ it. IsLawfulByCounting monitor.now it.plan) }
    ensures counted { IfOk result (λ it. IsCountedFrom monitor.now placed.now it.plan) }
    ensures exact { IfOk result (λ it. HasNoOpenQuestion monitor.now placed.now.kept
        → IsExactlyCounted monitor.now placed.now it.plan) }
    ensures plan { IfOk result (λ it. it.plan ≡ counted_of placed.now it.columns) }
    ensures backed { IfOk result (λ it. AreBacked monitor.now placed.now it.columns) }
    ensures broadcasts { IfOk result (λ it.
        CountsBroadcasts monitor.now placed.now it.columns) }
    ensures rows { IfOk result (λ it.
        NamesBestRows monitor.now placed.now it.plan it.columns) }
    ensures omits { IfOk result (λ it. OmitsNoMore placed.now it.plan) }
{
    let _blocks = monitor.blocks();
    answered_columns_count(); // gives `fits`, `lawful` and `counted`
    counted_plans_are_exact(); // gives `exact`
    counted_plans_omit_no_more(); // gives `omits`
    candidates_have_formulas(monitor);
    let columns = columns_of(alloc, monitor, placed)?;
    let plan = counted_plan(alloc, placed, &columns)?;
    Ok(CountedPlan {
        plan,
        columns: Seq::of(columns),
    })
}

/// The plan with what blocks have on conditions that are counted.
pub(crate) fn counted_plan(
    alloc: Global,
    placed: &Plan,
    columns: &[Option<Column>],
) -> Result<Plan, AllocError>
    requires kinds { length columns.now ≡ length placed.now.kinds }
    requires few_kinds { length placed.now.kinds ≤ CONDITIONS }
    requires few_notes { length placed.now.notes ≤ BLOCKS }
    ensures { IfOk result (λ plan. plan ≡ counted_of placed.now columns.now) }
{
    let kept = copied(alloc, placed.kept.items())?;
    let kinds = counted_kinds(alloc, placed.kinds.items(), columns)?;
    let notes = counted_lists(alloc, placed.notes.items(), columns)?;
    Ok(Plan {
        kept: Seq::of(kept),
        kinds: Seq::of(kinds),
        notes: Seq::of(notes),
    })
}

fn copied(alloc: Global, candidates: &[Candidate]) -> Result<Vec<Candidate>, AllocError>
    ensures { IfOk result (λ all. all.items ≡ candidates.now) }
{
    let mut all = Vec::new(alloc);
    for candidate in candidates {
        all.push(*candidate)?;
    }
    Ok(all)
}

// ---- kinds

/// The kind of each condition.
fn counted_kinds(
    alloc: Global,
    kinds: &[CondKind],
    columns: &[Option<Column>],
) -> Result<Vec<CondKind>, AllocError>
    requires { length columns.now ≡ length kinds.now }
    ensures { IfOk result (λ made. made.items ≡ counted_kinds kinds.now columns.now) }
{
    let mut made = Vec::new(alloc);
    for index in 0..kinds.len() {
        made.push(counted_kind(kinds[index], &columns[index]))?;
    }
    Ok(made)
}

fn counted_kind(kind: CondKind, column: &Option<Column>) -> CondKind
    ensures { result ≡ counted_kind kind column.now }
{
    match column {
        Some(_) => CondKind::Signal,
        None => kind,
    }
}

// ---- notes

/// The notes of each block.
fn counted_lists(
    alloc: Global,
    lists: &[NoteList],
    columns: &[Option<Column>],
) -> Result<Vec<NoteList>, AllocError>
    requires few { length lists.now ≤ BLOCKS }
    requires columns { length columns.now ≤ CONDITIONS }
    ensures { IfOk result (λ made. made.items
        ≡ map (λ one. counted_notes columns.now one.0 one.1) (enumerate_from 0 lists.now)) }
{
    let mut made = Vec::new(alloc);
    for index in 0..lists.len() {
        made.push(counted_list(alloc, columns, index, lists[index].notes())?)?;
    }
    Ok(made)
}

/// The notes of a block that had these.
fn counted_list(
    alloc: Global,
    columns: &[Option<Column>],
    block: usize,
    notes: &[Note],
) -> Result<NoteList, AllocError>
    requires { length columns.now ≤ CONDITIONS }
    ensures { IfOk result (λ made. made ≡ counted_notes columns.now block notes.now) }
{
    let mut made = Vec::new(alloc);
    for index in 0..columns.len() {
        let condition = index as u32 + 1;
        let note = told_on(condition, block, &columns[index], note_on(notes, condition));
        push_some(&mut made, note)?;
    }
    Ok(NoteList::of(made))
}

/// Appends the note, where there is one.
fn push_some(notes: &mut Vec<Note>, note: Option<Note>) -> Result<(), AllocError>
    ensures { OnOk result (notes.new.items ≡ notes.old.items ++ option_to_list note) }
{
    match note {
        Some(note) => notes.push(note)?,
        None => {}
    }
    Ok(())
}

/// The block's note on the condition.
fn note_on(notes: &[Note], condition: u32) -> Option<Note>
    ensures { result ≡ note_on notes.now condition }
{
    found_on(notes, condition).copied()
}

fn found_on(notes: &[Note], condition: u32) -> Option<&Note>
    ensures { option_copied result ≡ note_on notes.now condition }
{
    notes.iter().find(|note| note.condition == condition)
}

/// What the block has on the condition where this note, or none, is placed.
fn told_on(
    condition: u32,
    block: usize,
    column: &Option<Column>,
    placed: Option<Note>,
) -> Option<Note>
    ensures { result ≡ told_on condition block column.now placed }
{
    match column {
        None => placed,
        Some(column) => match column.told.items().get(block) {
            None => None,
            Some(told) => told_note(condition, told, placed),
        },
    }
}

fn told_note(condition: u32, told: &Told, placed: Option<Note>) -> Option<Note>
    ensures { result ≡ told_note condition told.now placed }
{
    let tested = match placed {
        Some(note) => note.tested,
        None => true,
    };
    match told {
        Told::Nothing { .. } => None,
        Told::Signal { .. } => Some(Note {
            condition,
            all: false,
            tested,
        }),
        Told::Broadcast => Some(Note {
            condition,
            all: true,
            tested,
        }),
    }
}
