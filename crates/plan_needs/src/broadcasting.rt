//! Whether the broadcasts of blocks on counted conditions are needed.

ghost use Rattle.std.specs.Prelude.{◌≡◌, ◌++◌, ◌∷◌, [], ◌≤◌, All, IfOk, IfSome, Some, length};
ghost use Rattle.std.specs.Prelude.{map, true};
ghost use Rattle.std.specs.List.{enumerate_from, flat_map, list_all};
ghost use Rattle.lang_base.specs.Limits.{BLOCKS};
ghost use Rattle.machine_events.specs.Plans.{FitsPlan};
ghost use Rattle.logic_wp.specs.Expressible.{is_expressible};
ghost use Rattle.plan_count.specs.Questions.{MayBeAsked};
ghost use Rattle.plan_counted.specs.Counted.{AreBacked};
ghost use Rattle.plan_why.specs.Failures.{IsFailureAmong};
ghost use Rattle.plan_needs.specs.Needs.{broadcasts_of, broadcasts_of_block, signal_queries};
ghost use Rattle.plan_needs.specs.CountedReasons.{IsBroadcastReason};
ghost use Rattle.plan_needs.specs.inner.Asked.{IsAskable};

use super::asking::question_failure;
use super::broadcasts::{BlockBroadcast, BroadcastReason};
use super::rows::counted_row;
use lang_monitor::{Candidate, Monitor};
use machine_events::{Note, NoteList};
use plan_candidates::candidates_have_formulas;
use plan_count::Question;
use plan_counted::{Column, CountedPlan};
use plan_why::Failure;
use std::alloc::{AllocError, Global};

// ---- the broadcasts

/// Adds the note of the block, where it is a broadcast on a counted condition.
fn push_broadcast(
    all: &mut Vec<BlockBroadcast>,
    columns: &[Option<Column>],
    block: u32,
    note: Note,
) -> Result<(), AllocError>
    ensures { IfOk result (λ done. all.new.items
        ≡ all.old.items ++ broadcasts_of_block columns.now block (note ∷ [])) }
{
    if note.all && counted_row(columns, note.condition).is_some() {
        all.push(BlockBroadcast {
            block,
            condition: note.condition,
        })?;
    }
    Ok(())
}

/// Adds those of a block.
fn push_broadcasts(
    all: &mut Vec<BlockBroadcast>,
    columns: &[Option<Column>],
    block: u32,
    notes: &[Note],
) -> Result<(), AllocError>
    ensures { IfOk result (λ done. all.new.items
        ≡ all.old.items ++ broadcasts_of_block columns.now block notes.now) }
{
    for note in notes {
        push_broadcast(all, columns, block, *note)?;
    }
    Ok(())
}

/// Those of each block.
fn broadcasts_of(alloc: Global, counted: &CountedPlan) -> Result<Vec<BlockBroadcast>, AllocError>
    requires { length counted.now.plan.notes ≤ BLOCKS }
    ensures { IfOk result (λ all. all.items ≡ broadcasts_of counted.now) }
{
    let lists = counted.plan.notes.items();
    let columns = counted.columns.items();
    let mut all = Vec::new(alloc);
    for index in 0..lists.len() {
        push_broadcasts(&mut all, columns, index as u32, lists[index].notes())?;
    }
    Ok(all)
}

// ---- reasons

/// A failure of counting by the row with a signal, where one is found.
fn signal_failure_by(
    alloc: Global,
    monitor: &Monitor,
    kept: &[Candidate],
    condition: u32,
    row: u32,
    block: u32,
) -> Result<Option<Failure>, AllocError>
    requires kept { list_all is_expressible kept.now ≡ true }
    requires may { MayBeAsked monitor.now condition row block }
    ensures { IfOk result (IsFailureAmong monitor.now
        (signal_queries monitor.now kept.now (Some row) condition block)) }
{
    let question = Question::Gives {
        condition,
        row,
        block,
    };
    match question_failure(alloc, monitor, kept, question)? {
        Some(failure) => Ok(Some(failure)),
        None => {
            let question = Question::First {
                condition,
                row,
                block,
            };
            Ok(question_failure(alloc, monitor, kept, question)?)
        }
    }
}

/// A failure with a signal in place of the broadcast, where one is found.
fn signal_failure(
    alloc: Global,
    monitor: &Monitor,
    kept: &[Candidate],
    row: Option<u32>,
    broadcast: BlockBroadcast,
) -> Result<Option<Failure>, AllocError>
    requires kept { list_all is_expressible kept.now ≡ true }
    requires may { IfSome row (λ row.
        MayBeAsked monitor.now broadcast.condition row broadcast.block) }
    ensures { IfOk result (IsFailureAmong monitor.now
        (signal_queries monitor.now kept.now row broadcast.condition broadcast.block)) }
{
    let (condition, block) = (broadcast.condition, broadcast.block);
    match row {
        None => Ok(None),
        Some(row) => Ok(signal_failure_by(alloc, monitor, kept, condition, row, block)?),
    }
}

/// For each broadcast of a block on a condition that is counted, block by block, whether one signal
/// is not enough.
///
/// It would be enough where with one the block leaves the condition counted, and where nobody could
/// pass before, at most one client may (`specs/Needs`). A failure is a valuation in whole numbers
/// at which one of these triples fails; none is given only where each of them is valid or not plain
/// (`specs/CountedReasons`). It fails only for want of memory.
pub fn broadcast_reasons(
    alloc: Global,
    monitor: &Monitor,
    counted: &CountedPlan,
) -> Result<Vec<BroadcastReason>, AllocError>
    requires fits { FitsPlan monitor.now counted.now.plan }
    requires backed { AreBacked monitor.now counted.now.plan counted.now.columns }
    ensures broadcasts { IfOk result (λ reasons.
        map (λ reason. reason.broadcast) reasons.items ≡ broadcasts_of counted.now) }
    ensures each { IfOk result (λ reasons.
        All (IsBroadcastReason monitor.now counted.now) reasons.items) }
{
    let _blocks = monitor.blocks();
    candidates_have_formulas(monitor);
    let kept = counted.plan.kept.items();
    let columns = counted.columns.items();
    let broadcasts = broadcasts_of(alloc, counted)?;
    let mut reasons = Vec::new(alloc);
    for index in 0..broadcasts.len() {
        let broadcast = broadcasts[index];
        let row = counted_row(columns, broadcast.condition);
        let failure = signal_failure(alloc, monitor, kept, row, broadcast)?;
        reasons.push(BroadcastReason { broadcast, failure })?;
    }
    Ok(reasons)
}
