//! Relayed plans.

ghost use Rattle.std.specs.Prelude.{◌≡◌, ◌≤◌, IfOk, length, map};
ghost use Rattle.std.specs.List.{enumerate_from};
ghost use Rattle.std.specs.Option.{option_copied};
ghost use Rattle.lang_base.specs.Limits.{BLOCKS, CONDITIONS};
ghost use Rattle.machine_events.specs.Plans.{FitsPlan, IsLawful};
ghost use Rattle.plan_place.specs.Relayed.{hands_on, note_on, relay_of, relayed_kind};
ghost use Rattle.plan_place.specs.Relayed.{relayed_kinds, relayed_note, relayed_notes, relayed_on};
ghost use Rattle.plan_place.specs.Relayed.{tested_signal};

use super::laws::relayed_plans_are_lawful;
use super::notes::push_some;
use super::parts::is_broadcast_at;
use base_list::Seq;
use lang_monitor::{Candidate, Monitor};
use machine_events::{CondKind, Note, NoteList, Plan};
use plan_claims::{reads_none, waits_at};
use std::alloc::{AllocError, Global};

/// The plan, relayed: on a condition that reads no inputs one waiter at a time is woken, and each
/// that was woken sees to the next one. It fails only for want of memory.
///
/// Each condition that reads no inputs is of kind signal, and each note on it is a signal, tested
/// where it was. Where such a condition was of kind broadcast, each block that waits at it and had
/// no note on it has a tested signal on it. The notes of a block rise. A relayed plan is lawful
/// where the plan is, and a section wakes one at most of those who wait on such a condition
/// ([`relayed_sections_wake_one`]).
///
/// [`relayed_sections_wake_one`]: super::relayed_sections_wake_one
pub fn relay(alloc: Global, monitor: &Monitor, plan: &Plan) -> Result<Plan, AllocError>
    requires { FitsPlan monitor.now plan.now }
    ensures plan { IfOk result (λ relayed. relayed ≡ relay_of monitor.now plan.now) }
    ensures fits { IfOk result (λ relayed. FitsPlan monitor.now relayed) }
    ensures lawful { IfOk result (λ relayed.
        IsLawful monitor.now plan.now → IsLawful monitor.now relayed) }
{
    let _blocks = monitor.blocks();
    relayed_plans_are_lawful(); // gives `fits` and `lawful`
    let relayed = relayed_plan(alloc, monitor, plan)?;
    Ok(relayed)
}

fn relayed_plan(alloc: Global, monitor: &Monitor, plan: &Plan) -> Result<Plan, AllocError>
    requires { FitsPlan monitor.now plan.now }
    ensures { IfOk result (λ relayed. relayed ≡ relay_of monitor.now plan.now) }
{
    let _blocks = monitor.blocks();
    let kept = copied(alloc, plan.kept.items())?;
    let kinds = relayed_kinds(alloc, monitor, plan.kinds.items())?;
    let notes = relayed_lists(alloc, monitor, plan.kinds.items(), plan.notes.items())?;
    Ok(Plan {
        kept: Seq::of(kept),
        kinds: Seq::of(kinds),
        notes: Seq::of(notes),
    })
}

fn copied(alloc: Global, candidates: &[Candidate]) -> Result<Vec<Candidate>, AllocError>
    ensures { IfOk result (λ all. all.items ≡ candidates.now) }
{
    let mut all = Vec::new(alloc);
    for candidate in candidates {
        all.push(*candidate)?;
    }
    Ok(all)
}

// ---- kinds

/// The kind of each condition.
fn relayed_kinds(
    alloc: Global,
    monitor: &Monitor,
    kinds: &[CondKind],
) -> Result<Vec<CondKind>, AllocError>
    requires { length kinds.now ≤ CONDITIONS }
    ensures { IfOk result (λ made. made.items ≡ relayed_kinds monitor.now kinds.now) }
{
    let mut made = Vec::new(alloc);
    for index in 0..kinds.len() {
        made.push(relayed_kind(monitor, index as u32 + 1, kinds[index]))?;
    }
    Ok(made)
}

fn relayed_kind(monitor: &Monitor, condition: u32, kind: CondKind) -> CondKind
    ensures { result ≡ relayed_kind monitor.now condition kind }
{
    if reads_none(monitor, condition) {
        CondKind::Signal
    } else {
        kind
    }
}

// ---- notes

/// The notes of each block.
fn relayed_lists(
    alloc: Global,
    monitor: &Monitor,
    kinds: &[CondKind],
    lists: &[NoteList],
) -> Result<Vec<NoteList>, AllocError>
    requires { length lists.now ≤ BLOCKS }
    ensures { IfOk result (λ made. made.items
        ≡ map (λ one. relayed_notes monitor.now kinds.now one.0 one.1)
        (enumerate_from 0 lists.now)) }
{
    let mut made = Vec::new(alloc);
    for index in 0..lists.len() {
        made.push(relayed_list(alloc, monitor, kinds, index as u32, lists[index].notes())?)?;
    }
    Ok(made)
}

/// The notes of a block that had these.
fn relayed_list(
    alloc: Global,
    monitor: &Monitor,
    kinds: &[CondKind],
    block: u32,
    notes: &[Note],
) -> Result<NoteList, AllocError>
    ensures { IfOk result (λ made. made ≡ relayed_notes monitor.now kinds.now block notes.now) }
{
    let mut made = Vec::new(alloc);
    for index in 0..monitor.conditions().len() {
        let condition = index as u32 + 1;
        let note = relayed_on(monitor, kinds, block, condition, note_on(notes, condition));
        push_some(&mut made, note)?;
    }
    Ok(NoteList::of(made))
}

/// The block's note on the condition.
fn note_on(notes: &[Note], condition: u32) -> Option<Note>
    ensures { result ≡ note_on notes.now condition }
{
    found_on(notes, condition).copied()
}

fn found_on(notes: &[Note], condition: u32) -> Option<&Note>
    ensures { option_copied result ≡ note_on notes.now condition }
{
    notes.iter().find(|note| note.condition == condition)
}

/// What the block has on the condition where it had this note there, or none.
fn relayed_on(
    monitor: &Monitor,
    kinds: &[CondKind],
    block: u32,
    condition: u32,
    found: Option<Note>,
) -> Option<Note>
    ensures { result ≡ relayed_on monitor.now kinds.now block condition found }
{
    match found {
        Some(note) => Some(relayed_note(monitor, note)),
        None => {
            if hands_on(monitor, kinds, block, condition) {
                Some(tested_signal(condition))
            } else {
                None
            }
        }
    }
}

fn relayed_note(monitor: &Monitor, note: Note) -> Note
    ensures { result ≡ relayed_note monitor.now note }
{
    let all = note.all && !reads_none(monitor, note.condition);
    Note { all, ..note }
}

fn tested_signal(condition: u32) -> Note
    ensures { result ≡ tested_signal condition }
{
    Note {
        condition,
        all: false,
        tested: true,
    }
}

/// Whether the block waits at the condition, which reads no inputs and was of kind broadcast.
fn hands_on(monitor: &Monitor, kinds: &[CondKind], block: u32, condition: u32) -> bool
    ensures { result ≡ hands_on monitor.now kinds.now block condition }
{
    reads_none(monitor, condition)
        && (is_broadcast_at(kinds, condition) && waits_at(monitor, condition, block))
}
