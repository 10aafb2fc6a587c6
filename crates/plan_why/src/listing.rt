//! What costs something in a plan, listed.

ghost use Rattle.std.specs.Prelude.{◌≡◌, ◌++◌, ◌∷◌, [], ◌≤◌, All, IfOk, length};
ghost use Rattle.std.specs.List.{enumerate_from, flat_map};
ghost use Rattle.lang_base.specs.Limits.{BLOCKS, CONDITIONS};
ghost use Rattle.machine_events.specs.Plans.{FitsPlan};
ghost use Rattle.plan_why.specs.Things.{broadcast_of_condition, notes_of_block, reads_none};
ghost use Rattle.plan_why.specs.Things.{tests_of_block, things_of, IsThingOf};

use super::reason::Thing;
use lang_monitor::Monitor;
use machine_events::{CondKind, Note, NoteList, Plan};
use std::alloc::{AllocError, Global};

// ---- notes

/// Adds each note of a block.
fn push_notes(things: &mut Vec<Thing>, block: u32, notes: &[Note]) -> Result<(), AllocError>
    ensures { IfOk result (λ done.
        things.new.items ≡ things.old.items ++ notes_of_block block notes.now) }
{
    for note in notes {
        things.push(Thing::Note {
            block,
            condition: note.condition,
        })?;
    }
    Ok(())
}

/// Adds the notes of each block.
fn push_all_notes(things: &mut Vec<Thing>, lists: &[NoteList]) -> Result<(), AllocError>
    requires { length lists.now ≤ BLOCKS }
    ensures { IfOk result (λ done. things.new.items ≡ things.old.items
        ++ flat_map (λ one. notes_of_block one.0 one.1) (enumerate_from 0 lists.now)) }
{
    for index in 0..lists.len() {
        push_notes(things, index as u32, lists[index].notes())?;
    }
    Ok(())
}

// ---- conditions

/// Whether the monitor has this condition, and its guard reads no inputs.
fn reads_none(monitor: &Monitor, condition: u32) -> bool
    requires { 1 ≤ condition }
    ensures { result ≡ reads_none monitor.now condition }
{
    match monitor.conditions().get(condition as usize - 1) {
        None => false,
        Some(held) => !held.reads_inputs,
    }
}

/// Adds the condition, where it is of kind broadcast and reads no inputs.
fn push_broadcast(
    things: &mut Vec<Thing>,
    monitor: &Monitor,
    condition: u32,
    kind: CondKind,
) -> Result<(), AllocError>
    requires { 1 ≤ condition }
    ensures { IfOk result (λ done. things.new.items
        ≡ things.old.items ++ broadcast_of_condition monitor.now condition kind) }
{
    match kind {
        CondKind::Signal => Ok(()),
        CondKind::Broadcast => {
            if reads_none(monitor, condition) {
                things.push(Thing::Broadcast { condition })?;
            }
            Ok(())
        }
    }
}

/// Adds each condition of kind broadcast that reads no inputs.
fn push_broadcasts(
    things: &mut Vec<Thing>,
    monitor: &Monitor,
    kinds: &[CondKind],
) -> Result<(), AllocError>
    requires { length kinds.now ≤ CONDITIONS }
    ensures { IfOk result (λ done. things.new.items ≡ things.old.items
        ++ flat_map (λ one. broadcast_of_condition monitor.now one.0 one.1)
        (enumerate_from 1 kinds.now)) }
{
    for index in 0..kinds.len() {
        push_broadcast(things, monitor, index as u32 + 1, kinds[index])?;
    }
    Ok(())
}

// ---- tested notes

/// Adds the note of the block, where it is tested.
fn push_test(things: &mut Vec<Thing>, block: u32, note: Note) -> Result<(), AllocError>
    ensures { IfOk result (λ done. things.new.items
        ≡ things.old.items ++ tests_of_block block (note ∷ [])) }
{
    if note.tested {
        things.push(Thing::Test {
            block,
            condition: note.condition,
        })?;
    }
    Ok(())
}

/// Adds each tested note of a block.
fn push_tests(things: &mut Vec<Thing>, block: u32, notes: &[Note]) -> Result<(), AllocError>
    ensures { IfOk result (λ done.
        things.new.items ≡ things.old.items ++ tests_of_block block notes.now) }
{
    for note in notes {
        push_test(things, block, *note)?;
    }
    Ok(())
}

/// Adds the tested notes of each block.
fn push_all_tests(things: &mut Vec<Thing>, lists: &[NoteList]) -> Result<(), AllocError>
    requires { length lists.now ≤ BLOCKS }
    ensures { IfOk result (λ done. things.new.items ≡ things.old.items
        ++ flat_map (λ one. tests_of_block one.0 one.1) (enumerate_from 0 lists.now)) }
{
    for index in 0..lists.len() {
        push_tests(things, index as u32, lists[index].notes())?;
    }
    Ok(())
}

// ---- the whole

/// What costs something in a plan, in the plan's order (`specs/Things`). It fails only for want of
/// memory.
pub fn things_of(alloc: Global, monitor: &Monitor, plan: &Plan) -> Result<Vec<Thing>, AllocError>
    requires { FitsPlan monitor.now plan.now }
    ensures things { IfOk result (λ things. things.items ≡ things_of monitor.now plan.now) }
    ensures each { IfOk result (λ things. All (IsThingOf monitor.now) things.items) }
{
    let _blocks = monitor.blocks();
    let mut things = Vec::new(alloc);
    push_all_notes(&mut things, plan.notes.items())?;
    push_broadcasts(&mut things, monitor, plan.kinds.items())?;
    push_all_tests(&mut things, plan.notes.items())?;
    Ok(things)
}
