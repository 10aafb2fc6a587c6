//! The notes of blocks.

ghost use Rattle.std.specs.Prelude.{◌≡◌, ◌<◌, ◌≤◌, ◌++◌, ◌∷◌, [], length, true, Bool};
ghost use Rattle.std.specs.Prelude.{IfOk, OnOk, IfSome, option_to_list};
ghost use Rattle.std.specs.List.{enumerate_from, flat_map};
ghost use Rattle.machine_events.specs.PlanText.{note_kind};
ghost use Rattle.plan_claims.specs.Backing.{AreProofs, unnoted_claims, untested_claims};
ghost use Rattle.plan_place.specs.inner.Answers.{Adds, AreAskable, AreNotes, AreNotesOfEach};
ghost use Rattle.plan_place.specs.inner.Answers.{IsMade, IsNote, IsTested, unnoted_claim};

use super::asking::proof_of;
use lang_monitor::{Candidate, Claim, Monitor};
use machine_events::{CondKind, Note, NoteList};
use plan_claims::Proof;
use std::alloc::{AllocError, Global};

/// Proofs that were found while notes were placed.
#[derive(Debug, Drop)]
pub(crate) struct Found {
    /// That no note is needed.
    pub(crate) unnoted: Vec<Proof>,
    /// That no test is needed.
    pub(crate) untested: Vec<Proof>,
}

/// The notes of each block, and the proofs that they rest on.
#[derive(Debug, Drop)]
pub(crate) struct Notes {
    pub(crate) notes: Vec<NoteList>,
    pub(crate) found: Found,
}

/// Whether the notes on a condition of this kind wake all.
fn wakes_all(kind: CondKind) -> bool
    ensures { note_kind result ≡ kind }
{
    match kind {
        CondKind::Signal => false,
        CondKind::Broadcast => true,
    }
}

/// Whether a note of the block on the condition is tested: it is where the condition reads no
/// inputs and no proof is found that no test is needed. A proof that is found is added.
fn is_tested(
    alloc: Global,
    monitor: &Monitor,
    kept: &[Candidate],
    block: u32,
    condition: u32,
    untested: &mut Vec<Proof>,
) -> Result<bool, AllocError>
    requires kept { AreAskable kept.now }
    requires block { block < length monitor.now.blocks }
    requires first { 1 ≤ condition }
    requires last { condition ≤ length monitor.now.conditions }
    ensures tested { IfOk result (λ tested. tested ≡ true
        → IsTested monitor.now kept.now block condition) }
    ensures proofs { IfOk result (λ tested. (all : Bool) → Adds monitor.now kept.now
        (untested_claims monitor.now block
        (record { condition = condition; all = all; tested = tested } ∷ []))
        untested.old.items untested.new.items) }
{
    if monitor.conditions()[condition as usize - 1].reads_inputs {
        return Ok(false);
    }
    match proof_of(alloc, monitor, kept, Claim::NoTest { block, condition })? {
        Some(proof) => {
            untested.push(proof)?;
            Ok(false)
        }
        None => Ok(true),
    }
}

/// A note of the block on the condition.
fn note_of(
    alloc: Global,
    monitor: &Monitor,
    kept: &[Candidate],
    kinds: &[CondKind],
    block: u32,
    condition: u32,
    untested: &mut Vec<Proof>,
) -> Result<Note, AllocError>
    requires kept { AreAskable kept.now }
    requires kinds { length kinds.now ≡ length monitor.now.conditions }
    requires block { block < length monitor.now.blocks }
    requires first { 1 ≤ condition }
    requires last { condition ≤ length monitor.now.conditions }
    ensures note { IfOk result (IsMade monitor.now kept.now kinds.now block condition) }
    ensures proofs { IfOk result (λ note. Adds monitor.now kept.now
        (untested_claims monitor.now block (note ∷ []))
        untested.old.items untested.new.items) }
{
    let all = wakes_all(kinds[condition as usize - 1]);
    let tested = is_tested(alloc, monitor, kept, block, condition, untested)?;
    Ok(Note {
        condition,
        all,
        tested,
    })
}

/// The note of the block on the condition, unless a proof is found that none is needed. That proof
/// is added.
fn note_on(
    alloc: Global,
    monitor: &Monitor,
    kept: &[Candidate],
    kinds: &[CondKind],
    block: u32,
    condition: u32,
    found: &mut Found,
) -> Result<Option<Note>, AllocError>
    requires kept { AreAskable kept.now }
    requires kinds { length kinds.now ≡ length monitor.now.conditions }
    requires block { block < length monitor.now.blocks }
    requires first { 1 ≤ condition }
    requires last { condition ≤ length monitor.now.conditions }
    ensures on { IfOk result (λ note. IfSome note (λ note. note.condition ≡ condition)) }
    ensures note { IfOk result (λ note. IfSome note (IsNote monitor.now kept.now kinds.now block)) }
    ensures unnoted { IfOk result (λ note. Adds monitor.now kept.now
        (unnoted_claim block condition note)
        found.old.unnoted.items found.new.unnoted.items) }
    ensures untested { IfOk result (λ note. Adds monitor.now kept.now
        (untested_claims monitor.now block (option_to_list note))
        found.old.untested.items found.new.untested.items) }
{
    match proof_of(alloc, monitor, kept, Claim::NoNote { block, condition })? {
        Some(proof) => {
            found.unnoted.push(proof)?;
            Ok(None)
        }
        None => Ok(Some(note_of(
            alloc,
            monitor,
            kept,
            kinds,
            block,
            condition,
            &mut found.untested,
        )?)),
    }
}

/// Appends the note, where there is one.
pub(crate) fn push_some(notes: &mut Vec<Note>, note: Option<Note>) -> Result<(), AllocError>
    ensures { OnOk result (notes.new.items ≡ notes.old.items ++ option_to_list note) }
{
    match note {
        Some(note) => notes.push(note)?,
        None => {}
    }
    Ok(())
}

/// The notes of a block.
fn notes_of(
    alloc: Global,
    monitor: &Monitor,
    kept: &[Candidate],
    kinds: &[CondKind],
    block: u32,
    found: &mut Found,
) -> Result<NoteList, AllocError>
    requires kept { AreAskable kept.now }
    requires kinds { length kinds.now ≡ length monitor.now.conditions }
    requires block { block < length monitor.now.blocks }
    ensures notes { IfOk result
        (AreNotes monitor.now kept.now kinds.now block (length monitor.now.conditions)) }
    ensures unnoted { IfOk result (λ notes. Adds monitor.now kept.now
        (unnoted_claims monitor.now block notes)
        found.old.unnoted.items found.new.unnoted.items) }
    ensures untested { IfOk result (λ notes. Adds monitor.now kept.now
        (untested_claims monitor.now block notes)
        found.old.untested.items found.new.untested.items) }
{
    let mut notes = Vec::new(alloc);
    for index in 0..monitor.conditions().len() {
        let condition = index as u32 + 1;
        let note = note_on(alloc, monitor, kept, kinds, block, condition, found)?;
        push_some(&mut notes, note)?;
    }
    Ok(NoteList::of(notes))
}

/// The notes of each block.
pub(crate) fn notes_of_all(
    alloc: Global,
    monitor: &Monitor,
    kept: &[Candidate],
    kinds: &[CondKind],
) -> Result<Notes, AllocError>
    requires kept { AreAskable kept.now }
    requires kinds { length kinds.now ≡ length monitor.now.conditions }
    ensures many { IfOk result (λ made. length made.notes.items ≡ length monitor.now.blocks) }
    ensures notes { IfOk result
        (λ made. AreNotesOfEach monitor.now kept.now kinds.now made.notes.items) }
    ensures unnoted { IfOk result (λ made. AreProofs monitor.now kept.now
        (flat_map (λ one. unnoted_claims monitor.now one.0 one.1)
        (enumerate_from 0 made.notes.items))
        made.found.unnoted.items) }
    ensures untested { IfOk result (λ made. AreProofs monitor.now kept.now
        (flat_map (λ one. untested_claims monitor.now one.0 one.1)
        (enumerate_from 0 made.notes.items))
        made.found.untested.items) }
{
    let mut found = Found {
        unnoted: Vec::new(alloc),
        untested: Vec::new(alloc),
    };
    let mut notes = Vec::new(alloc);
    for index in 0..monitor.blocks().len() {
        let block = index as u32;
        notes.push(notes_of(alloc, monitor, kept, kinds, block, &mut found)?)?;
    }
    Ok(Notes { notes, found })
}
