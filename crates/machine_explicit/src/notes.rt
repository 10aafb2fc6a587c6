//! The notes that a client has to make.

ghost use Rattle.std.specs.Prelude.{◌≡◌, ◌<◌, ◌≤◌, true, MatchOption, [], length};
ghost use Rattle.machine_implicit.specs.Steps.{FitsState};
ghost use Rattle.machine_implicit.specs.declared.place.Place.{Place};
ghost use Rattle.machine_events.specs.Plans.{notes_at};
ghost use Rattle.machine_explicit.specs.Machines.{shown_stage};
ghost use Rattle.machine_explicit.specs.inner.Positions.{HasFinished, HasNoNext, HasNotes};
ghost use Rattle.machine_explicit.specs.inner.Positions.{IsFirstNote, IsNext, IsNoteOf, coming_notes};
ghost use Rattle.machine_explicit.specs.inner.Positions.{CanTest, after_overflow, to_come_after};
ghost use Rattle.machine_explicit.specs.inner.Positions.{fires_in, stage_of};

use super::calls::condition_of;
use super::position::{Position, ToCome};
use lang_monitor::Monitor;
use machine_events::{Note, Plan, Stage};
use machine_implicit::{Place, Reply, State, condition_holds};

/// The first note to come of a client, and those after it.
#[derive(Clone, Copy, Debug)]
pub struct Next {
    pub note: Note,
    pub rest: ToCome,
}

/// The notes of a block.
fn notes(plan: &Plan, block: u32) -> &[Note]
    ensures { result.now ≡ notes_at plan.now block }
{
    match plan.notes.items().get(block as usize) {
        Some(list) => list.notes(),
        None => &[],
    }
}

/// The notes that are to come after the reply of a block.
pub fn to_come_after(monitor: &Monitor, block: u32, reply: Reply) -> ToCome
    requires { block < length monitor.now.blocks }
    ensures { result ≡ to_come_after monitor.now block reply }
{
    match reply {
        Reply::Overflow => after_overflow(condition_of(monitor, block)),
        Reply::Refused => ToCome::Nothing,
        Reply::Unit => ToCome::Block { block, from: 0 },
        Reply::Int(_) => ToCome::Block { block, from: 0 },
        Reply::Bool(_) => ToCome::Block { block, from: 0 },
    }
}

/// What is to come after an overflow of a block of this condition: one that asserts has none, and
/// so nobody to signal.
fn after_overflow(condition: u32) -> ToCome
    ensures { result ≡ after_overflow condition }
{
    if condition == 0 {
        ToCome::Nothing
    } else {
        ToCome::Signal { condition }
    }
}

/// How many notes are to come.
fn count(plan: &Plan, to_come: ToCome) -> usize
    ensures { result ≡ length (coming_notes plan.now to_come) }
{
    match to_come {
        ToCome::Block { block, from } => notes(plan, block).len().saturating_sub(from),
        ToCome::Signal { condition: _ } => 1,
        ToCome::Nothing => 0,
    }
}

/// A stage as it is shown.
pub fn shown(plan: &Plan, stage: Stage<ToCome>) -> Stage<usize>
    ensures { result ≡ shown_stage (stage_of plan.now stage) }
{
    match stage {
        Stage::Idle => Stage::Idle,
        Stage::Entering => Stage::Entering,
        Stage::Waiting(condition) => Stage::Waiting(condition),
        Stage::Woken(condition) => Stage::Woken(condition),
        Stage::Inside => Stage::Inside,
        Stage::Notifying(to_come) => Stage::Notifying(count(plan, to_come)),
    }
}

/// How many notes of a client are to come.
pub fn count_notes(plan: &Plan, positions: &[Position], client: u32) -> usize
    ensures { HasNotes plan.now positions.now client result }
{
    match positions.get(client as usize) {
        Some(one) => match one.stage {
            Stage::Notifying(to_come) => count(plan, to_come),
            _ => 0,
        },
        None => 0,
    }
}

/// The place of a client that has made all its notes.
pub fn finished<'a>(plan: &Plan, positions: &'a [Position], client: u32) -> Option<&'a Place>
    ensures { MatchOption result
        ((place : Place) → HasFinished plan.now positions.now client place → ⊥)
        (λ place. HasFinished plan.now positions.now client place.now) }
{
    match positions.get(client as usize) {
        Some(one) => match one.stage {
            Stage::Notifying(to_come) => {
                if count(plan, to_come) == 0 {
                    Some(&one.place)
                } else {
                    None
                }
            }
            _ => None,
        },
        None => None,
    }
}

/// The first note to come of a client.
pub fn next_note(plan: &Plan, positions: &[Position], client: u32) -> Option<Next>
    ensures { MatchOption result (HasNoNext plan.now positions.now client)
        (λ next. IsNext plan.now positions.now client next) }
{
    match positions.get(client as usize) {
        Some(one) => match one.stage {
            Stage::Notifying(to_come) => first_note(plan, to_come),
            _ => None,
        },
        None => None,
    }
}

/// The first of the notes to come.
fn first_note(plan: &Plan, to_come: ToCome) -> Option<Next>
    ensures { MatchOption result (coming_notes plan.now to_come ≡ [])
        (λ next. IsFirstNote plan.now to_come next) }
{
    match to_come {
        ToCome::Block { block, from } => own_note(plan, block, from),
        ToCome::Signal { condition } => Some(Next {
            note: Note {
                condition,
                all: false,
                tested: false,
            },
            rest: ToCome::Nothing,
        }),
        ToCome::Nothing => None,
    }
}

/// The first note of a block from one on.
fn own_note(plan: &Plan, block: u32, from: usize) -> Option<Next>
    ensures { MatchOption result (length (notes_at plan.now block) ≤ from)
        (λ next. IsNoteOf plan.now block from next) }
{
    match notes(plan, block).get(from) {
        Some(note) => Some(Next {
            note: *note,
            rest: ToCome::Block {
                block,
                from: from + 1,
            },
        }),
        None => None,
    }
}

/// Whether a note fires.
pub fn fires(monitor: &Monitor, state: &State, note: Note) -> bool
    requires state { FitsState monitor.now state.now }
    requires fits { note.tested ≡ true → CanTest monitor.now note }
    ensures { result ≡ fires_in monitor.now state.now note }
{
    if !note.tested {
        return true;
    }
    condition_holds(monitor, state, note.condition)
}
