//! What is seen of a plan without a proof.

ghost use Rattle.std.specs.Prelude.{◌≡◌, ◌↔◌, ◌<◌, ◌^◌, ◌||◌, IsTrue, length};
ghost use Rattle.report_verdict.specs.Reports.{IsPlanOf};
ghost use Rattle.report_audit.specs.inner.Seen.{AreListsSuited, AreNotesSuited, IsFalseAt};
ghost use Rattle.report_audit.specs.inner.Seen.{IsUnsuitedAt};
ghost use Rattle.report_audit.specs.inner.Seen.{SuitsAs, suits_on};

use lang_monitor::{Candidate, Monitor};
use machine_events::{Note, NoteList, Plan};
use plan_candidates::is_true_at_start;
use plan_claims::reads_none;
use plan_place::is_broadcast_at;

// ---- the start

/// The place of the first candidate that is false at some start, or none.
pub(crate) fn first_false(monitor: &Monitor, kept: &[Candidate]) -> Option<u32>
    requires { length kept.now < 2 ^ 32 }
    ensures { IsFalseAt monitor.now kept.now result }
{
    for place in 0..kept.len() {
        if !is_true_at_start(monitor, kept[place]) {
            return Some(place as u32);
        }
    }
    None
}

// ---- kinds, and notes

/// The first condition whose kind or a note on it doesn't suit it, or none.
pub(crate) fn first_unsuited(monitor: &Monitor, plan: &Plan) -> Option<u32>
    requires { IsPlanOf monitor.now plan.now }
    ensures { IsUnsuitedAt monitor.now plan.now result }
{
    for index in 0..monitor.conditions().len() {
        let condition = index as u32 + 1;
        if !suits_as(monitor, plan, condition) {
            return Some(condition);
        }
    }
    None
}

/// Whether the kind of the condition and each note on it suit it.
fn suits_as(monitor: &Monitor, plan: &Plan, condition: u32) -> bool
    ensures { IsTrue result ↔ SuitsAs monitor.now plan.now condition }
{
    let none = reads_none(monitor, condition);
    let wide = is_broadcast_at(plan.kinds.items(), condition);
    let kind = either(none, wide);
    let notes = are_lists_suited(condition, none, wide, plan.notes.items());
    both(kind, notes)
}

fn either(one: bool, two: bool) -> bool
    ensures { result ≡ (one || two) }
{
    one || two
}

fn both(one: bool, two: bool) -> bool
    ensures { IsTrue result ↔ (IsTrue one × IsTrue two) }
{
    one && two
}

/// Whether each note on the condition suits it, where it reads no inputs, or some, and is of kind
/// broadcast, or of kind signal.
fn are_lists_suited(condition: u32, none: bool, wide: bool, lists: &[NoteList]) -> bool
    ensures { IsTrue result ↔ AreListsSuited condition none wide lists.now }
{
    for list in lists {
        if !is_list_suited(condition, none, wide, list) {
            return false;
        }
    }
    true
}

fn is_list_suited(condition: u32, none: bool, wide: bool, list: &NoteList) -> bool
    ensures { IsTrue result ↔ AreNotesSuited condition none wide list.now }
{
    are_notes_suited(condition, none, wide, list.notes())
}

fn are_notes_suited(condition: u32, none: bool, wide: bool, notes: &[Note]) -> bool
    ensures { IsTrue result ↔ AreNotesSuited condition none wide notes.now }
{
    notes
        .iter()
        .all(|note| suits_on(condition, none, wide, *note))
}

fn suits_on(condition: u32, none: bool, wide: bool, note: Note) -> bool
    ensures { result ≡ suits_on condition none wide note }
{
    note.condition != condition || ((note.all || !wide) && (!note.tested || none))
}
