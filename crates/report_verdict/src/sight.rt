//! What is seen of a plan without a proof.

ghost use Rattle.std.specs.Prelude.{◌≡◌, ◌↔◌, IsTrue, length, slice_get};
ghost use Rattle.report_verdict.specs.Reports.{IsPlanOf};
ghost use Rattle.report_verdict.specs.Verdicts.{IsLawfulAtSight};
ghost use Rattle.report_verdict.specs.inner.Sight.{AreKindsSuited, AreListsSuited, AreNotesSuited};
ghost use Rattle.report_verdict.specs.inner.Sight.{is_broadcast, is_broadcast_at};
ghost use Rattle.report_verdict.specs.inner.Sight.{is_kind_suited, is_note_suited, is_test_suited};
ghost use Rattle.report_verdict.specs.inner.Sight.{is_way_suited};

use lang_monitor::{Condition, Monitor};
use machine_events::{CondKind, Note, NoteList, Plan};
use plan_candidates::are_true_at_start;
use plan_claims::reads_none;

/// Whether what a plan keeps is true at the start, and its kinds and notes suit the conditions. It
/// takes no memory.
pub fn is_lawful_at_sight(monitor: &Monitor, plan: &Plan) -> bool
    requires { IsPlanOf monitor.now plan.now }
    ensures { IsTrue result ↔ IsLawfulAtSight monitor.now plan.now }
{
    let starts = are_true_at_start(monitor, plan.kept.items());
    let kinds = are_kinds_suited(monitor.conditions(), plan.kinds.items());
    let notes = are_lists_suited(monitor, plan.kinds.items(), plan.notes.items());
    all_three(starts, kinds, notes)
}

fn all_three(one: bool, two: bool, three: bool) -> bool
    ensures { IsTrue result ↔ (IsTrue one × IsTrue two × IsTrue three) }
{
    one && (two && three)
}

fn is_broadcast(kind: CondKind) -> bool
    ensures { result ≡ is_broadcast kind }
{
    match kind {
        CondKind::Signal => false,
        CondKind::Broadcast => true,
    }
}

/// Whether each condition whose guard reads inputs is of kind broadcast.
fn are_kinds_suited(conditions: &[Condition], kinds: &[CondKind]) -> bool
    requires { length kinds.now ≡ length conditions.now }
    ensures { IsTrue result ↔ AreKindsSuited conditions.now kinds.now }
{
    for index in 0..conditions.len() {
        if !is_kind_suited(&conditions[index], kinds[index]) {
            return false;
        }
    }
    true
}

fn is_kind_suited(condition: &Condition, kind: CondKind) -> bool
    ensures { result ≡ is_kind_suited condition.now kind }
{
    !condition.reads_inputs || is_broadcast(kind)
}

/// Whether each note on a condition of kind broadcast is a broadcast, and each tested one is on a
/// condition that reads no inputs.
fn are_lists_suited(monitor: &Monitor, kinds: &[CondKind], lists: &[NoteList]) -> bool
    ensures { IsTrue result ↔ AreListsSuited monitor.now kinds.now lists.now }
{
    for list in lists {
        if !is_list_suited(monitor, kinds, list) {
            return false;
        }
    }
    true
}

fn is_list_suited(monitor: &Monitor, kinds: &[CondKind], list: &NoteList) -> bool
    ensures { IsTrue result ↔ AreNotesSuited monitor.now kinds.now list.now }
{
    are_notes_suited(monitor, kinds, list.notes())
}

fn are_notes_suited(monitor: &Monitor, kinds: &[CondKind], notes: &[Note]) -> bool
    ensures { IsTrue result ↔ AreNotesSuited monitor.now kinds.now notes.now }
{
    notes
        .iter()
        .all(|note| is_note_suited(monitor, kinds, *note))
}

fn is_note_suited(monitor: &Monitor, kinds: &[CondKind], note: Note) -> bool
    ensures { result ≡ is_note_suited monitor.now kinds.now note }
{
    is_way_suited(kinds, note) && is_test_suited(monitor, note)
}

fn is_way_suited(kinds: &[CondKind], note: Note) -> bool
    ensures { result ≡ is_way_suited kinds.now note }
{
    note.all || !is_broadcast_at(kinds, note.condition.saturating_sub(1))
}

fn is_test_suited(monitor: &Monitor, note: Note) -> bool
    ensures { result ≡ is_test_suited monitor.now note }
{
    !note.tested || reads_none(monitor, note.condition)
}

fn is_broadcast_at(kinds: &[CondKind], place: u32) -> bool
    ensures { result ≡ is_broadcast_at (slice_get kinds.now place) }
{
    match kinds.get(place as usize) {
        Some(kind) => is_broadcast(*kind),
        None => false,
    }
}
