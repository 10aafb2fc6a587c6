//! Whether a plan that a caller put together fits a monitor.

ghost use Rattle.std.specs.Prelude.{◌≡◌, ◌↔◌, ◌||◌, IsTrue, All, not};
ghost use Rattle.lang_monitor.specs.Candidates.{candidates_of};
ghost use Rattle.machine_events.specs.Plans.{AreSomeOf, FitsNote, FitsNotes, FitsPlan};

use super::plan::{Note, NoteList, Plan};
use lang_monitor::{Condition, Monitor};

/// Whether a plan fits a monitor, where the candidates that it keeps are the monitor's: a kind for
/// each condition, and for each block notes on conditions that there are, tested ones on conditions
/// whose guards read no inputs. It takes no memory.
pub fn plan_fits(monitor: &Monitor, plan: &Plan) -> bool
    requires { AreSomeOf plan.now.kept (candidates_of monitor.now) }
    ensures { IsTrue result ↔ FitsPlan monitor.now plan.now }
{
    if plan.kinds.items().len() != monitor.conditions().len() {
        return false;
    }
    if plan.notes.items().len() != monitor.blocks().len() {
        return false;
    }
    lists_fit(monitor, plan.notes.items())
}

/// Whether each block's notes fit.
fn lists_fit(monitor: &Monitor, lists: &[NoteList]) -> bool
    ensures { IsTrue result ↔ All (FitsNotes monitor.now) lists.now }
{
    for list in lists {
        if !list_fits(monitor, list) {
            return false;
        }
    }
    true
}

/// Whether the notes of a block fit. They rise, since every list of notes does.
fn list_fits(monitor: &Monitor, list: &NoteList) -> bool
    ensures { IsTrue result ↔ FitsNotes monitor.now list.now }
{
    notes_fit(monitor, list.notes())
}

/// Whether each note fits.
fn notes_fit(monitor: &Monitor, notes: &[Note]) -> bool
    ensures { IsTrue result ↔ All (FitsNote monitor.now) notes.now }
{
    notes.iter().all(|note| note_fits(monitor, note))
}

/// Whether a note is on a condition that there is, and, where it is tested, on one whose guard
/// reads no inputs.
fn note_fits(monitor: &Monitor, note: &Note) -> bool
    ensures { IsTrue result ↔ FitsNote monitor.now note.now }
{
    if note.condition == 0 {
        return false;
    }
    match monitor.conditions().get(note.condition as usize - 1) {
        Some(which) => may_be_on(note, which),
        None => false,
    }
}

/// Whether a note is untested, or the condition reads no inputs.
fn may_be_on(note: &Note, which: &Condition) -> bool
    ensures { result ≡ (not note.now.tested || not which.now.reads_inputs) }
{
    !note.tested || !which.reads_inputs
}
